// A record in the text form: how the Rust's run ended, the rows, the value store.
ghost use Rattle.std.specs.Prelude.{◌≡◌, ◌==◌, ◌<◌, ◌≤◌, length};
ghost use Rattle.std.specs.List.{take_while};
ghost use Rattle.replay.specs.Printed as spec;

use runs::item::{Item, Row};
use runs::record::Record;
use std::fmt;
use text::refusal::Refusal;

// A record that is printed in the text form.
#[derive(Clone, Copy)]
pub struct TextForm<'a>(pub Record<'a>);

// 1 where the Rust panicked in the last item, which 01 refuses with 7 or 8.
fn panicked(last: Row) -> u32
    ensures { result ≡ spec.panicked last }
{
    let refused = last[Item::REFUSED] != 0;
    let number = last[Item::NUMBER];
    u32::from(
        refused
            && (number == u32::from(Refusal::EndAtSecondHalf)
                || number == u32::from(Refusal::StartsWithIn)),
    )
}

// How many cells at the front are this one.
fn alike(cell: u32, cells: &[u32]) -> usize
    ensures { result ≡ length (take_while (λ x. x == cell) cells.now) }
{
    cells.iter().take_while(|c| **c == cell).count()
}

// So many cells that are this one: it alone, or it and their number.
#[derive(Clone, Copy)]
struct Piece {
    cell: u32,
    times: usize,
}

impl Piece {
    // What is printed first of some cells: four or more that are alike together, or one.
    fn first_of(cells: &[u32]) -> Piece
        requires { 0 < length cells.now }
        ensures { (result.times ≡ spec.piece_at cells.now 0) × (0 < result.times) × (result.times ≤ length cells.now) }
    {
        let cell = cells[0];
        let n = alike(cell, cells);
        let times = if n < 4 { 1 } else { n };
        Piece { cell, times }
    }
}

impl fmt::Display for Piece {
    fn fmt<W: fmt::Write>(&self, f: &mut fmt::Formatter<W>) -> fmt::Result {
        let Piece { cell, times } = *self;
        if times < 4 {
            return write!(f, "{cell:X}");
        }
        write!(f, "{cell:X}*{times:X}")
    }
}

impl fmt::Display for TextForm<'_> {
    fn fmt<W: fmt::Write>(&self, f: &mut fmt::Formatter<W>) -> fmt::Result {
        let Record { rows, store } = self.0;
        let Some(last) = rows.last() else {
            return Ok(());
        };
        let end = panicked(*last);
        let count = rows.len();
        write!(f, "{end} {count}")?;
        for row in rows {
            for n in row {
                write!(f, " {n}")?;
            }
        }
        if store.is_empty() {
            return write!(f, " -");
        }
        write!(f, " ")?;
        let mut rest = store;
        while !rest.is_empty() {
            let piece = Piece::first_of(rest);
            write!(f, "{piece}")?;
            rest = &rest[piece.times..];
            if !rest.is_empty() {
                write!(f, ",")?;
            }
        }
        Ok(())
    }
}
