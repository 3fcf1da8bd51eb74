// Reads a rule on standard input and prints its items, which it has as structs on a page, a line each: item, type (R and number if refused), position, reach.

#![tactic(auto)]

use lexer::flags::Flags;
use lexer::token_type::TokenType;
use records::page;
use records::stored::Stored;
use runs::item::{Item, Row};
use runs::room::Room;
use scope::lent::Lent;
use scope::scope::{Scope, Slot};
use std::{fmt, io};
use text::refusal::Refusal;

// Of a longer rule the first bytes are read.
const MAX_INPUT: usize = 128;

#[derive(Clone, Copy)]
struct Line(Stored);

impl fmt::Display for Line {
    fn fmt<W: fmt::Write>(&self, f: &mut fmt::Formatter<W>) -> fmt::Result {
        let Stored {
            number,
            position,
            reach,
            ..
        } = self.0;
        if self.0.refused {
            write!(f, "R")?;
        }
        write!(f, "{number} {position} {reach}")
    }
}

fn print_refusal(rt: &impl Print, refusal: Refusal, place: usize) -> io::Result<()> {
    let n = u32::from(refusal);
    println!(rt; "R{n} {place}")
}

// The items of the rows; more than a page holds are refused.
fn print_rows(rt: &impl Print, rows: &[Row]) -> io::Result<()> {
    let page = match page::page_of(rows) {
        Ok(page) => page,
        Err(refusal) => return print_refusal(rt, refusal, 0),
    };
    for (i, item) in page.items.iter().take(rows.len()).enumerate() {
        let line = Line(*item);
        println!(rt; "{i} {line}")?;
    }
    Ok(())
}

// The items of a text.
fn print_text(rt: &impl Print, text: &[u32]) -> io::Result<()> {
    let slots = [[0; Slot::NUMBERS]; Scope::ROWS];
    let names = [[0; Scope::MAX_NAME]; Scope::ROWS];
    let mut rows = [[0; Item::NUMBERS]; MAX_INPUT + 2];
    let mut store = [0; MAX_INPUT];
    let mut scratch = [0; 2 * MAX_INPUT];
    let mut room = Room {
        rows: &mut rows,
        store: &mut store,
        scratch: &mut scratch,
    };
    let scope = Lent {
        counts: Scope::opened(),
        slots: &slots,
        names: &names,
    };
    match runs::run::run(
        text,
        u32::from(TokenType::StartExpression),
        Flags::default(),
        scope,
        &mut room,
    ) {
        Ok(counts) => print_rows(rt, &room.rows[..counts.items]),
        Err(refusal) => print_refusal(rt, refusal, 0),
    }
}

fn main(rt: HostRuntime) -> io::Result<()> {
    let mut bytes = [0u8; MAX_INPUT];
    let n = input::read_full(&rt, &mut bytes)?;
    let mut cells = [0; MAX_INPUT];
    match text::utf8::open_bytes(&bytes[..n], &mut cells) {
        Ok(text) => print_text(&rt, &cells[..text.chars]),
        Err(refused) => print_refusal(&rt, refused.refusal, refused.place),
    }
}
