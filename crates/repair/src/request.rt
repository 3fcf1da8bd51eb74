// Whether a repair request is broken. What is lent may be anything.
ghost use Rattle.std.specs.Prelude.{◌≡◌, ◌≤◌, ◌<◌, ◌+◌, eqb};
ghost use Rattle.text.specs.Limits.{max_chars};
ghost use Rattle.runs.specs.Request as spec;
ghost use Rattle.repair.specs.Asking.{request_of};

use crate::kept;
use lexer::flags::Flags;
use lexer::token_type::TokenType;
use runs::item;
use runs::item::{Item, Row};
use runs::record::Record;
use text::utf8::Text;

// Whether a number's three lengths are its value's.
fn adds_up(row: &Row) -> bool
    ensures { result ≡ spec.adds_up row.now }
{
    let before = row[Item::BEFORE] as usize;
    let after = row[Item::AFTER] as usize;
    let exponent = row[Item::EXPONENT] as usize;
    before + after + exponent == row[Item::LENGTH] as usize
}

fn is_number(row: &Row) -> bool
    ensures { result ≡ spec.is_number row.now }
{
    row[Item::REFUSED] != 1 && row[Item::NUMBER] == TokenType::Numeric as u32
}

fn is_row(row: &Row) -> bool
    ensures { result ≡ spec.is_row row.now }
{
    row[Item::REFUSED] <= 1 && row[Item::FLAGS] <= Flags::ALL && (!is_number(row) || adds_up(row))
}

// Whether the row fits behind position p, over n characters; the last value ended at `at` of a store of m cells.
fn row_fits(n: usize, m: usize, at: usize, p: usize, row: &Row) -> bool
    requires { (n ≤ max_chars) × (at ≤ m) × (p ≤ n) }
    ensures { result ≡ spec.row_fits n m at p row.now }
{
    let position = row[Item::POSITION] as usize;
    let reach = row[Item::REACH] as usize;
    let length = row[Item::LENGTH] as usize;
    is_row(row)
        && position <= n
        && position <= reach
        && reach <= n + 12
        && row[Item::START] as usize == at
        && length <= m - at
        && p + length <= position
}

// Whether the rows behind the first fit.
#[tactic(auto, unfolding(runs::specs::Request::rows_fit))]
fn rows_fit(n: usize, m: usize, rows: &[Row]) -> bool
    requires { n ≤ max_chars }
    ensures { result ≡ spec.rows_fit n m 0 0 rows.now }
{
    let mut at: usize = 0;
    let mut p: usize = 0;
    let mut rest = rows;
    while let Some((row, behind)) = rest.split_first() {
        if !row_fits(n, m, at, p, row) {
            return false;
        }
        if item::ends_run(row) {
            return behind.is_empty();
        }
        let position = row[Item::POSITION] as usize;
        if position <= p {
            return false;
        }
        at += row[Item::LENGTH] as usize;
        p = position;
        rest = behind;
    }
    false
}

fn first_fits(n: usize, m: usize, rows: &[Row]) -> bool
    requires { n ≤ max_chars }
    ensures { result ≡ spec.first_fits n m rows.now }
{
    let Some((first, rest)) = rows.split_first() else {
        return false;
    };
    row_fits(n, m, 0, 0, first)
        && first[Item::POSITION] == 0
        && first[Item::REACH] == 0
        && if item::ends_run(first) {
            rest.is_empty()
        } else {
            rows_fit(n, m, rest)
        }
}

fn record_fits(n: usize, old: Record) -> bool
    requires { n ≤ max_chars }
    ensures { result ≡ spec.record_fits n (record { rows = old.entry.rows.now; store = old.entry.store.now }) }
{
    old.rows.len() <= n + 2 && first_fits(n, old.store.len(), old.rows)
}

// Whether a part of `length` cells from `start` on ends where the new text does, which is as long as `rest` and the `size` cells put in.
fn ends_with(start: usize, length: usize, rest: usize, size: usize) -> bool
    requires { (start < 4_294_967_296) × (length < 4_611_686_018_427_387_904) }
    ensures { result ≡ eqb (start + length) (rest + size) }
{
    let end = start + length;
    rest <= end && end - rest == size
}

// What is asked of a repair: the old text's length and record, an edit of the cells from `from` up to `to` to `size` others, and the new text from the last kept position on.
#[derive(Clone, Copy)]
pub struct Request<'a> {
    pub old_length: usize,
    pub old: Record<'a>,
    pub from: usize,
    pub to: usize,
    pub size: usize,
    pub part: &'a [u32],
}

impl Request<'_> {
    // 01: broken is an edit out of order or out of the old text, an old text over 16,384 characters, a record that is none of a run over it, or a text part that does not reach from the last kept position to the new text's end.
    // Ruled out, among others: a reach over the old length + 12 accepted; a row behind the last item accepted.
    pub fn is_broken(self) -> bool
        ensures { result ≡ spec.is_broken_request (request_of self.entry) }
    {
        self.to < self.from
            || self.old_length < self.to
            || Text::MAX_CHARS < self.old_length
            || !record_fits(self.old_length, self.old)
            || !ends_with(
                kept::part_start(self.old.rows, self.from),
                self.part.len(),
                self.old_length - self.to + self.from,
                self.size,
            )
    }
}
