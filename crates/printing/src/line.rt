// The lines of a record, and the line of a refused opening.
ghost use Rattle.std.specs.Prelude.{◌≡◌, cond, [], ◌++◌, ◌+◌, ◌≤◌, eqb, length};
ghost use Rattle.reading.specs.Codes.{codes};
ghost use Rattle.text.specs.RefusalNumber.{number_of};
ghost use Rattle.runs.specs.Record.{item_of, unpack};
ghost use Rattle.runs.specs.Print as spec;
ghost use Rattle.printing.specs.Room.{max_printed};
ghost use Rattle.printing.specs.Field.{record_of};

use crate::number;
use crate::output::Output;
use crate::value::Field;
use runs::item::{Item, Row};
use runs::record::Record;
use text::chars::Char;
use text::refusal::Refusal;

// Writes a decimal number and a space.
fn put_field(n: usize, out: &mut Output)
    requires { length out.old + length (spec.decimal n) + 1 ≤ max_printed }
    ensures { out.new ≡ out.old ++ (spec.decimal n ++ codes " ") }
{
    number::put_number(10, n, out);
    out.push(Char::SPACE);
}

// Writes the type, marked where it is a refusal, and a space.
fn put_type(refused: u32, n: u32, out: &mut Output)
    requires { length out.old + length (cond (eqb refused 1) (codes "R") [] ++ spec.decimal n ++ codes " ") ≤ max_printed }
    ensures { out.new ≡ out.old ++ (cond (eqb refused 1) (codes "R") [] ++ spec.decimal n ++ codes " ") }
{
    if refused == 1 {
        out.push(Char::CAPITAL_R);
    }
    put_field(n as usize, out);
}

// Writes the line of item n.
fn put_line(n: usize, row: Row, store: &[u32], out: &mut Output)
    requires { length out.old + length (spec.line n (item_of store.now row)) ≤ max_printed }
    ensures { out.new ≡ out.old ++ spec.line n (item_of store.now row) }
{
    put_field(n, out);
    put_type(row[Item::REFUSED], row[Item::NUMBER], out);
    put_field(row[Item::POSITION] as usize, out);
    put_field(row[Item::REACH] as usize, out);
    Field::of(row, store).put(out);
    out.push(Char::LINE_FEED);
}

// Writes a line for each item.
// Ruled out, among others: items counted from 1.
pub fn put_lines(all: Record, out: &mut Output)
    requires { length out.old + length (spec.lines 0 (unpack (record_of all))) ≤ max_printed }
    ensures { out.new ≡ out.old ++ spec.lines 0 (unpack (record_of all.entry)) }
{
    for (i, row) in all.rows.iter().enumerate() {
        put_line(i, *row, all.store, out);
    }
}

// Writes the line of a refused opening.
// Ruled out, among others: the place before the number; no line end.
pub fn put_refused(refusal: Refusal, place: usize, out: &mut Output)
    requires { length out.old + length (spec.refused_line (number_of refusal) place) ≤ max_printed }
    ensures { out.new ≡ out.old ++ spec.refused_line (number_of refusal) place }
{
    out.push(Char::CAPITAL_R);
    put_field(u32::from(refusal) as usize, out);
    number::put_number(10, place, out);
    out.push(Char::LINE_FEED);
}
