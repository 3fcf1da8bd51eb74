// Numbers: their places in the text, and their digits written out.
ghost use Rattle.std.specs.Prelude.{◌≡◌, ◌||◌, ◌+◌, ◌≤◌, length};
ghost use Rattle.reading.specs.Look.{cell_at};
ghost use Rattle.reading.specs.Cells.{is};
ghost use Rattle.reading.specs.Span.{part};
ghost use Rattle.reading.specs.Slices.{Wrote};
ghost use Rattle.text.specs.Limits.{max_chars};
ghost use Rattle.text.specs.Output.{Adds};
ghost use Rattle.lexer.specs.Number.{or_zero};
ghost use Rattle.lexer.specs.Numerals.{Signed, Exponented, Numbered, digits_of, places};

use crate::look;
use text::chars::Char;
use text::classes::Digit;
use text::output::Output;

// Whether the sign is a minus, and the place behind it.
#[derive(Clone, Copy)]
pub struct Sign {
    pub minus: bool,
    pub end: usize,
}

fn read_sign(rest: &[u32], i: usize) -> Sign
    requires { i ≤ length rest.now }
    ensures { Signed rest.now i result.minus result.end }
{
    if look::is_at(rest, i, Char::PLUS) {
        return Sign {
            minus: false,
            end: i + 1,
        };
    }
    let minus = look::is_at(rest, i, Char::MINUS);
    Sign {
        minus,
        end: i + usize::from(minus),
    }
}

fn exponent_letter_at(rest: &[u32], i: usize) -> bool
    ensures { result ≡ is 0x65 (cell_at rest.now i) || is 0x45 (cell_at rest.now i) }
{
    look::is_at(rest, i, Char::SMALL_E) || look::is_at(rest, i, Char::CAPITAL_E)
}

// The exponent's sign, and where its digits begin and end.
#[derive(Clone, Copy)]
pub struct Exponent {
    pub minus: bool,
    pub from: usize,
    pub end: usize,
}

// The exponent that may stand at i.
fn read_exponent(rest: &[u32], i: usize) -> Exponent
    requires { (length rest.now ≤ max_chars) × (i ≤ length rest.now) }
    ensures { Exponented rest.now i result.minus result.from result.end }
{
    if !exponent_letter_at(rest, i) {
        return Exponent {
            minus: false,
            from: i,
            end: i,
        };
    }
    let sign = read_sign(rest, i + 1);
    Exponent {
        minus: sign.minus,
        from: sign.end,
        end: look::end_of::<Digit>(rest, sign.end),
    }
}

// A number's places: its digits before the point end at `before`, those behind it stand from `from` to `after`, those of the exponent from `exponent` to `end`.
#[derive(Clone, Copy)]
pub struct Number {
    pub before: usize,
    pub from: usize,
    pub after: usize,
    pub minus: bool,
    pub exponent: usize,
    pub end: usize,
    pub reach: usize,
}

impl Number {
    // A number with the exponent that stands behind its digits, which has been looked at to its end.
    fn with(before: usize, from: usize, after: usize, e: Exponent) -> Number
        requires { e.end ≤ max_chars }
        ensures { result ≡ places before from after e.minus e.from e.end (e.end + 1) }
    {
        Number {
            before,
            from,
            after,
            minus: e.minus,
            exponent: e.from,
            end: e.end,
            reach: e.end + 1,
        }
    }
}

// The number that starts at i, with a digit or with a point before a digit.
// Ruled out, among others: the point taken before no digit; the exponent's sign taken for the number's end.
pub fn read_number(rest: &[u32], i: usize) -> Number
    requires { (length rest.now ≤ max_chars) × (i ≤ length rest.now) }
    ensures { Numbered rest.now i result }
{
    let before = look::end_of::<Digit>(rest, i);
    if !look::is_at(rest, before, Char::DOT) {
        return Number::with(before, before, before, read_exponent(rest, before));
    }
    if !look::holds_at::<Digit>(rest, before + 1) {
        return Number {
            before,
            from: before,
            after: before,
            minus: false,
            exponent: before,
            end: before,
            reach: before + 2,
        };
    }
    let after = look::end_of::<Digit>(rest, before + 1);
    Number::with(before, before + 1, after, read_exponent(rest, after))
}

// Writes the digits before the point, or a zero.
fn write_before(digits: &[u32], out: &mut Output<'_>)
    requires { out.old.len + length (or_zero digits.now) ≤ length out.old.cells.now }
    ensures { Adds out.old (or_zero digits.now) out.new }
{
    if digits.is_empty() {
        out.push(Char::DIGIT_0);
    } else {
        out.append(digits);
    }
}

// Writes a number's digits before, after and of the exponent to the front of out; answers how many they are.
pub fn write_number(rest: &[u32], i: usize, n: Number, out: &mut [u32]) -> usize
    requires { (Numbered rest.now i n) × (length (digits_of rest.now i n) ≤ length out.old) }
    ensures { Wrote out.old (digits_of rest.now i n) result out.new }
{
    let mut written = Output { cells: out, len: 0 };
    write_before(&rest[i..n.before], &mut written);
    written.append(&rest[n.from..n.after]);
    written.append(&rest[n.exponent..n.end]);
    written.len
}
