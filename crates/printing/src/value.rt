// The value field of an item, from its row and the store of values.
ghost use Rattle.std.specs.Prelude.{◌≡◌, [], ◌++◌, ◌+◌, ◌≤◌, length};
ghost use Rattle.reading.specs.Cells.{is_one_of};
ghost use Rattle.lexer.specs.Read.{text_types};
ghost use Rattle.runs.specs.Record.{item_of};
ghost use Rattle.runs.specs.Print as spec;
ghost use Rattle.printing.specs.Room.{max_printed};
ghost use Rattle.printing.specs.Field.{number_text, field_text};

use crate::number;
use crate::output::Output;
use lexer::token_type::TokenType;
use runs::item::{Item, Row};
use text::chars::Char;
use text::refusal::Refusal;

static TRUE: [u32; 4] = [Char::SMALL_T, Char::SMALL_R, Char::SMALL_U, Char::SMALL_E];

static FALSE: [u32; 5] = [
    Char::SMALL_F,
    Char::SMALL_A,
    Char::SMALL_L,
    Char::SMALL_S,
    Char::SMALL_E,
];

// Writes code points, joined by commas.
fn put_code_points(value: &[u32], out: &mut Output)
    requires { length out.old + length (spec.joined_by_comma value.now) ≤ max_printed }
    ensures { out.new ≡ out.old ++ spec.joined_by_comma value.now }
{
    for (i, c) in value.iter().enumerate() {
        if 0 < i {
            out.push(Char::COMMA);
        }
        number::put_number(16, *c as usize, out);
    }
}

// Whether a refusal carries a character or a value.
fn has_carry(n: u32) -> bool
    ensures { result ≡ spec.has_carry n }
{
    n == u32::from(Refusal::NoHexDigit)
        || n == u32::from(Refusal::NoScalarValue)
        || n == u32::from(Refusal::NoSecondHalf)
}

// The types whose value is a name or a string.
fn is_text(n: u32) -> bool
    ensures { result ≡ is_one_of text_types n }
{
    n == u32::from(TokenType::String)
        || n == u32::from(TokenType::Name)
        || n == u32::from(TokenType::NameDateTime)
        || n == u32::from(TokenType::BuiltInTypeName)
}

// The cells of an item's value.
fn value_of(row: Row, store: &[u32]) -> &[u32]
    ensures { result.now ≡ (item_of store.now row).value }
{
    let a = (row[Item::START] as usize).min(store.len());
    let z = a + (row[Item::LENGTH] as usize).min(store.len() - a);
    &store[a..z]
}

// A number's digits before the point, behind it and of the exponent, and whether the exponent has a minus.
#[derive(Clone, Copy)]
pub struct Number<'a> {
    before: &'a [u32],
    after: &'a [u32],
    minus: bool,
    exponent: &'a [u32],
}

impl<'a> Number<'a> {
    // The digits in a value with so many before the point and behind it; the sign 1 is a minus.
    fn new(value: &'a [u32], before: usize, after: usize, sign: u32) -> Number<'a>
        ensures { number_text result ≡ spec.number_field before after sign value.now }
    {
        let (before, rest) = value.split_at(before.min(value.len()));
        let (after, exponent) = rest.split_at(after.min(rest.len()));
        Number {
            before,
            after,
            minus: sign == 1,
            exponent,
        }
    }

    fn put(self, out: &mut Output)
        requires { length out.old + length (number_text self) ≤ max_printed }
        ensures { out.new ≡ out.old ++ number_text self.entry }
    {
        out.append(self.before);
        out.push(Char::SLASH);
        out.append(self.after);
        out.push(Char::SLASH);
        out.push(if self.minus { Char::MINUS } else { Char::PLUS });
        out.push(Char::SLASH);
        out.append(self.exponent);
    }
}

// What the value field of an item shows.
#[derive(Clone, Copy)]
pub enum Field<'a> {
    Nothing,
    Carry(u32),
    Number(Number<'a>),
    Text(&'a [u32]),
    Truth(bool),
}

impl<'a> Field<'a> {
    // Ruled out, among others: a name shown as nothing; a number without its sign.
    pub fn of(row: Row, store: &'a [u32]) -> Field<'a>
        ensures { field_text result ≡ spec.value_field (item_of store.now row) }
    {
        let n = row[Item::NUMBER];
        let extra = row[Item::EXTRA];
        if row[Item::REFUSED] == 1 {
            if has_carry(n) {
                return Field::Carry(extra);
            }
            return Field::Nothing;
        }
        let value = value_of(row, store);
        if n == u32::from(TokenType::Numeric) {
            let before = row[Item::BEFORE] as usize;
            let after = row[Item::AFTER] as usize;
            return Field::Number(Number::new(value, before, after, extra));
        }
        if is_text(n) {
            return Field::Text(value);
        }
        if n == u32::from(TokenType::Boolean) {
            return Field::Truth(extra == 1);
        }
        Field::Nothing
    }

    // Writes the field: nothing as a hyphen, texts as `=` and code points.
    pub fn put(self, out: &mut Output)
        requires { length out.old + length (field_text self) ≤ max_printed }
        ensures { out.new ≡ out.old ++ field_text self.entry }
    {
        match self {
            Field::Nothing => out.push(Char::MINUS),
            Field::Carry(c) => number::put_number(16, c as usize, out),
            Field::Number(number) => number.put(out),
            Field::Text(value) => {
                out.push(Char::EQUAL);
                put_code_points(value, out);
            }
            Field::Truth(true) => out.append(&TRUE),
            Field::Truth(false) => out.append(&FALSE),
        }
    }
}
