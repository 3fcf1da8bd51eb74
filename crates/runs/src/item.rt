// An item of a run, and its row of eleven numbers.
ghost use Rattle.std.specs.Prelude.{◌≡◌, ◌≤◌, eqb, get_or};
ghost use Rattle.text.specs.Limits.{max_chars};
ghost use Rattle.lexer.specs.Answered.{told, cell_count};
ghost use Rattle.lexer.specs.Read.{is_last};
ghost use Rattle.runs.specs.Record.{refused_at, number_at};
ghost use Rattle.runs.specs.Coded.{kind_from, kind_numbers, value_from, Small, row_from};

use lexer::flags::Flags;
use lexer::token::{Read, Token};
use lexer::token_type::TokenType;
use text::refusal::Refusal;

// What was read, and the position, flags and reach behind it.
#[derive(Clone, Copy)]
pub struct Item {
    pub read: Read,
    pub position: usize,
    pub flags: Flags,
    pub reach: usize,
}

// 01: type or refusal, position and flags after, and reach; of the value its start in the store, its length, a number's three lengths, and a Boolean, a sign or a carry.
pub type Row = [u32; Item::NUMBERS];

impl Item {
    // The places in a row.
    pub const REFUSED: usize = 0;

    pub const NUMBER: usize = 1;

    pub const POSITION: usize = 2;

    pub const FLAGS: usize = 3;

    pub const REACH: usize = 4;

    pub const START: usize = 5;

    pub const LENGTH: usize = 6;

    pub const BEFORE: usize = 7;

    pub const AFTER: usize = 8;

    pub const EXPONENT: usize = 9;

    pub const EXTRA: usize = 10;

    // How many numbers a row has.
    pub const NUMBERS: usize = 11;

    // The row of the item, whose value starts at `start`.
    // Ruled out, among others: a number cut off at 32 bits; a row that keeps what an earlier run wrote where this item has nothing.
    #[inline(always)]
    pub fn row(self, start: usize) -> Row
        requires { Small self × (start ≤ max_chars) }
        ensures { result ≡ row_from start self }
    {
        let (refused, number) = match kind(self.read) {
            Ok(kind) => (false, u32::from(kind)),
            Err(refusal) => (true, u32::from(refusal)),
        };
        let value = Value::of(self.read);
        [
            u32::from(refused),
            number,
            self.position as u32,
            u32::from(self.flags),
            self.reach as u32,
            start as u32,
            value.length as u32,
            value.before as u32,
            value.after as u32,
            value.exponent as u32,
            value.extra,
        ]
    }
}

// The type of a token, or why it is refused.
// Ruled out, among others: a refusal taken for a token; a Boolean told as a number.
pub fn kind(read: Read) -> Result<TokenType, Refusal>
    ensures { kind_numbers result ≡ kind_from (told read) }
{
    match read {
        Ok(Token::Plain(kind) | Token::Chars(kind, _)) => Ok(kind),
        Ok(Token::Boolean(_)) => Ok(TokenType::Boolean),
        Ok(Token::Numeric(..)) => Ok(TokenType::Numeric),
        Err(refused) => Err(refused.refusal),
    }
}

// The numbers of a value: how many cells it has, a number's three lengths, and a Boolean, a sign or a carry.
#[derive(Clone, Copy, Default)]
pub struct Value {
    pub length: usize,
    pub before: usize,
    pub after: usize,
    pub exponent: usize,
    pub extra: u32,
}

impl Value {
    // Ruled out, among others: a number counted without its exponent; a carry left out.
    pub fn of(read: Read) -> Value
        requires { cell_count (told read) ≤ max_chars }
        ensures { result ≡ value_from (told read) }
    {
        match read {
            Ok(Token::Plain(_)) => Value::default(),
            Ok(Token::Boolean(b)) => Value {
                extra: u32::from(b),
                ..Value::default()
            },
            Ok(Token::Numeric(before, after, minus, exponent)) => Value {
                length: before + after + exponent,
                before,
                after,
                exponent,
                extra: u32::from(minus),
            },
            Ok(Token::Chars(_, length)) => Value {
                length,
                ..Value::default()
            },
            Err(refused) => Value {
                extra: refused.carry,
                ..Value::default()
            },
        }
    }
}

// Whether a run ends with the item of this row.
pub fn ends_run(row: &Row) -> bool
    ensures { result ≡ is_last (eqb (get_or row.now refused_at 0) 1) (get_or row.now number_at 0) }
{
    let number = row[Item::NUMBER];
    row[Item::REFUSED] == 1
        || number == TokenType::YyEof as u32
        || number == TokenType::YyUndef as u32
        || number == TokenType::YyError as u32
}
