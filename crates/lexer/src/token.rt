// What a token call reads.
use crate::flags::Flags;
use crate::token_type::TokenType;
use text::refusal::Refusal;

// A token without a value, by its type; a Boolean; a number's digits before, after, whether its exponent's sign is a minus, and the exponent's digits;
// a string's or name's type and characters. The cells of a value stand at the front of the output.
#[derive(Clone, Copy)]
pub enum Token {
    Plain(TokenType),
    Boolean(bool),
    Numeric(usize, usize, bool, usize),
    Chars(TokenType, usize),
}

// Why no token was read, and what the refusal carries.
#[derive(Clone, Copy)]
pub struct Refused {
    pub refusal: Refusal,
    pub carry: u32,
}

pub type Read = Result<Token, Refused>;

// What was read, how many cells were used up, the flags after, and the reach.
#[derive(Clone, Copy)]
pub struct Outcome {
    pub read: Read,
    pub used: usize,
    pub flags: Flags,
    pub reach: usize,
}
