// The lexer: from the cells of a text to tokens.
// The definitions read with fuel for a text of the limit's length, so that a text is no longer is asked of the text itself, in each contract that needs it.

#![tactic(auto)]

pub mod look; // look.rt: one cell and a class
pub mod skip; // skip.rt: whitespace and comments
pub mod number; // number.rt: numbers
pub mod string; // string.rt: string literals
pub mod parts; // parts.rt: the parts of a name
pub mod bound; // bound.rt: how many parts are worth a search
pub mod token_type; // token_type.rt: the token types
pub mod flags; // flags.rt: the state's five flags
pub mod token; // token.rt: what a token call reads
pub mod window; // window.rt: twelve characters ahead
