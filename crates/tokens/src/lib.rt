// The token reader and the token call.

#![tactic(auto)]

pub mod token; // token.rt: the token reader
pub mod call; // call.rt: the state and the token call
pub mod lent; // lent.rt: the same on a lexer lent to be changed
