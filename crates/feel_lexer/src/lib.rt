// What C and Rust link: thin functions of numbers and slices over opening, the scope calls, the token call, run and repair.

#![tactic(auto)]

pub mod version; // version.rt: the version that a program is linked by
pub mod answer; // answer.rt: the numbers that a call answers with
pub mod state; // state.rt: scope and lexer as lent numbers
pub mod open; // open.rt: bytes opened
pub mod scopes; // scopes.rt: the scope calls
pub mod token; // token.rt: the token call
pub mod record; // record.rt: run and repair
pub mod function_names; // function_names.rt: the names of the built-in functions
