// The names of the built-in functions, by which an editor tells a call.

#![tactic(auto)]

pub mod functions; // functions.rt: whether a text is one of them
