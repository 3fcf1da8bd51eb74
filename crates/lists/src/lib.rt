// A lent entry list: its check, and what is left of it after replacing.

#![tactic(auto)]

pub mod list; // list.rt: the rows of a list
pub mod settling; // settling.rt: what is left of them after replacing
