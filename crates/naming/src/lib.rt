// Cutting a name: which of the parts at a place are its own.

#![tactic(auto)]

pub mod prefix; // prefix.rt: the longest prefix of a name that is found
pub mod name; // name.rt: the decisions, in their order
