// The text form of cases: the fields of a line, and a scope from its calls (oracle/README.md).

#![tactic(auto)]

pub mod fields; // fields.rt: numbers and texts from their fields
pub mod numbered; // numbered.rt: the calls by their numbers
pub mod calls; // calls.rt: a scope from its calls
