// Parsing contexts and the names that they hold, in lent rows.

#![tactic(auto)]

pub mod marks; // marks.rt: marks of names
pub mod scope; // scope.rt: the counts of a scope, its limits, the places in its rows
pub mod entries; // entries.rt: entries by their index, wherever they stand
pub mod rows; // rows.rt: lent rows that are in use
pub mod broken; // broken.rt: what makes a scope broken
pub mod lent; // lent.rt: a scope with its rows, before and after the check that every call makes
