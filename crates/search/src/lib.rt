// The search for a name in a lent scope.

#![tactic(auto)]

pub mod keys; // keys.rt: whether a text is a name of the scope
pub mod longest; // longest.rt: a length that no name of the scope exceeds
pub mod known; // known.rt: a scope with such a length
