// The scope calls: contexts pushed, popped and named, and the set of parsed names.

#![tactic(auto)]

pub mod write; // write.rt: rows that are lent to be written
pub mod stack; // stack.rt: contexts pushed and popped
pub mod parsed; // parsed.rt: the set of parsed names
pub mod push; // push.rt: an entry list pushed
pub mod naming; // naming.rt: an entry named in the last context
