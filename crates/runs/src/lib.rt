// Runs of items; the definitions of runs and of their repair, with the theorem that a repair gives what a run gives, are in specs/ and proofs/.

#![tactic(auto)]

pub mod item; // item.rt: an item, and its row of eleven numbers
pub mod room; // room.rt: the slices that a call writes
pub mod call; // call.rt: what a call answers, and what it checks first
pub mod run; // run.rt: a run over a text
pub mod record; // record.rt: a record that is read
pub mod edit; // edit.rt: an edit and the places behind it
