// Repair of a record after one edit.

#![tactic(auto)]

pub mod kept; // kept.rt: the items that an edit leaves as they were
pub mod request; // request.rt: whether a repair request is broken
pub mod copy; // copy.rt: old items written again, moved
pub mod repair; // repair.rt: repair of a record after one edit
