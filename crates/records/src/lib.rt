// Records as lent slices of structs, over the number form.

#![tactic(auto)]

pub mod stored; // stored.rt: an item as it is stored, and its row
pub mod items; // items.rt: a lent slice of items, read from rows and written to rows
pub mod page; // page.rt: a short record, its items by value
