// The slices that a call writes.
use crate::item::Row;

// Room for a record's rows and for its value cells, and scratch.
#[derive(Drop)]
pub struct Room<'a> {
    pub rows: &'a mut [Row],
    pub store: &'a mut [u32],
    pub scratch: &'a mut [u32],
}
