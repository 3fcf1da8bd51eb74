// A record that is read.
use crate::item::Row;

// The rows of its items, and the store that holds their values.
#[derive(Clone, Copy)]
pub struct Record<'a> {
    pub rows: &'a [Row],
    pub store: &'a [u32],
}
