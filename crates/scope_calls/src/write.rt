// Rows that are lent to be written.
ghost use Rattle.std.specs.Prelude.{◌≡◌, [], ◌∷◌, ◌+◌, ◌≤◌, ◌<◌, length};
ghost use Rattle.reading.specs.Slices.{front};
ghost use Rattle.scope.specs.Limits.{max_name};
ghost use Rattle.scope.specs.Viewed.{viewed};
ghost use Rattle.scope_calls.specs.Written.{Appended};
ghost use Rattle.scope_calls.specs.Lending.{SameRows};

use scope::entries::Entry;
use scope::scope::{Scope, Slot};

// The slots, and beside each the row of its name's cells.
#[derive(Drop)]
pub struct RowsMut<'a> {
    pub slots: &'a mut [[u32; Slot::NUMBERS]],
    pub names: &'a mut [[u32; Scope::MAX_NAME]],
}

// The name fills the front of the row. What lies behind a loan of a part of a row among rows is known by a call's contract alone.
fn fill(row: &mut [u32], name: &[u32])
    requires { length name.now ≤ length row.old }
    ensures { row.new ≡ front name.now row.old }
{
    row[..name.len()].copy_from_slice(name);
}

impl RowsMut<'_> {
    // Writes an entry to a slot and its name to the front of the row beside it.
    // Ruled out, among others: a name behind the cells that were there.
    pub fn put(&mut self, at: usize, e: Entry)
        requires { (at < length self.old.slots.now) × (at < length self.old.names.now) × (length e.name.now ≤ max_name) }
        ensures written { Appended self.old.slots.now self.old.names.now self.new.slots.now self.new.names.now at (at + 1) (viewed e.entry ∷ []) }
        ensures same { SameRows self.old self.new }
    {
        self.slots[at] = [e.context, e.depth, e.kind, e.name.len() as u32];
        fill(&mut self.names[at], e.name);
    }
}
