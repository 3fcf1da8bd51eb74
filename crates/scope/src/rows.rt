// Rows of slots, and beside each the row of its name's cells.
ghost use Rattle.std.specs.Prelude.{◌≡◌, true, false, MatchResult, ◌<◌, ◌≤◌, length, map, drop, get_or};
ghost use Rattle.names.specs.Same.{member};
ghost use Rattle.scope.specs.Lent.{any_too_long};
ghost use Rattle.scope.specs.Rows.{all_held};

use crate::entries::{Entries, Entry};
use crate::scope::{Scope, Slot};
use text::refusal::Refusal;

// The rows in use of a lent scope: those of its entries, or those of its parsed names. No name is longer than its row.
#[derive(Clone, Copy)]
pub struct Rows<'a> {
    pub slots: &'a [[u32; Slot::NUMBERS]],
    pub names: &'a [[u32; Scope::MAX_NAME]],
    pub ghost paired: { length slots.now ≡ length names.now },
    pub ghost short: { any_too_long (length slots.now) slots.now ≡ false },
}

impl<'a> Rows<'a> {
    // Refused where a slot has a name length that its row of cells does not have.
    // Ruled out, among others: a name of 129 characters let pass.
    pub fn checked(
        slots: &'a [[u32; Slot::NUMBERS]],
        names: &'a [[u32; Scope::MAX_NAME]],
    ) -> Result<Rows<'a>, Refusal>
        requires { length slots.now ≡ length names.now }
        ensures { MatchResult result (λ r. (r.slots.now ≡ slots.now) × (r.names.now ≡ names.now)) (λ e. (e ≡ Refusal.BrokenScope) × (any_too_long (length slots.now) slots.now ≡ true)) }
    {
        for slot in slots {
            if Scope::MAX_NAME < slot[Slot::LENGTH] as usize {
                return Err(Refusal::BrokenScope);
            }
        }
        Ok(Rows { slots, names })
    }

    // Whether the name is one of those from `from` on.
    // Ruled out, among others: a name that goes on behind the one looked for.
    pub fn has_name(self, name: &[u32], from: usize) -> bool
        ensures { result ≡ member name.now (drop from (map (λ e. e.name) (all_held self.entry.slots.now self.entry.names.now))) }
    {
        for i in from..self.count() {
            if names::same::same(self.at(i).name, name) {
                return true;
            }
        }
        false
    }
}

#[tactic(auto, using(crate::proofs::HeldLaws::all_length, crate::proofs::HeldLaws::all_at, crate::proofs::HeldLaws::short_at))]
impl Entries for Rows<'_> {
    ghost entries = { λ r. all_held r.slots.now r.names.now };

    fn count(&self) -> usize {
        self.slots.len()
    }

    fn at(&self, i: usize) -> Entry<'_> {
        Entry::of(&self.slots[i], &self.names[i])
    }
}
