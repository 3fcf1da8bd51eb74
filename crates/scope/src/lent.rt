// A scope as it is lent: the counts, and beside them the rows of its entries and parsed names.
ghost use Rattle.std.specs.Prelude.{◌≡◌, true, false, map, MatchResult};
ghost use Rattle.scope.specs.Lent.{is_broken};
ghost use Rattle.scope.specs.Answers.{lent};

use crate::broken;
use crate::rows::Rows;
use crate::scope::{Scope, Slot};
use text::refusal::Refusal;

// A lent scope of which nothing is known.
#[derive(Clone, Copy)]
pub struct Lent<'a> {
    pub counts: Scope,
    pub slots: &'a [[u32; Slot::NUMBERS]],
    pub names: &'a [[u32; Scope::MAX_NAME]],
}

// A lent scope that is not broken. It has its fields again, since the ghost field speaks of them.
#[derive(Clone, Copy)]
pub struct Sound<'a> {
    pub counts: Scope,
    pub slots: &'a [[u32; Slot::NUMBERS]],
    pub names: &'a [[u32; Scope::MAX_NAME]],
    pub ghost sound: { is_broken (lent counts slots.now names.now) ≡ false },
}

impl<'a> Lent<'a> {
    // The check that every call lent a scope makes. A row is read only if it is in use.
    // Ruled out, among others: a broken scope let pass; a sound one refused.
    pub fn checked(self) -> Result<Sound<'a>, Refusal>
        ensures { MatchResult result
            (λ s. (s.counts ≡ self.entry.counts) × (s.slots.now ≡ self.entry.slots.now) × (s.names.now ≡ self.entry.names.now)
            × (is_broken (lent self.entry.counts self.entry.slots.now self.entry.names.now) ≡ false))
            (λ e. (e ≡ Refusal.BrokenScope) × (is_broken (lent self.entry.counts self.entry.slots.now self.entry.names.now) ≡ true)) }
    {
        let Lent {
            counts,
            slots,
            names,
        } = self;
        if broken::is_over_limit(counts, slots.len(), names.len()) {
            return Err(Refusal::BrokenScope);
        }
        let held = Rows::checked(&slots[..counts.entries], &names[..counts.entries])?;
        let end = Scope::MAX_ENTRIES + counts.parsed;
        let parsed = Rows::checked(
            &slots[Scope::MAX_ENTRIES..end],
            &names[Scope::MAX_ENTRIES..end],
        )?;
        if broken::is_broken_scope(counts.contexts, held, parsed) {
            return Err(Refusal::BrokenScope);
        }
        Ok(Sound {
            counts,
            slots,
            names,
        })
    }

    // Ruled out, among others: a scope that is told broken where the check lets it pass.
    pub fn is_broken(self) -> bool
        ensures { result ≡ is_broken (lent self.entry.counts self.entry.slots.now self.entry.names.now) }
    {
        self.checked().is_err()
    }
}

impl<'a> Sound<'a> {
    ghost use Rattle.scope.specs.Rows.{all_held};
    ghost use Rattle.scope.specs.Sound.{sound_scope};

    // Ruled out, among others: a row that is not in use among them.
    pub fn entries(self) -> Rows<'a>
        ensures { all_held result.slots.now result.names.now ≡ (sound_scope self.entry).entries }
    {
        let count = self.counts.entries;
        Rows {
            slots: &self.slots[..count],
            names: &self.names[..count],
        }
    }

    // Ruled out, among others: the rows of entries taken for those of parsed names.
    pub fn parsed(self) -> Rows<'a>
        ensures { map (λ e. e.name) (all_held result.slots.now result.names.now) ≡ (sound_scope self.entry).parsed }
    {
        let end = Scope::MAX_ENTRIES + self.counts.parsed;
        Rows {
            slots: &self.slots[Scope::MAX_ENTRIES..end],
            names: &self.names[Scope::MAX_ENTRIES..end],
        }
    }
}
