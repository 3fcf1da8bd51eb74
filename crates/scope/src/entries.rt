// Entries by their index, wherever they stand: which are broken, and whose name stands again.
ghost use Rattle.std.specs.Prelude.{◌≡◌, ◌||◌, ◌&&◌, not, List, [], ◌+◌, ◌<◌, ◌≤◌, ltb, eqb, length, drop, get_or};
ghost use Rattle.names.specs.Same.{same};
ghost use Rattle.scope.specs.Entries.{Entry as Model};
ghost use Rattle.scope.specs.Settled.{is_repeated};
ghost use Rattle.scope.specs.Broken.{has_parent, any_misplaced, any_repeated};
ghost use Rattle.scope.specs.Limits.{max_name};
ghost use Rattle.scope.specs.Lent.{entry_of};
ghost use Rattle.scope.specs.Rows.{earlier};
ghost use Rattle.scope.specs.Listing.{is_broken_to, any_broken_to};
ghost use Rattle.scope.specs.Parented.{Parented};
ghost use Rattle.scope.specs.Viewed.{viewed, no_entry};

use crate::scope::{Kind, Scope, Slot};
use crate::{broken, marks};

// The number of its context, its depth, the number of its kind, and its name. A lent row may hold any number for a kind, and the check refuses those that are none.
#[derive(Clone, Copy)]
pub struct Entry<'a> {
    pub context: u32,
    pub depth: u32,
    pub kind: u32,
    pub name: &'a [u32],
}

// Entries in the order that they stand in.
pub trait Entries {
    ghost entries: { Self → List Model };

    fn count(&self) -> usize
        ensures { result ≡ length (entries self.now) };

    fn at(&self, i: usize) -> Entry<'_>
        requires { i < length (entries self.now) }
        ensures { viewed result ≡ get_or (entries self.now) i no_entry };
}

impl<'a> Entry<'a> {
    // The entry in a slot, with the row of cells beside it.
    // Ruled out, among others: the cells behind a name's length taken for a part of it.
    pub fn of(slot: &[u32; Slot::NUMBERS], cells: &'a [u32; Scope::MAX_NAME]) -> Entry<'a>
        requires { get_or slot.now 3 0 ≤ max_name }
        ensures { viewed result ≡ entry_of slot.now cells.now }
    {
        Entry {
            context: slot[Slot::CONTEXT],
            depth: slot[Slot::DEPTH],
            kind: slot[Slot::KIND],
            name: &cells[..slot[Slot::LENGTH] as usize],
        }
    }

    // Whether the other, looked at on the way from this one, ends its level: another context begins, or a lower depth.
    // Ruled out, among others: a level that goes on in another context.
    pub fn ends_level(self, other: Entry) -> bool
        ensures { result ≡ (not (eqb other.entry.context self.entry.context) || ltb other.entry.depth self.entry.depth) }
    {
        other.context != self.context || other.depth < self.depth
    }

    // Whether the other has this one's depth and its name.
    // Ruled out, among others: a name at another depth taken for the same.
    pub fn is_same(self, other: Entry) -> bool
        ensures { result ≡ (eqb other.entry.depth self.entry.depth && same other.entry.name.now self.entry.name.now) }
    {
        other.depth == self.depth && names::same::same(other.name, self.name)
    }
}

// Whether the contexts of the entries fall somewhere, or one is none of 1 to `contexts`.
pub fn any_misplaced<E: Entries>(all: &E, contexts: usize) -> bool
    ensures { result ≡ any_misplaced contexts 1 (E.entries all.now) }
{
    let mut low: usize = 1;
    for i in 0..all.count() {
        let context = all.at(i).context as usize;
        if context < low || contexts < context {
            return true;
        }
        low = context;
    }
    false
}

// Whether the name of e, whose place is i, stands again at its level.
pub fn is_repeated<E: Entries>(e: Entry, all: &E, i: usize) -> bool
    requires { i < length (E.entries all.now) }
    ensures { result ≡ is_repeated (viewed e.entry) (drop (i + 1) (E.entries all.now)) }
{
    let count = all.count();
    for j in i + 1..count {
        let behind = all.at(j);
        if e.ends_level(behind) {
            return false;
        }
        if e.is_same(behind) {
            return true;
        }
    }
    false
}

// Whether e, whose place is i, stands below another entry's depth without having a parent. Since all before it have theirs, the entry before decides.
fn is_orphan<E: Entries>(e: Entry, all: &E, i: usize) -> bool
    requires { (i ≤ length (E.entries all.now)) × Parented (earlier i (E.entries all.now) []) }
    ensures { result ≡ (ltb 0 e.entry.depth && not (has_parent (viewed e.entry) (earlier i (E.entries all.now) []))) }
{
    if e.depth == 0 {
        return false;
    }
    if i == 0 {
        return true;
    }
    let before = all.at(i - 1);
    if before.context != e.context {
        return true;
    }
    if e.depth <= before.depth {
        return false;
    }
    before.depth < e.depth - 1 || before.kind != u32::from(Kind::Context)
}

// Whether the entry at i is broken, where depths up to `most` are in range.
#[tactic(auto, unfolding(crate::specs::Listing::is_broken_to))]
fn is_broken_at<E: Entries>(all: &E, i: usize, most: u32) -> bool
    requires place { i < length (E.entries all.now) }
    requires parents { Parented (earlier i (E.entries all.now) []) }
    ensures { result ≡ is_broken_to most (get_or (E.entries all.now) i no_entry) (earlier i (E.entries all.now) []) }
{
    let e = all.at(i);
    if most < e.depth || u32::from(Kind::Context) < e.kind {
        return true;
    }
    is_orphan(e, all, i) || broken::is_broken_name(e.name)
}

// Whether an entry is broken, where depths up to `most` are in range.
pub fn any_broken<E: Entries>(all: &E, most: u32) -> bool
    ensures { result ≡ any_broken_to most [] (E.entries all.now) }
{
    for i in 0..all.count() {
        if is_broken_at(all, i, most) {
            return true;
        }
    }
    false
}

// Whether a name stands twice at one level: each is compared with those behind it.
fn any_of_few<E: Entries>(all: &E) -> bool
    ensures { result ≡ any_repeated (E.entries all.now) }
{
    for i in 0..all.count() {
        if is_repeated(all.at(i), all, i) {
            return true;
        }
    }
    false
}

// The same. From the last entry to the first, each leaves the mark of its name; only where the mark is taken are names compared.
fn any_of_many<E: Entries>(all: &E) -> bool
    ensures { result ≡ any_repeated (E.entries all.now) }
{
    let mut taken = [false; marks::MARKS];
    for i in (0..all.count()).rev() {
        let e = all.at(i);
        let mark = marks::mark(e.name);
        if taken[mark] && is_repeated(e, all, i) {
            return true;
        }
        taken[mark] = true;
    }
    false
}

// The same. Clearing the marks costs as much as comparing some 16 names.
pub fn any_repeated<E: Entries>(all: &E) -> bool
    ensures { result ≡ any_repeated (E.entries all.now) }
{
    if all.count() <= 16 {
        any_of_few(all)
    } else {
        any_of_many(all)
    }
}
