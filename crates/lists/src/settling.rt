// What is left of entries after replacing: a later one goes in place of an earlier one of its name and level, with all below it.
ghost use Rattle.std.specs.Prelude.{◌≡◌, cond, [], suc, ◌+◌, ◌≤◌, ◌<◌, min, length, drop, get_or};
ghost use Rattle.scope.specs.Limits.{max_entries};
ghost use Rattle.scope.specs.Settled.{is_repeated, settled};
ghost use Rattle.scope.specs.Rows.{earlier};
ghost use Rattle.scope.specs.Listing as listing;
ghost use Rattle.scope.specs.Viewed.{viewed, no_entry};
ghost use Rattle.lists.specs.Firsts as firsts;
ghost use Rattle.lists.specs.List.{entries_of};

use crate::list::List;
use scope::entries;
use scope::entries::{Entries, Entry};
use scope::scope::Scope;

// A cut below every depth: nothing goes. It lies past the last depth, as a length past the last index.
pub const NO_CUT: u32 = Scope::MAX_DEPTH + 1;

// Whether the entry at i stays, where all of depth cut or deeper goes.
// Ruled out, among others: a name that stands again kept beside its later one.
#[tactic(auto, unfolding(scope::specs::Listing::stays))]
pub fn stays<E: Entries>(all: &E, i: usize, cut: u32) -> bool
    requires { i < length (E.entries all.now) }
    ensures { result ≡ listing.stays cut (get_or (E.entries all.now) i no_entry) (drop (i + 1) (E.entries all.now)) }
{
    let e = all.at(i);
    e.depth < cut && !entries::is_repeated(e, all, i)
}

// The cut behind an entry of depth d: below one that stays nothing goes, below a replaced one all that is deeper.
// Ruled out, among others: what stands below a replaced entry kept.
#[tactic(auto, unfolding(scope::specs::Listing::cut_after))]
pub fn cut_after(cut: u32, d: u32, kept: bool) -> u32
    ensures { result ≡ listing.cut_after cut d kept }
{
    if kept {
        NO_CUT
    } else if cut <= d {
        cut
    } else {
        d + 1
    }
}

// Whether the name of e, whose place is i, stood before at its level. The walk of `is_repeated` goes the other way, over another definition.
fn is_seen<E: Entries>(e: Entry, all: &E, i: usize) -> bool
    requires { i ≤ length (E.entries all.now) }
    ensures { result ≡ is_repeated (viewed e.entry) (earlier i (E.entries all.now) []) }
{
    for j in (0..i).rev() {
        let before = all.at(j);
        if e.ends_level(before) {
            return false;
        }
        if e.is_same(before) {
            return true;
        }
    }
    false
}

// Whether the entry at i is not cut off and its name did not stand before.
#[tactic(auto, unfolding(crate::specs::Firsts::fresh))]
fn is_first<E: Entries>(all: &E, i: usize, cut: u32) -> bool
    requires { i < length (E.entries all.now) }
    ensures { cond result 1 0 ≡ firsts.fresh cut (get_or (E.entries all.now) i no_entry) (earlier i (E.entries all.now) []) }
{
    let e = all.at(i);
    e.depth < cut && !is_seen(e, all, i)
}

// The cut behind the entry at i; whether it is replaced is asked only if something stands below it.
#[tactic(auto, unfolding(crate::specs::Firsts::cut_behind, crate::specs::Firsts::is_above))]
fn cut_behind<E: Entries>(all: &E, i: usize, cut: u32) -> u32
    requires { i < length (E.entries all.now) }
    ensures { result ≡ firsts.cut_behind cut (get_or (E.entries all.now) i no_entry) (drop (i + 1) (E.entries all.now)) }
{
    let e = all.at(i);
    if cut <= e.depth {
        return cut;
    }
    let count = all.count();
    let next = i + 1;
    if next < count && e.depth < all.at(next).depth && entries::is_repeated(e, all, i) {
        e.depth + 1
    } else {
        NO_CUT
    }
}

// How many entries are left after replacing, counted up to the first number that no scope has room for: every larger one is refused alike.
// Names are counted where they are first seen, so that no more than that many are ever searched for.
// Ruled out, among others: the limit counted before replacing; 513 different names taken for 512.
pub fn remaining(list: List) -> usize
    ensures { result ≡ min (suc max_entries) (length (settled (entries_of list.entry))) }
{
    let mut n: usize = 0;
    let mut cut = NO_CUT;
    for i in 0..list.rows.len() {
        if Scope::MAX_ENTRIES < n {
            return n;
        }
        n += usize::from(is_first(&list, i, cut));
        cut = cut_behind(&list, i, cut);
    }
    n
}
