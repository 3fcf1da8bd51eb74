// An entry list pushed as one context.
ghost use Rattle.std.specs.Prelude.{◌≡◌, false, [], map, ◌+◌, ◌≤◌, length};
ghost use Rattle.scope.specs.Limits.{max_depth};
ghost use Rattle.scope.specs.Settled.{settled};
ghost use Rattle.scope.specs.Lent.{on_scope, push_list};
ghost use Rattle.scope.specs.Listing.{any_broken_to, raised};
ghost use Rattle.lists.specs.List.{entries_of};
ghost use Rattle.scope_calls.specs.Written.{Appended};
ghost use Rattle.scope_calls.specs.Lending.{SameRows};
ghost use Rattle.scope.specs.Answers.{lent, answer_of, Kept, Whole};

use crate::write::RowsMut;
use lists::list::List;
use lists::settling;
use scope::entries;
use scope::entries::{Entries, Entry};
use scope::lent::Lent;
use scope::scope::{Listed, Scope, Slot};
use text::refusal::Refusal;

// Writes the entries that are left after replacing, from the place `from` on, with `up` added to their depths; answers the next free place.
// Ruled out, among others: a replaced entry written; an entry written over the one before it.
pub fn append(rows: &mut RowsMut, from: usize, up: u32, list: List) -> usize
    requires { (any_broken_to max_depth [] (entries_of list) ≡ false) × (up ≤ 1)
        × (from + length (settled (entries_of list)) ≤ length rows.old.slots.now) × (from + length (settled (entries_of list)) ≤ length rows.old.names.now) }
    ensures written { Appended rows.old.slots.now rows.old.names.now rows.new.slots.now rows.new.names.now from result (map (raised up) (settled (entries_of list.entry))) }
    ensures same { SameRows rows.old rows.new }
{
    let mut at = from;
    let mut cut = settling::NO_CUT;
    for i in 0..list.count() {
        let e = list.at(i);
        let kept = settling::stays(&list, i, cut);
        if kept {
            let raised = Entry {
                depth: e.depth + up,
                ..e
            };
            rows.put(at, raised);
            at += 1;
        }
        cut = settling::cut_after(cut, e.depth, kept);
    }
    at
}

// Pushes the entry list as one context. A name repeated at one level replaces the earlier entry with all below it; the limits hold for what is left then.
// Ruled out, among others: a repeat that keeps what was below it; the limit counted before replacing.
pub fn push(
    s: Scope,
    slots: &mut [[u32; Slot::NUMBERS]],
    names: &mut [[u32; Scope::MAX_NAME]],
    rows: &[[u32; Listed::NUMBERS]],
    cells: &[u32],
) -> Result<Scope, Refusal>
    ensures { (answer_of result slots.new names.new ≡ on_scope (lent s slots.old names.old) (push_list cells.now rows.now))
        × Kept result slots.old slots.new × Kept result names.old names.new × Whole result slots.new names.new }
{
    Lent {
        counts: s,
        slots,
        names,
    }
    .checked()?;
    let contexts = s.contexts + 1;
    let list = List::checked(contexts as u32, rows, cells)?;
    if entries::any_broken(&list, Scope::MAX_DEPTH) {
        return Err(Refusal::BrokenScope);
    }
    if Scope::MAX_CONTEXTS < contexts
        || Scope::MAX_ENTRIES - s.entries < settling::remaining(list)
    {
        return Err(Refusal::OverLimit);
    }
    let entries = append(&mut RowsMut { slots, names }, s.entries, 0, list);
    Ok(Scope {
        contexts,
        entries,
        ..s
    })
}
