// An entry named in the last context: one of its name there goes with all below it.
ghost use Rattle.std.specs.Prelude.{◌≡◌, false, [], ◌∷◌, ◌++◌, suc, ◌+◌, ◌-◌, ◌≤◌, ◌<◌, length, drop};
ghost use Rattle.scope.specs.Limits.{max_name, max_entries, max_depth};
ghost use Rattle.scope.specs.Calls as spec;
ghost use Rattle.scope.specs.Broken.{is_broken_list};
ghost use Rattle.scope.specs.Kinds.{kind_number};
ghost use Rattle.scope.specs.Lent.{held, any_too_long, scope_of, is_broken, on_scope, set_context_list};
ghost use Rattle.scope.specs.Listing.{any_broken_to};
ghost use Rattle.lists.specs.List.{entries_of};
ghost use Rattle.scope.specs.Sound.{rows_entries};
ghost use Rattle.scope.specs.Viewed.{viewed};
ghost use Rattle.scope_calls.specs.Naming.{stays_beside, without, headed, Moved};
ghost use Rattle.scope_calls.specs.Lending.{SameRows};
ghost use Rattle.scope.specs.Answers.{lent, answer_of, Kept, Whole};

use crate::write::RowsMut;
use crate::{push, stack};
use lists::list::List;
use lists::settling;
use scope::entries::{Entries, Entry};
use scope::lent::{Lent, Sound};
use scope::rows::Rows;
use scope::scope::{Kind, Listed, Scope, Slot};
use scope::{broken, entries};
use text::refusal::Refusal;

// Whether the entry stays beside a new one of this name at depth 0, where all of depth cut or deeper goes.
fn stays_beside(e: Entry, cut: u32, name: &[u32]) -> bool
    ensures { result ≡ stays_beside cut (viewed e.entry) name.now }
{
    e.depth < cut && !(e.depth == 0 && names::same::same(e.name, name))
}

// How many entries from `from` on stay. Counted before anything moves, since a call that is refused changes nothing.
fn left_beside(entries: Rows, from: usize, name: &[u32]) -> usize
    requires { from ≤ length (rows_entries entries) }
    ensures { (from + result ≤ length (rows_entries entries.entry)) × (result ≡ length (without (suc max_depth) name.now (drop from (rows_entries entries.entry)))) }
{
    let mut n: usize = 0;
    let mut cut = settling::NO_CUT;
    for i in from..entries.count() {
        let e = entries.at(i);
        let kept = stays_beside(e, cut, name);
        n += usize::from(kept);
        cut = settling::cut_after(cut, e.depth, kept);
    }
    n
}

// Moves the entries from `from` on that stay together; answers the next free place. In place, so it reads at one place and writes at another.
fn take_out(rows: &mut RowsMut, from: usize, count: usize, name: &[u32]) -> usize
    requires { (from ≤ count) × (count ≤ length rows.old.slots.now) × (count ≤ length rows.old.names.now) × (any_too_long count rows.old.slots.now ≡ false) }
    ensures moved { Moved rows.old.slots.now rows.old.names.now rows.new.slots.now rows.new.names.now from result count
        (without (suc max_depth) name.now (drop from (held count rows.old.slots.now rows.old.names.now))) }
    ensures same { SameRows rows.old rows.new }
{
    let slots = &mut *rows.slots;
    let names = &mut *rows.names;
    let mut to = from;
    let mut cut = settling::NO_CUT;
    for i in from..count {
        let e = Entry::of(&slots[i], &names[i]);
        let depth = e.depth;
        let kept = stays_beside(e, cut, name);
        if kept {
            slots[to] = slots[i];
            names[to] = names[i];
            to += 1;
        }
        cut = settling::cut_after(cut, depth, kept);
    }
    to
}

// Takes the entry of e's name out of those from `from` on, and puts e behind the rest; answers the next free place.
fn replace(rows: &mut RowsMut, from: usize, count: usize, e: Entry) -> usize
    requires { (from ≤ count) × (count ≤ max_entries) × (max_entries < length rows.old.slots.now) × (max_entries < length rows.old.names.now) × (any_too_long count rows.old.slots.now ≡ false)
        × (length e.name.now ≤ max_name) × (from + length (without (suc max_depth) e.name.now (drop from (held count rows.old.slots.now rows.old.names.now))) < max_entries) }
    ensures moved { Moved rows.old.slots.now rows.old.names.now rows.new.slots.now rows.new.names.now from result max_entries
        (without (suc max_depth) e.entry.name.now (drop from (held count rows.old.slots.now rows.old.names.now)) ++ (viewed e.entry ∷ [])) }
    ensures same { SameRows rows.old rows.new }
{
    let to = take_out(rows, from, count, e.name);
    rows.put(to, e);
    to + 1
}

// Puts an entry of this name and kind behind those of the last context in place of one of its name there, and the list one level deeper below it.
// Ruled out, among others: the limit counted before replacing; the list written before the limit is known to hold.
fn add(
    s: Scope,
    slots: &mut [[u32; Slot::NUMBERS]],
    names: &mut [[u32; Scope::MAX_NAME]],
    kind: Kind,
    name: &[u32],
    list: List,
) -> Result<Scope, Refusal>
    requires { (is_broken (lent s slots.old names.old) ≡ false) × (list.context ≡ s.contexts) × (any_broken_to (max_depth - 1) [] (entries_of list) ≡ false)
        × (is_broken_list (headed s.contexts (kind_number kind) name.now (entries_of list)) ≡ false) }
    ensures { (answer_of result slots.new names.new ≡ spec.added (headed s.contexts (kind_number kind) name.now (entries_of list.entry)) (scope_of (lent s slots.old names.old)))
        × Kept result slots.old slots.new × Kept result names.old names.new × Whole result slots.new names.new }
{
    if s.contexts == 0 {
        return Ok(s);
    }
    let held = Sound {
        counts: s,
        slots,
        names,
    }
    .entries();
    let from = stack::before_context(held, s.contexts);
    let kept = from + left_beside(held, from, name);
    if Scope::MAX_ENTRIES <= kept || Scope::MAX_ENTRIES - kept <= settling::remaining(list) {
        return Err(Refusal::OverLimit);
    }
    let e = Entry {
        context: list.context,
        depth: 0,
        kind: u32::from(kind),
        name,
    };
    let mut lent = RowsMut { slots, names };
    let at = replace(&mut lent, from, s.entries, e);
    let entries = push::append(&mut lent, at, 1, list);
    Ok(Scope { entries, ..s })
}

// Names a variable in the last context.
// Ruled out, among others: a context's entries left without it.
pub fn set_entry_name(
    s: Scope,
    slots: &mut [[u32; Slot::NUMBERS]],
    names: &mut [[u32; Scope::MAX_NAME]],
    name: &[u32],
) -> Result<Scope, Refusal>
    ensures { (answer_of result slots.new names.new ≡ on_scope (lent s slots.old names.old) (spec.set_entry_name name.now))
        × Kept result slots.old slots.new × Kept result names.old names.new × Whole result slots.new names.new }
{
    Lent {
        counts: s,
        slots,
        names,
    }
    .checked()?;
    if broken::is_broken_name(name) {
        return Err(Refusal::BrokenScope);
    }
    // Nothing stands below a variable.
    let list = List {
        context: s.contexts as u32,
        rows: &[],
        cells: &[],
    };
    add(s, slots, names, Kind::Variable, name, list)
}

// Names a context with an entry list in the last context; the list stands one level deeper.
// Ruled out, among others: the list's depth 7 let pass.
pub fn set_context(
    s: Scope,
    slots: &mut [[u32; Slot::NUMBERS]],
    names: &mut [[u32; Scope::MAX_NAME]],
    name: &[u32],
    rows: &[[u32; Listed::NUMBERS]],
    cells: &[u32],
) -> Result<Scope, Refusal>
    ensures { (answer_of result slots.new names.new ≡ on_scope (lent s slots.old names.old) (set_context_list name.now cells.now rows.now))
        × Kept result slots.old slots.new × Kept result names.old names.new × Whole result slots.new names.new }
{
    Lent {
        counts: s,
        slots,
        names,
    }
    .checked()?;
    let list = List::checked(s.contexts as u32, rows, cells)?;
    if broken::is_broken_name(name) || entries::any_broken(&list, Scope::MAX_DEPTH - 1) {
        return Err(Refusal::BrokenScope);
    }
    add(s, slots, names, Kind::Context, name, list)
}
