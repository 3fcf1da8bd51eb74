// Contexts pushed and popped.
ghost use Rattle.std.specs.Prelude.{◌≡◌, ◌≤◌, ltb, length, slice_index, take, drop};
ghost use Rattle.std.specs.List.{take_while};
ghost use Rattle.scope.specs.Calls as spec;
ghost use Rattle.scope.specs.Lent.{on_scope};
ghost use Rattle.scope.specs.Sound.{rows_entries};
ghost use Rattle.scope.specs.Answers.{lent, answer_of, Whole};

use scope::lent::Lent;
use scope::rows::Rows;
use scope::scope::{Scope, Slot};
use text::refusal::Refusal;

// How many slots in front have a context below k.
fn count_below(slots: &[[u32; Slot::NUMBERS]], k: usize) -> usize
    ensures { result ≡ length (take_while (λ slot. ltb (slice_index slot 0) k) slots.now) }
{
    slots
        .iter()
        .take_while(|slot| (slot[Slot::CONTEXT] as usize) < k)
        .count()
}

// The number of entries before the first of context k.
// Ruled out, among others: the entries of context k counted.
pub fn before_context(entries: Rows, k: usize) -> usize
    ensures { (result ≤ length (rows_entries entries.entry)) × (take result (rows_entries entries.entry) ≡ spec.under k (rows_entries entries.entry))
        × (drop result (rows_entries entries.entry) ≡ spec.top k (rows_entries entries.entry)) }
{
    count_below(entries.slots, k)
}

// Pops the last context; the parsed names stay. Nothing is written.
// Ruled out, among others: an empty stack refused; parsed names popped with their context.
pub fn pop(scope: Lent) -> Result<Scope, Refusal>
    ensures { (answer_of result scope.entry.slots.now scope.entry.names.now ≡ on_scope (lent scope.entry.counts scope.entry.slots.now scope.entry.names.now) spec.pop)
        × Whole result scope.entry.slots.now scope.entry.names.now }
{
    let counts = scope.counts;
    let sound = scope.checked()?;
    if counts.contexts == 0 {
        return Ok(counts);
    }
    Ok(Scope {
        contexts: counts.contexts - 1,
        entries: before_context(sound.entries(), counts.contexts),
        ..counts
    })
}

// Pushes an empty context. Nothing is written.
// Ruled out, among others: the 33rd context pushed.
pub fn push_default(scope: Lent) -> Result<Scope, Refusal>
    ensures { (answer_of result scope.entry.slots.now scope.entry.names.now ≡ on_scope (lent scope.entry.counts scope.entry.slots.now scope.entry.names.now) spec.push_default)
        × Whole result scope.entry.slots.now scope.entry.names.now }
{
    let counts = scope.counts;
    scope.checked()?;
    if Scope::MAX_CONTEXTS <= counts.contexts {
        return Err(Refusal::OverLimit);
    }
    Ok(Scope {
        contexts: counts.contexts + 1,
        ..counts
    })
}
