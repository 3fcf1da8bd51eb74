// What makes a scope broken.
ghost use Rattle.std.specs.Prelude.{◌≡◌, ◌||◌, ◌+◌, map, ltb};
ghost use Rattle.std.specs.List.{list_all};
ghost use Rattle.text.specs.Classes.{is_scalar};
ghost use Rattle.scope.specs.Limits.{max_contexts, max_entries, max_parsed};
ghost use Rattle.scope.specs.Broken as spec;
ghost use Rattle.scope.specs.Rows.{all_held};

use crate::entries;
use crate::entries::Entries;
use crate::rows::Rows;
use crate::scope::Scope;
use text::classes::{Class, Scalar};

// Whether all lie before the surrogates, as most do: then they are scalar values.
fn are_low(cells: &[u32]) -> bool
    ensures { result ≡ list_all (λ c. ltb c 0xD800) cells.now }
{
    cells.iter().all(|c| *c < 0xD800)
}

#[tactic(auto, using(crate::proofs::BrokenLaws::low_scalars))]
fn are_scalars(cells: &[u32]) -> bool
    ensures { result ≡ list_all is_scalar cells.now }
{
    are_low(cells) || cells.iter().all(|c| Scalar::has(*c))
}

// Whether the cells are no name: over 128 characters, or one of them no scalar value.
#[tactic(auto, using(crate::proofs::BrokenLaws::all_scalar_list), unfolding(crate::specs::Broken::is_broken_name))]
pub fn is_broken_name(cells: &[u32]) -> bool
    ensures { result ≡ spec.is_broken_name cells.now }
{
    Scope::MAX_NAME < cells.len() || !are_scalars(cells)
}

// Whether a parsed name is broken, or there twice.
fn is_broken_set(parsed: Rows) -> bool
    ensures { result ≡ spec.is_broken_set (map (λ e. e.name) (all_held parsed.entry.slots.now parsed.entry.names.now)) }
{
    for i in 0..parsed.count() {
        let name = parsed.at(i).name;
        if is_broken_name(name) || parsed.has_name(name, i + 1) {
            return true;
        }
    }
    false
}

// Whether a count is over its limit, or there are too few rows.
pub fn is_over_limit(s: Scope, slots: usize, names: usize) -> bool
    ensures { result ≡ (ltb max_contexts s.contexts || ltb max_entries s.entries || ltb max_parsed s.parsed || ltb slots (max_entries + max_parsed) || ltb names (max_entries + max_parsed)) }
{
    Scope::MAX_CONTEXTS < s.contexts
        || Scope::MAX_ENTRIES < s.entries
        || Scope::MAX_PARSED < s.parsed
        || slots < Scope::ROWS
        || names < Scope::ROWS
}

// Whether so many contexts with these entries and these parsed names are a broken scope.
#[tactic(auto, using(crate::proofs::BrokenLaws::broken_all))]
pub fn is_broken_scope(contexts: usize, held: Rows, parsed: Rows) -> bool
    ensures { result ≡ spec.is_broken_scope (record {
      contexts = contexts;
      entries = all_held held.entry.slots.now held.entry.names.now;
      parsed = map (λ e. e.name) (all_held parsed.entry.slots.now parsed.entry.names.now);
    }) }
{
    entries::any_misplaced(&held, contexts)
        || entries::any_broken(&held, Scope::MAX_DEPTH)
        || entries::any_repeated(&held)
        || is_broken_set(parsed)
}
