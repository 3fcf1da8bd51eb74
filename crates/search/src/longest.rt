// A length that no name of a scope exceeds, so that a search need not try longer texts.
ghost use Rattle.std.specs.Prelude.{◌≡◌, ℕ, ◌+◌, ◌≤◌, get_or};
ghost use Rattle.std.specs.List.{sum};
ghost use Rattle.scope.specs.Limits.{max_name, max_depth};
ghost use Rattle.scope.specs.Keys.{is_name, longest_key};
ghost use Rattle.scope.specs.Capped.{Capped};
ghost use Rattle.scope.specs.Sound.{sound_scope};
ghost use Rattle.search.specs.Longest as spec;

use scope::entries::Entries;
use scope::lent::Sound;
use scope::scope::Scope;

// Cells of " . ", which stands behind a name in a key.
const DOT: usize = 3;

// For each depth the most that a name there adds to a key: its cells and those of " . ".
fn widest(scope: Sound) -> [usize; Scope::LEVELS]
    ensures value { (d : ℕ) → d ≤ max_depth → get_or result d 0 ≡ spec.widest (sound_scope scope.entry).entries d }
    ensures within { sum result ≤ longest_key + 3 }
{
    let entries = scope.entries();
    let mut widest = [0usize; Scope::LEVELS];
    for i in 0..entries.count() {
        let e = entries.at(i);
        let depth = e.depth as usize;
        widest[depth] = widest[depth].max(e.name.len() + DOT);
    }
    widest
}

// The length of the longest parsed name, 0 if there is none. By places, as the laws speak of the name at a place.
fn longest_parsed(scope: Sound) -> usize
    ensures value { result ≡ spec.longest_parsed (sound_scope scope.entry).parsed }
    ensures within { result ≤ max_name }
{
    let parsed = scope.parsed();
    let mut longest: usize = 0;
    for i in 0..parsed.count() {
        longest = longest.max(parsed.at(i).name.len());
    }
    longest
}

// A length that no parsed name and no flattened key of the scope exceeds.
// It is the longest parsed name, or the longest names of all depths one behind the other: 0 without names, 1 where all are single characters at depth 0.
// Ruled out, among others: the " . " between two names not counted; a parsed name longer than every key left out; a name counted by more cells than it has.
pub fn longest_key(scope: Sound) -> usize
    ensures capped { Capped (is_name (sound_scope scope.entry)) result }
    ensures value { result ≡ spec.cap_of (sound_scope scope.entry) }
{
    let widest = widest(scope);
    let keys: usize = widest.iter().sum();
    keys.max(longest_parsed(scope) + DOT) - DOT
}
