// Whether a flattened text is a name of the scope. No key is built: the text is compared with one name after another.
ghost use Rattle.std.specs.Prelude.{◌≡◌, true, false, ◌++◌, ◌+◌, ◌-◌, ◌≤◌, ◌<◌, MatchOption, length, drop, get_or};
ghost use Rattle.reading.specs.Codes.{codes};
ghost use Rattle.names.specs.Same.{member};
ghost use Rattle.scope.specs.Limits.{max_depth};
ghost use Rattle.scope.specs.Keys as spec;
ghost use Rattle.scope.specs.Sound.{sound_scope, rows_entries};
ghost use Rattle.scope.specs.Viewed.{no_entry};
ghost use Rattle.search.specs.Rests.{leads};

use scope::entries::Entries;
use scope::lent::Sound;
use scope::rows::Rows;
use scope::scope::{Kind, Scope};
use text::chars::Char;

static DOT: [u32; 3] = [Char::SPACE, Char::DOT, Char::SPACE];

// What the text goes on with behind the name and a dot, if it begins with them.
fn behind_dot<'a>(name: &[u32], text: &'a [u32]) -> Option<&'a [u32]>
    ensures { MatchOption result (leads (name.now ++ codes " . ") text.now ≡ false)
        (λ rest. (leads (name.now ++ codes " . ") text.now ≡ true) × (rest.now ≡ drop (length (name.now ++ codes " . ")) text.now)) }
{
    text.strip_prefix(name)?.strip_prefix(&DOT)
}

// Whether the text is a key of the entries from `from` on at depth d, where so many levels are left, that of depth d among them.
#[cycle(below_has_entry_has_has)]
fn has(entries: Rows, from: usize, d: u32, levels: usize, text: &[u32]) -> bool
    requires { (from ≤ length (rows_entries entries)) × (d + levels ≤ max_depth + 1) }
    ensures { result ≡ member text.now (spec.levels levels d (drop from (rows_entries entries.entry))) }
{
    if levels == 0 {
        return false;
    }
    for i in from..entries.count() {
        let depth = entries.at(i).depth;
        if depth < d {
            return false;
        }
        if depth == d && entry_has(entries, i, d, levels, text) {
            return true;
        }
    }
    false
}

// The same of the entry at i and those below it.
#[cycle(below_has_entry_has_has)]
fn entry_has(entries: Rows, i: usize, d: u32, levels: usize, text: &[u32]) -> bool
    requires { (i < length (rows_entries entries)) × (0 < levels) × (d + levels ≤ max_depth + 1) }
    ensures { result ≡ member text.now (spec.keys_of (spec.levels (levels - 1) (d + 1)) (get_or (rows_entries entries.entry) i no_entry) (drop (i + 1) (rows_entries entries.entry))) }
{
    let e = entries.at(i);
    if e.name == text {
        return true;
    }
    if e.kind != u32::from(Kind::Context) {
        return false;
    }
    below_has(entries, i, d, levels, text)
}

// The same of the entries below the context at i, whose keys stand bare and behind its name.
#[cycle(below_has_entry_has_has)]
#[inline(never)] // The walk over a level seldom comes here.
fn below_has(entries: Rows, i: usize, d: u32, levels: usize, text: &[u32]) -> bool
    requires { (i < length (rows_entries entries)) × (0 < levels) × (d + levels ≤ max_depth + 1) }
    ensures { result ≡ member text.now (spec.qualified (get_or (rows_entries entries.entry) i no_entry).name (spec.levels (levels - 1) (d + 1) (drop (i + 1) (rows_entries entries.entry)))) }
{
    let below = i + 1;
    if has(entries, below, d + 1, levels - 1, text) {
        return true;
    }
    match behind_dot(entries.at(i).name, text) {
        Some(rest) => has(entries, below, d + 1, levels - 1, rest),
        None => false,
    }
}

// Whether the text is a parsed name or a flattened key of the scope.
// Ruled out, among others: a nested key without its " . "; a key that skips no level.
pub fn is_name(scope: Sound, text: &[u32]) -> bool
    ensures { result ≡ spec.is_name (sound_scope scope.entry) text.now }
{
    if Scope::LONGEST_KEY < text.len() {
        return false;
    }
    scope.parsed().has_name(text, 0) || has(scope.entries(), 0, 0, Scope::LEVELS, text)
}
