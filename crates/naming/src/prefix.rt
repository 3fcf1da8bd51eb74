// The longest prefix of a name that is found: under `after_dot` among the properties, then in the scope.
ghost use Rattle.std.specs.Prelude.{◌≡◌, true, ◌*◌, ◌≤◌, ◌<◌, length, IfSome, is_some};
ghost use Rattle.scope.specs.Keys.{is_name};
ghost use Rattle.scope.specs.Sound.{sound_scope};
ghost use Rattle.names.specs.Flatten.{flatten};
ghost use Rattle.lexer.specs.Naming.{texts};
ghost use Rattle.lexer.specs.Places.{prefix};
ghost use Rattle.lexer.specs.FlagsOf.{flags_of};
ghost use Rattle.lexer.specs.Fit.{Clear, Asked, Longest, Searchable};
ghost use Rattle.naming.specs.Found.{is_property, parts_of, property_of};

use lexer::flags::Flags;
use scope::lent::Sound;
use search::known::Known;

// What a text was found as.
#[derive(Clone, Copy)]
pub enum Found {
    Property,
    Name,
}

// Asks for a flattened text. A property counts as one even if the scope has its name.
fn find(text: &[u32], flags: Flags, scope: Sound) -> Option<Found>
    ensures { Asked (flags_of flags) (is_name (sound_scope scope.entry)) text.now (is_some result) (is_property result) }
{
    if flags.after_dot && names::fixed::is_built_in_property_name(text) {
        return Some(Found::Property);
    }
    search::keys::is_name(scope, text).then_some(Found::Name)
}

// Asks for the first m parts of the name at `from`, flattened in scratch.
fn find_parts(
    rest: &[u32],
    from: usize,
    m: usize,
    flags: Flags,
    scope: Sound,
    scratch: &mut [u32],
) -> Option<Found>
    requires { (from ≤ length rest.now) × Searchable rest.now scratch.old }
    ensures asked { Asked (flags_of flags) (is_name (sound_scope scope.entry)) (flatten (texts (prefix rest.now m from))) (is_some result) (is_property result) }
    ensures clean { scratch.new ≡ scratch.old }
{
    let k = lexer::parts::write_parts(rest, from, m, false, scratch);
    let j = names::flatten::flatten(&mut scratch[..k]);
    let found = find(&scratch[..j], flags, scope);
    scratch[..k].fill(0);
    found
}

// How many parts the prefix has, and what it was found as.
#[derive(Clone, Copy)]
pub struct Prefix {
    pub parts: usize,
    pub found: Found,
}

// The longest prefix of at most n parts, each tried once.
fn longest(
    rest: &[u32],
    from: usize,
    n: usize,
    flags: Flags,
    scope: Sound,
    scratch: &mut [u32],
) -> Option<Prefix>
    requires { (from ≤ length rest.now) × Searchable rest.now scratch.old }
    ensures longest { Longest (flags_of flags) (is_name (sound_scope scope.entry)) rest.now from n (parts_of result) (property_of result) }
    ensures some { IfSome result (λ p. 0 < p.parts) }
    ensures clean { scratch.new ≡ scratch.old }
{
    for m in (1..=n).rev() {
        if let Some(found) = find_parts(rest, from, m, flags, scope, scratch) {
            return Some(Prefix { parts: m, found });
        }
    }
    None
}

// The length of the longest text that can be found; a property has at most 14 characters.
fn longest_text(flags: Flags, cap: usize) -> usize
    ensures { (cap ≤ result) × (flags.after_dot ≡ true → 14 ≤ result) }
{
    if flags.after_dot { cap.max(14) } else { cap }
}

// The longest prefix of at most n parts that is found.
// Ruled out, among others: the shortest prefix that is found; a property left out because the scope has no name so long.
pub fn longest_prefix(
    rest: &[u32],
    from: usize,
    n: usize,
    flags: Flags,
    known: &Known,
    scratch: &mut [u32],
) -> Option<Prefix>
    requires { (from ≤ length rest.now) × Searchable rest.now scratch.old }
    ensures longest { Longest (flags_of flags) (is_name (sound_scope known.now.scope)) rest.now from n (parts_of result) (property_of result) }
    ensures some { IfSome result (λ p. 0 < p.parts) }
    ensures clean { scratch.new ≡ scratch.old }
{
    let c = longest_text(flags, known.cap);
    let m = lexer::bound::bound(rest, from, n, c);
    longest(rest, from, m, flags, known.scope, scratch)
}
