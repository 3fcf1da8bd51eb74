// Parts put behind one another: as `Name::new` joins them, or by spaces.
ghost use Rattle.std.specs.Prelude.{◌≡◌, ◌&&◌, ◌+◌, ◌≤◌, length};
ghost use Rattle.text.specs.Output.{Adds};
ghost use Rattle.names.specs.Name as spec;
ghost use Rattle.names.specs.Spelling.{tied, laid};

use text::chars::Char;
use text::classes::{Class, Symbol};
use text::output::Output;

fn is_symbol_text(part: &[u32]) -> bool
    ensures { result ≡ spec.is_symbol_text part.now }
{
    matches!(part, [c] if Symbol::has(*c))
}

// Whether a part stands right behind what comes before it; tight says that it does anyway.
#[tactic(auto, unfolding(crate::specs::Spelling::tied))]
pub fn is_tied(part: &[u32], new: bool, tight: bool) -> bool
    ensures { result ≡ tied new tight part.now }
{
    tight || new && (part.is_empty() || is_symbol_text(part))
}

// Whether the part behind this one stands right behind it.
pub fn ends_tight(part: &[u32], new: bool) -> bool
    ensures { result ≡ new && spec.is_symbol_text part.now }
{
    new && is_symbol_text(part)
}

// Writes a part, after a space unless tight.
// Ruled out, among others: a space at the front of a name; a part written over the space before it.
pub fn add_part(part: &[u32], tight: bool, out: &mut Output<'_>)
    requires { out.old.len + length (laid tight part.now) ≤ length out.old.cells.now }
    ensures { Adds out.old (laid tight part.now) out.new }
{
    if !tight {
        out.push(Char::SPACE);
    }
    out.append(part);
}
