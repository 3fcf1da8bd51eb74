// The set of parsed names.
ghost use Rattle.std.specs.Prelude.{◌≡◌};
ghost use Rattle.scope.specs.Calls as spec;
ghost use Rattle.scope.specs.Lent.{on_scope};
ghost use Rattle.scope.specs.Answers.{lent, answer_of, Kept, Whole};

use crate::write::RowsMut;
use scope::broken;
use scope::entries::Entry;
use scope::lent::Lent;
use scope::scope::{Scope, Slot};
use text::refusal::Refusal;

// Adds a parsed name; one that is there already changes nothing.
// Ruled out, among others: a name that is there refused for want of room; an entry's row written.
pub fn add_parsed_name(
    s: Scope,
    slots: &mut [[u32; Slot::NUMBERS]],
    names: &mut [[u32; Scope::MAX_NAME]],
    name: &[u32],
) -> Result<Scope, Refusal>
    ensures { (answer_of result slots.new names.new ≡ on_scope (lent s slots.old names.old) (spec.add_parsed_name name.now))
        × Kept result slots.old slots.new × Kept result names.old names.new × Whole result slots.new names.new }
{
    let scope = Lent {
        counts: s,
        slots,
        names,
    }
    .checked()?;
    if broken::is_broken_name(name) {
        return Err(Refusal::BrokenScope);
    }
    if scope.parsed().has_name(name, 0) {
        return Ok(s);
    }
    if Scope::MAX_PARSED <= s.parsed {
        return Err(Refusal::OverLimit);
    }
    // Of a parsed name's slot the length alone is read.
    let e = Entry {
        context: 0,
        depth: 0,
        kind: 0,
        name,
    };
    RowsMut { slots, names }.put(Scope::MAX_ENTRIES + s.parsed, e);
    Ok(Scope {
        parsed: s.parsed + 1,
        ..s
    })
}
