// The calls of a scope by their numbers.
ghost use Rattle.std.specs.Prelude.{◌≡◌, min};
ghost use Rattle.scope.specs.Lent.{on_scope};
ghost use Rattle.scope.specs.Answers.{lent, answer_of, Kept, Whole};
ghost use Rattle.cases.specs.Calls.{number_of};
ghost use Rattle.cases.specs.After.{call_of};

use scope::lent::Lent;
use scope::scope::{Listed, Scope, Slot};
use text::refusal::Refusal;

// The calls, numbered as in a case.
#[derive(Clone, Copy)]
pub enum Call {
    Push,
    Pop,
    SetEntryName,
    SetContext,
    AddParsedName,
}

impl From<u32> for Call {
    ghost from_gives = { λ n c. number_of c ≡ min n 4 };

    fn from(n: u32) -> Call {
        match n {
            0 => Call::Push,
            1 => Call::Pop,
            2 => Call::SetEntryName,
            3 => Call::SetContext,
            _ => Call::AddParsedName,
        }
    }
}

impl Call {
    // Makes the call with a name and an entry list, as far as it takes them.
    #[tactic(auto, unfolding(crate::specs::After::call_of))]
    pub fn make(
        self,
        s: Scope,
        slots: &mut [[u32; Slot::NUMBERS]],
        names: &mut [[u32; Scope::MAX_NAME]],
        name: &[u32],
        rows: &[[u32; Listed::NUMBERS]],
        cells: &[u32],
    ) -> Result<Scope, Refusal>
        ensures { (answer_of result slots.new names.new ≡ on_scope (lent s slots.old names.old) (call_of (number_of self) name.now cells.now rows.now))
            × Kept result slots.old slots.new × Kept result names.old names.new × Whole result slots.new names.new }
    {
        match self {
            Call::Push => scope_calls::push::push(s, slots, names, rows, cells),
            Call::Pop => scope_calls::stack::pop(Lent {
                counts: s,
                slots,
                names,
            }),
            Call::SetEntryName => scope_calls::naming::set_entry_name(s, slots, names, name),
            Call::SetContext => {
                scope_calls::naming::set_context(s, slots, names, name, rows, cells)
            }
            Call::AddParsedName => scope_calls::parsed::add_parsed_name(s, slots, names, name),
        }
    }
}
