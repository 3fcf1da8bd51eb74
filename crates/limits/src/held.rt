// A scope with the rows that it is lent.
ghost use Rattle.std.specs.Prelude.{◌≡◌, false, ◌&&◌, not};
ghost use Rattle.scope.specs.Entries.{opened};
ghost use Rattle.scope.specs.Lent.{is_broken, scope_of, on_scope};
ghost use Rattle.scope.specs.Answers.{answer_of};
ghost use Rattle.scope.specs.Keys as spec;
ghost use Rattle.cases.specs.After.{call_at, after_call_at, call_end};
ghost use Rattle.limits.specs.Rows.{lent_of};

use cases::calls;
use cases::fields::Fields;
use scope::lent::Lent;
use scope::scope::{Scope, Slot};
use search::keys;
use text::refusal::Refusal;

// A scope over rows of zeros, to which a line's calls are made; that of the program refusals stands over filled rows.
#[derive(Clone, Copy)]
pub struct Held {
    scope: Scope,
    slots: [[u32; Slot::NUMBERS]; Scope::ROWS],
    names: [[u32; Scope::MAX_NAME]; Scope::ROWS],
}

impl Held {
    pub fn opened() -> Held
        ensures { (scope_of (lent_of result) ≡ opened) × (is_broken (lent_of result) ≡ false) }
    {
        Held {
            scope: Scope::opened(),
            slots: [[0; Slot::NUMBERS]; Scope::ROWS],
            names: [[0; Scope::MAX_NAME]; Scope::ROWS],
        }
    }

    // Opens the scope again; the rows stay as they are, since it uses none of them.
    pub fn open(&mut self)
        ensures { (scope_of (lent_of self.new) ≡ opened) × (is_broken (lent_of self.new) ≡ false)
            × (self.new.slots ≡ self.old.slots) × (self.new.names ≡ self.old.names) }
    {
        self.scope = Scope::opened();
    }

    // Whether a text is a name; a broken scope has none.
    pub fn has(&self, text: &[u32]) -> bool
        ensures { result ≡ (not (is_broken (lent_of self.now)) && spec.is_name (scope_of (lent_of self.now)) text.now) }
    {
        let lent = Lent {
            counts: self.scope,
            slots: &self.slots,
            names: &self.names,
        };
        lent.checked().is_ok_and(|scope| keys::is_name(scope, text))
    }

    // Makes the call that comes next; a refused one leaves the scope that was.
    pub fn call(&mut self, fields: &mut Fields) -> Result<Scope, Refusal>
        ensures whole { is_broken (lent_of self.old) ≡ false → is_broken (lent_of self.new) ≡ false }
        ensures model { is_broken (lent_of self.old) ≡ false
            → scope_of (lent_of self.new) ≡ after_call_at fields.old.line.now fields.old.at (scope_of (lent_of self.old)) }
        ensures next { (fields.new.line ≡ fields.old.line) × (fields.new.at ≡ call_end fields.old.line.now fields.old.at) }
        ensures answer { answer_of result self.new.slots self.new.names ≡ on_scope (lent_of self.old) (call_at fields.old.line.now fields.old.at) }
    {
        let answer = calls::call(fields, self.scope, &mut self.slots, &mut self.names);
        self.scope = answer.unwrap_or(self.scope);
        answer
    }
}
