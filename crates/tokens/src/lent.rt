// A lexer lent to be changed: each method takes the state out, calls the function by value, and puts the new state back.
ghost use Rattle.std.specs.Prelude.{◌≡◌};
ghost use Rattle.lexer.specs.Lexer as spec;
ghost use Rattle.lexer.specs.FlagsOf.{flag_named};
ghost use Rattle.tokens.specs.CalledBy.{state_of, lent_of, CalledBy, standing};

use crate::call;
use crate::call::Lexer;
use lexer::flags::Flag;
use lexer::token::Read;
use scope::lent::Lent;

impl Lexer {
    // Sets one flag and clears none: the setter by value, on a lexer that is lent, as 01 names both.
    // Ruled out, among others: another flag set; the state left as it was.
    pub fn set_mut(&mut self, flag: Flag)
        ensures { state_of self.new ≡ spec.set (flag_named flag) (state_of self.old) }
    {
        *self = self.set(flag);
    }

    // The next token of a text, as by value; its place is the lexer's position afterwards.
    // Ruled out, among others: the state left before the token; a refusal whose place is not the lexer's position.
    pub fn next_token_mut(
        &mut self,
        text: &[u32],
        scope: Lent,
        out: &mut [u32],
        scratch: &mut [u32],
    ) -> Read
        ensures { CalledBy (spec.next_token (lent_of scope.entry) (state_of self.old) text.now out.old scratch.old) (standing result self.new) out.new scratch.new }
    {
        let c = call::next_token(*self, text, scope, out, scratch);
        *self = c.next;
        c.read
    }
}
