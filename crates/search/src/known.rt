// A scope that is not broken, with a length that no name of it exceeds.
ghost use Rattle.std.specs.Prelude.{◌≡◌};
ghost use Rattle.scope.specs.Keys.{is_name};
ghost use Rattle.scope.specs.Capped.{Capped};
ghost use Rattle.scope.specs.Sound.{sound_scope};

use crate::longest;
use scope::lent::Sound;

// What is asked for names while a text is read. The cap is found once for many searches.
#[derive(Clone, Copy)]
pub struct Known<'a> {
    pub scope: Sound<'a>,
    pub cap: usize,
    pub ghost capped: { Capped (is_name (sound_scope scope)) cap },
}

impl<'a> Known<'a> {
    // Ruled out, among others: a parsed name longer than the cap; another scope's rows.
    pub fn of(scope: Sound<'a>) -> Known<'a>
        ensures { result.scope ≡ scope.entry }
    {
        let cap = longest::longest_key(scope);
        Known { scope, cap }
    }
}
