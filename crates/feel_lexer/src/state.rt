// Scope and lexer as they are lent: a few numbers each.
ghost use Rattle.std.specs.Prelude.{◌≡◌, [], ◌∷◌, length};
ghost use Rattle.tokens.specs.CalledBy.{state_of};
ghost use Rattle.feel_lexer.specs.Numbers as spec;
ghost use Rattle.feel_lexer.specs.Exported.{LexerOf};

use lexer::flags::Flags;
use scope::scope::Scope;
use tokens::call::Lexer;

// Contexts, entries, parsed names.
pub const SCOPE_SIZE: usize = 3;

// The counts of a scope. More or fewer numbers are taken for more contexts than there may be, which every call refuses behind what comes before a broken scope.
pub fn scope_of(numbers: &[usize]) -> Scope
    ensures { result ≡ spec.counts_of numbers.now }
{
    match *numbers {
        [contexts, entries, parsed] => Scope {
            contexts,
            entries,
            parsed,
        },
        _ => Scope {
            contexts: Scope::MAX_CONTEXTS + 1,
            entries: 0,
            parsed: 0,
        },
    }
}

pub fn put_scope(numbers: &mut [usize], s: Scope)
    requires { length numbers.old ≡ spec.scope_size }
    ensures { numbers.new ≡ s.contexts ∷ s.entries ∷ s.parsed ∷ [] }
{
    numbers.copy_from_slice(&[s.contexts, s.entries, s.parsed]);
}

// The lexer of which these are the numbers; where no start token is due, its type is 0.
#[tactic(auto, unfolding(crate::specs::Numbers::is_lexer))]
pub fn lexer_of(numbers: &[usize]) -> Option<Lexer>
    ensures { LexerOf numbers.now result }
{
    let [position, flags, pending, start_type] = *numbers else {
        return None;
    };
    if (Flags::ALL as usize) < flags {
        return None;
    }
    let due = match (pending, start_type) {
        (0, 0) => None,
        (1, k) => Some(u32::try_from(k).ok()?),
        _ => return None,
    };
    Some(Lexer {
        position,
        flags: Flags::from_bits(flags as u32),
        due,
    })
}

pub fn put_lexer(numbers: &mut [usize], l: Lexer)
    requires { length numbers.old ≡ spec.lexer_size }
    ensures { numbers.new ≡ spec.lexer_numbers (state_of l) }
{
    let flags = u32::from(l.flags) as usize;
    let (pending, start) = match l.due {
        Some(start_type) => (1, start_type as usize),
        None => (0, 0),
    };
    numbers.copy_from_slice(&[l.position, flags, pending, start]);
}
