// The token call.
ghost use Rattle.std.specs.Prelude.{◌≡◌, ◌≤◌, length};
ghost use Rattle.text.specs.Limits.{max_chars};
ghost use Rattle.lexer.specs.Answered.{told, cell_count};
ghost use Rattle.feel_lexer.specs.Numbers.{answer_size};
ghost use Rattle.feel_lexer.specs.Exported as spec;

use crate::answer::Answer;
use crate::{answer, state};
use lexer::token::Read;
use runs::item::Value;
use runs::{call, item};
use scope::lent::Lent;
use scope::scope::{Scope, Slot};
use text::refusal::Refusal;
use tokens::call::Lexer;

// The lexer of which these are the numbers, where the answer has its size; it is set to place 0.
fn ready(lexer: &[usize], answer: &mut [usize]) -> Result<Lexer, Refusal>
    ensures { spec.Ready lexer.now answer.old result answer.new }
{
    answer::checked(answer, true)?;
    state::lexer_of(lexer).ok_or(Refusal::ShortSlice)
}

// Writes the answer of what was read at a place: a token, or the carry of a refusal, which is given back.
#[tactic(auto, using(crate::proofs::TokenLaws::token_told, crate::proofs::TokenLaws::refusal_told), unfolding(crate::specs::Exported::number))]
fn put_read(read: Read, place: usize, answer: &mut [usize]) -> Result<(), Refusal>
    requires { (cell_count (told read) ≤ max_chars) × (length answer.old ≡ answer_size) }
    ensures { (spec.number result ≡ spec.number_from (told read)) × (answer.new ≡ spec.answer_from (told read) place) }
{
    let (outcome, token_type) = match item::kind(read) {
        Ok(kind) => (Ok(()), u32::from(kind)),
        Err(refusal) => (Err(refusal), 0),
    };
    let value = Value::of(read);
    Answer {
        place,
        token_type: token_type as usize,
        length: value.length,
        before: value.before,
        after: value.after,
        exponent: value.exponent,
        extra: value.extra as usize,
        items: 0,
    }
    .write(answer);
    outcome
}

// The next token of a text: its value fills the output's front, and the lexer's numbers are those of the state after it.
// Ruled out, among others: a state that stays where it was; a value's length told without its cells.
#[unsafe(no_mangle)]
pub extern "C" fn feel_next_token(
    lexer: &mut [usize],
    text: &[u32],
    scope: &[usize],
    slots: &[[u32; Slot::NUMBERS]],
    names: &[[u32; Scope::MAX_NAME]],
    out: &mut [u32],
    scratch: &mut [u32],
    answer: &mut [usize],
) -> u32
    ensures { spec.feel_next_token lexer.old text.now scope.now slots.now names.now out.old scratch.old answer.old
        ≡ record { number = result; lexer = lexer.new; output = out.new; scratch = scratch.new; answer = answer.new } }
{
    match ready(lexer, answer) {
        Ok(l) => {
            let lent = Lent {
                counts: state::scope_of(scope),
                slots,
                names,
            };
            let c = tokens::call::next_token(l, text, lent, out, scratch);
            state::put_lexer(lexer, c.next);
            answer::number(put_read(c.read, c.place, answer))
        }
        Err(refusal) => {
            call::clear(scratch);
            u32::from(refusal)
        }
    }
}
