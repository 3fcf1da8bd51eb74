// The lexer: its state, and the token call with the refusals of the host.
ghost use Rattle.std.specs.Prelude.{◌≡◌, cond, ◌≤◌, length};
ghost use Rattle.reading.specs.Cells.{is_one_of};
ghost use Rattle.text.specs.Limits.{max_chars};
ghost use Rattle.scope.specs.Sound.{sound_scope};
ghost use Rattle.lexer.specs.Lexer as spec;
ghost use Rattle.lexer.specs.TokenType as type;
ghost use Rattle.lexer.specs.FlagsOf.{flag_named};
ghost use Rattle.lexer.specs.TypeNumber.{type_number};
ghost use Rattle.lexer.specs.Fit.{Searchable};
ghost use Rattle.tokens.specs.CalledBy.{state_of, lent_of, refusal_of, Admits, Stepped, CalledBy};

use crate::token;
use lexer::flags::{Flag, Flags};
use lexer::token::{Read, Refused, Token};
use lexer::token_type::TokenType;
use scope::lent::{Lent, Sound};
use search::known::Known;
use text::refusal::Refusal;
use text::utf8::Text;

// Position, flags, and the type of the start token, if one is due.
#[derive(Clone, Copy)]
pub struct Lexer {
    pub position: usize,
    pub flags: Flags,
    pub due: Option<u32>,
}

impl Lexer {
    // At the text's first character, with a start token due and no flag set.
    // Ruled out, among others: no start token due; a flag set.
    pub fn new(start_type: u32) -> Lexer
        ensures { state_of result ≡ spec.new_lexer start_type }
    {
        Lexer {
            position: 0,
            flags: Flags::default(),
            due: Some(start_type),
        }
    }

    // Sets one flag and clears none.
    // Ruled out, among others: another flag set with it; the start token taken for read.
    pub fn set(self, flag: Flag) -> Lexer
        ensures { state_of result ≡ spec.set (flag_named flag) (state_of self) }
    {
        Lexer {
            flags: self.flags.set(flag),
            ..self
        }
    }
}

// What a token call gives: what was read, its place, and the state to go on from.
#[derive(Clone, Copy)]
pub struct Called {
    pub read: Read,
    pub place: usize,
    pub next: Lexer,
}

// The start token's type; the nine are 258 to 266, and any other gives YyError.
#[tactic(auto, using(std::proofs::lemmas::Bool::Decides::nat_tests))]
pub fn start_type(k: u32) -> TokenType
    ensures { type_number result ≡ cond (is_one_of spec.start_types k) k type.YyError }
{
    match k {
        TokenType::START_EXPRESSION => TokenType::StartExpression,
        TokenType::START_BOXED_EXPRESSION => TokenType::StartBoxedExpression,
        TokenType::START_TEXTUAL_EXPRESSION => TokenType::StartTextualExpression,
        TokenType::START_TEXTUAL_EXPRESSIONS => TokenType::StartTextualExpressions,
        TokenType::START_UNARY_TESTS => TokenType::StartUnaryTests,
        TokenType::START_SIMPLE_EXPRESSION => TokenType::StartSimpleExpression,
        TokenType::START_SIMPLE_EXPRESSIONS => TokenType::StartSimpleExpressions,
        TokenType::START_SIMPLE_VALUE => TokenType::StartSimpleValue,
        TokenType::START_RANGE_LITERAL => TokenType::StartRangeLiteral,
        _ => TokenType::YyError,
    }
}

// The scope, where a call at a position of a text of n characters may be made, for which so many cells of output and scratch are lent.
// Ruled out, among others: a broken scope told before a position beyond the text; scratch as long as the text taken for enough.
fn admitted<'a>(
    n: usize,
    position: usize,
    scope: Lent<'a>,
    out: usize,
    scratch: usize,
) -> Result<Sound<'a>, Refusal>
    ensures { Admits (refusal_of (lent_of scope.entry) position n out scratch) (lent_of scope.entry) result }
{
    if Text::MAX_CHARS < n {
        return Err(Refusal::TooLong);
    }
    if n < position {
        return Err(Refusal::BeyondText);
    }
    let sound = scope.checked()?;
    if out < n || scratch < 2 * n {
        return Err(Refusal::ShortSlice);
    }
    Ok(sound)
}

// The token from the position on: the part of a text's reading that is not refused by the host.
fn step(l: Lexer, text: &[u32], scope: Sound, out: &mut [u32], scratch: &mut [u32]) -> Called
    requires { (length text.now ≤ max_chars) × (l.position ≤ length text.now) × (length text.now ≤ length out.old) × Searchable text.now scratch.old }
    ensures { Stepped (spec.step (sound_scope scope.entry) (state_of l) text.now) out.old result out.new
        × (scratch.new ≡ scratch.old) }
{
    let p = l.position;
    if let Some(k) = l.due {
        return Called {
            read: Ok(Token::Plain(start_type(k))),
            place: p,
            next: Lexer { due: None, ..l },
        };
    }
    let known = Known::of(scope);
    let o = token::read_token(&text[p..], l.flags, &known, out, scratch);
    let place = p + o.used;
    Called {
        read: o.read,
        place,
        next: Lexer {
            position: place,
            flags: o.flags,
            due: None,
        },
    }
}

// The next token of a text: its value fills the output's front, scratch comes back zero. A refused call leaves output and state as they were.
// Ruled out, among others: the first token read again and again; scratch left as it was found where the call is refused.
pub fn next_token(
    l: Lexer,
    text: &[u32],
    scope: Lent,
    out: &mut [u32],
    scratch: &mut [u32],
) -> Called
    ensures { CalledBy (spec.next_token (lent_of scope.entry) (state_of l) text.now out.old scratch.old) result out.new scratch.new }
{
    scratch.fill(0);
    match admitted(text.len(), l.position, scope, out.len(), scratch.len()) {
        Ok(scope) => step(l, text, scope, out, scratch),
        Err(refusal) => Called {
            read: Err(Refused { refusal, carry: 0 }),
            place: l.position,
            next: l,
        },
    }
}
