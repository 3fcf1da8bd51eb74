// The token call, by value and on a lent lexer: refused by the host, at the limits of a text, and refused by the text.
ghost use Rattle.scope.specs.Answers.{lent};
ghost use Rattle.lexer.specs.Lexer as spec;
ghost use Rattle.tokens.specs.CalledBy.{state_of, CalledBy};

use crate::lent::FILL;
use crate::told::Refused;
use crate::{filled, lent, told};
use lexer::flags::Flags;
use lexer::token::{Read, Token};
use lexer::token_type::TokenType;
use scope::lent::Lent;
use std::io;
use text::refusal::Refusal;
use text::utf8::Text;
use tokens::call;
use tokens::call::{Called, Lexer};

// All flags are set.
fn state(position: usize, pending: bool) -> Lexer {
    Lexer {
        position,
        flags: Flags::from_bits(Flags::ALL),
        due: pending.then_some(TokenType::StartExpression as u32),
    }
}

fn token(rt: &impl Print, kind: TokenType, place: usize) -> io::Result<()> {
    print!(rt; "token {} at {place}", u32::from(kind))
}

// What was read, and its place. 01: 3, 5 and 6 carry something.
fn read(rt: &impl Print, r: Read, place: usize) -> io::Result<()> {
    match r {
        Ok(Token::Plain(kind)) => token(rt, kind, place),
        Ok(Token::Boolean(_)) => token(rt, TokenType::Boolean, place),
        Ok(Token::Numeric(..)) => token(rt, TokenType::Numeric, place),
        Ok(Token::Chars(kind, n)) => {
            token(rt, kind, place)?;
            print!(rt; ", value cells {n}")
        }
        Err(broken) => {
            let refused = Refused(broken.refusal);
            print!(rt; "{refused} at {place}")?;
            match broken.refusal {
                Refusal::NoHexDigit | Refusal::NoScalarValue | Refusal::NoSecondHalf => {
                    print!(rt; ", carry {:X}", broken.carry)
                }
                _ => Ok(()),
            }
        }
    }
}

// The answer for an output that was filled before the call; whether scratch is zero after it.
fn answer(rt: &impl Print, c: Called, out: &[u32], zero: bool) -> io::Result<()> {
    let Called {
        read: r,
        place,
        next,
    } = c;
    read(rt, r, place)?;
    let due = if next.due.is_some() {
        "start due"
    } else {
        "no start due"
    };
    print!(rt;
        "; position {}, flags {}, {due}",
        next.position,
        u32::from(next.flags)
    )?;
    let value_cells = match r {
        Ok(Token::Chars(_, n)) => n,
        _ => 0,
    };
    let rest = told::kept(filled::is_filled(out, value_cells, FILL));
    println!(rt; "; rest of output {rest}, {}", told::cleared(zero))
}

// The call on a lexer in a local, which is lent to it.
pub fn on_lent(mut l: Lexer, text: &[u32], s: Lent, out: &mut [u32], scratch: &mut [u32]) -> Called
    ensures { CalledBy (spec.next_token (lent s.entry.counts s.entry.slots.now s.entry.names.now) (state_of l) text.now out.old scratch.old) result out.new scratch.new }
{
    let read = l.next_token_mut(text, s, out, scratch);
    Called {
        read,
        place: l.position,
        next: l,
    }
}

// A call with so many cells of output and scratch lent.
fn called<C: Fn(Lexer, &[u32], Lent, &mut [u32], &mut [u32]) -> Called>(
    rt: &impl Print,
    next_token: &C,
    l: Lexer,
    text: &[u32],
    contexts: usize,
    output: usize,
    scratch: usize,
) -> io::Result<()>
    requires { C.IsAlwaysCallable next_token.now }
{
    let slots = lent::slots();
    let names = lent::names();
    let mut out = lent::cells();
    let mut free = lent::cells();
    let s = Lent {
        counts: told::empty_scope(contexts),
        slots: &slots,
        names: &names,
    };
    let c = next_token(
        l,
        text,
        s,
        lent::front_mut(&mut out, output),
        lent::front_mut(&mut free, scratch),
    );
    let zero = filled::is_filled(lent::front(&free, scratch), 0, 0);
    answer(rt, c, &out, zero)
}

const N: usize = Text::MAX_CHARS;

// Position, whether a start token is due, characters, contexts, output, scratch.
// 01: 1, 12, 10, 9. In the first calls the causes behind hold, too.
static HOSTS: [(usize, bool, usize, usize, usize, usize); 11] = [
    (N + 2, false, N + 1, 33, 0, 0),
    (3, false, 2, 33, 0, 0),
    (2, false, 2, 33, 0, 0),
    (1, false, 2, 1, 1, 4),
    (1, false, 2, 1, 2, 3),
    (1, false, 2, 1, 2, 4),
    (0, true, 2, 1, 1, 4),
    (0, true, 2, 1, 2, 4),
    (0, false, N + 1, 1, N + 1, 2 * N + 2),
    (0, false, N, 1, N, 2 * N),
    (0, false, 0, 1, 0, 0),
];

// Calls on so many times `a`.
fn hosts<C: Fn(Lexer, &[u32], Lent, &mut [u32], &mut [u32]) -> Called>(
    rt: &impl Print,
    next_token: &C,
) -> io::Result<()>
    requires { C.IsAlwaysCallable next_token.now }
{
    let text = lent::text(0x61);
    for &(position, pending, n, contexts, output, scratch) in &HOSTS {
        print!(rt; "{position} {n} {contexts} {output} {scratch}: ")?;
        let l = state(position, pending);
        called(
            rt,
            next_token,
            l,
            lent::front(&text, n),
            contexts,
            output,
            scratch,
        )?;
    }
    Ok(())
}

// A call from the third character on, with just the room that it asks for.
pub fn behind<C: Fn(Lexer, &[u32], Lent, &mut [u32], &mut [u32]) -> Called>(
    rt: &impl Print,
    next_token: &C,
    text: &[u32],
) -> io::Result<()>
    requires { C.IsAlwaysCallable next_token.now }
{
    let n = text.len();
    called(rt, next_token, state(2, false), text, 1, n, 2 * n)
}

pub fn tried(rt: &impl Print) -> io::Result<()> {
    println!(rt; "Token calls: position, characters, contexts, output, scratch")?;
    hosts(rt, &call::next_token)?;
    println!(rt; "Token calls on a lent lexer, the same")?;
    hosts(rt, &on_lent)
}
