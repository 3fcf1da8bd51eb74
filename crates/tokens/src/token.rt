// The token reader: one reading of a text from its first cell on.
ghost use Rattle.std.specs.Prelude.{◌≡◌, true, ◌&&◌, ◌||◌, List, [], ℕ, ◌+◌, ◌≤◌, eqb, length};
ghost use Rattle.reading.specs.Codes.{codes};
ghost use Rattle.reading.specs.Look.{cell_at};
ghost use Rattle.reading.specs.Cells.{holds, is};
ghost use Rattle.text.specs.Limits.{max_chars};
ghost use Rattle.text.specs.Classes.{is_digit};
ghost use Rattle.names.specs.Same.{same};
ghost use Rattle.scope.specs.Keys.{is_name};
ghost use Rattle.scope.specs.Sound.{sound_scope};
ghost use Rattle.lexer.specs.Read as spec;
ghost use Rattle.lexer.specs.Number.{read_number};
ghost use Rattle.lexer.specs.Text.{read_string};
ghost use Rattle.lexer.specs.Window.{shown, after_word};
ghost use Rattle.lexer.specs.Token.{fuel, with_flags, other_cases, behind_words, cases};
ghost use Rattle.lexer.specs.Shown.{window_of};
ghost use Rattle.words.specs.Keywords.{value_of};
ghost use Rattle.lexer.specs.FlagsOf.{flags_of};
ghost use Rattle.lexer.specs.TypeNumber.{type_number};
ghost use Rattle.lexer.specs.Fit.{Searchable};
ghost use Rattle.lexer.specs.Taken.{Gives, Takes, Taken};

use lexer::flags::{Flag, Flags};
use lexer::string::Literal;
use lexer::token::{Outcome, Refused, Token};
use lexer::token_type::TokenType;
use lexer::window;
use search::known::Known;
use text::chars::Char;
use text::classes::{Class, Digit, NameStart};
use words::keywords;
use words::keywords::Found;

// A token without a value.
fn plain(kind: TokenType, used: usize, flags: Flags, reach: usize) -> Outcome
    ensures { (o : List ℕ) → Gives (spec.outcome (spec.token (type_number kind) spec.nothing) used (flags_of flags)) reach o result o }
{
    Outcome {
        read: Ok(Token::Plain(kind)),
        used,
        flags,
        reach,
    }
}

// The word or symbol that was found.
fn of_word(found: Found, flags: Flags, reach: usize) -> Outcome
    ensures { (o : List ℕ) → Gives (spec.outcome (spec.token (type_number found.kind) (value_of found.value)) found.end (after_word (type_number found.kind) (flags_of flags))) reach o result o }
{
    let token = match found.value {
        Some(truth) => Token::Boolean(truth),
        None => Token::Plain(found.kind),
    };
    Outcome {
        read: Ok(token),
        used: found.end,
        flags: keywords::after_word(found.kind, flags),
        reach,
    }
}

// The number at i, its digits written out; q is the reach so far.
fn number_at(rest: &[u32], i: usize, q: usize, flags: Flags, out: &mut [u32]) -> Outcome
    requires { (length rest.now ≤ max_chars) × (i ≤ length rest.now) × (length rest.now ≤ length out.old) × (holds is_digit (cell_at rest.now i) || (is 0x2E (cell_at rest.now i) && holds is_digit (cell_at rest.now (i + 1))) ≡ true) }
    ensures { Takes rest.now q (with_flags (flags_of flags) (read_number fuel i)) out.old result out.new }
{
    let n = lexer::number::read_number(rest, i);
    lexer::number::write_number(rest, i, n, out);
    let before = (n.before - i).max(1);
    Outcome {
        read: Ok(Token::Numeric(before, n.after - n.from, n.minus, n.end - n.exponent)),
        used: n.end,
        flags,
        reach: q.max(n.reach),
    }
}

// The string whose quote stands at i, its characters written out once it is known to end; q is the reach so far.
fn string_at(rest: &[u32], i: usize, q: usize, flags: Flags, out: &mut [u32]) -> Outcome
    requires { (length rest.now ≤ max_chars) × (i + 1 ≤ length rest.now) × (length rest.now ≤ length out.old) }
    ensures { Takes rest.now q (with_flags (flags_of flags) (read_string fuel [] (i + 1))) out.old result out.new }
{
    match lexer::string::read_string(rest, i + 1) {
        Ok(Literal::Chars(_, end)) => {
            let n = lexer::string::write_string(rest, i + 1, out);
            Outcome {
                read: Ok(Token::Chars(TokenType::String, n)),
                used: end,
                flags,
                reach: q.max(end + 1),
            }
        }
        Ok(Literal::LineEnds(end)) => plain(TokenType::YyUndef, end, flags, q.max(end + 2)),
        Ok(Literal::TextEnds(end)) => plain(TokenType::YyEof, end, flags, q.max(end + 2)),
        Err(broken) => Outcome {
            read: Err(Refused {
                refusal: broken.refusal,
                carry: broken.carry,
            }),
            used: broken.place,
            flags,
            reach: q.max(broken.reach),
        },
    }
}

// Whether the window at i shows nothing but spaces, as it does at the text's end.
fn is_blank(rest: &[u32], i: usize) -> bool
    requires { i ≤ length rest.now }
    ensures { result ≡ same (window_of 12 rest.now i) (codes "            ") }
{
    let w = window::window(rest, i);
    names::fixed::is(&w, b"            ")
}

// Behind words and symbols: a digit, the start of a name, the end, or nothing known.
fn other_cases(
    rest: &[u32],
    i: usize,
    c: u32,
    q: usize,
    flags: Flags,
    known: &Known,
    out: &mut [u32],
    scratch: &mut [u32],
) -> Outcome
    requires { (length rest.now ≤ max_chars) × (i ≤ length rest.now) × (c ≡ shown (cell_at rest.now i)) × (length rest.now ≤ length out.old) × Searchable rest.now scratch.old }
    ensures { Takes rest.now q (other_cases fuel (flags_of flags) (is_name (sound_scope known.now.scope)) (window_of 12 rest.now i) i) out.old result out.new
        × (scratch.new ≡ scratch.old) }
{
    if Digit::has(c) {
        return number_at(rest, i, q, flags, out);
    }
    if NameStart::has(c) {
        let o = naming::name::read_name(rest, i, flags, known, out, scratch);
        return Outcome {
            reach: q.max(o.reach),
            ..o
        };
    }
    if is_blank(rest, i) {
        return plain(TokenType::YyEof, i, flags, q);
    }
    plain(TokenType::YyUndef, i, flags, q)
}

// Whether c, the character at i, is a point before a digit.
fn begins_with_point(rest: &[u32], i: usize, c: u32) -> bool
    requires { i ≤ max_chars }
    ensures { result ≡ eqb 0x2E c && is_digit (shown (cell_at rest.now (i + 1))) }
{
    Char::DOT == c && Digit::has(window::shown_at(rest, i + 1))
}

// Behind the words: a number that begins with its point, a string, a symbol, or another case.
fn behind_words(
    rest: &[u32],
    i: usize,
    c: u32,
    q: usize,
    flags: Flags,
    known: &Known,
    out: &mut [u32],
    scratch: &mut [u32],
) -> Outcome
    requires { (length rest.now ≤ max_chars) × (i ≤ length rest.now) × (c ≡ shown (cell_at rest.now i)) × (length rest.now ≤ length out.old) × (q ≤ length rest.now + 12) × Searchable rest.now scratch.old }
    ensures { Takes rest.now q (behind_words fuel (flags_of flags) (is_name (sound_scope known.now.scope)) (window_of 12 rest.now i) i) out.old result out.new
        × (scratch.new ≡ scratch.old) }
{
    if begins_with_point(rest, i, c) {
        return number_at(rest, i, q, flags, out);
    }
    if Char::QUOTE == c {
        return string_at(rest, i, q, flags, out);
    }
    let m = keywords::first_symbol(rest, i, c, flags, q);
    match m.found {
        Some(found) => of_word(found, flags, m.reach),
        None => other_cases(rest, i, c, m.reach, flags, known, out, scratch),
    }
}

// The cases of the window at i, which counts as looked at, in the source's order.
fn by_window(
    rest: &[u32],
    i: usize,
    flags: Flags,
    known: &Known,
    out: &mut [u32],
    scratch: &mut [u32],
) -> Outcome
    requires { (length rest.now ≤ max_chars) × (i ≤ length rest.now) × (length rest.now ≤ length out.old) × Searchable rest.now scratch.old }
    ensures { Takes rest.now (i + 12) (cases fuel (flags_of flags) (is_name (sound_scope known.now.scope)) (window_of 12 rest.now i) i) out.old result out.new
        × (scratch.new ≡ scratch.old) }
{
    let c = window::shown_at(rest, i);
    let m = keywords::first_word(rest, i, c, flags);
    match m.found {
        Some(found) => of_word(found, flags, m.reach),
        None => behind_words(rest, i, c, m.reach, flags, known, out, scratch),
    }
}

// The token that a text begins with, by the names that are known; scratch is found and left zero.
// Ruled out, among others: YyEof always; a value written behind the output's front.
pub fn read_token(
    rest: &[u32],
    flags: Flags,
    known: &Known,
    out: &mut [u32],
    scratch: &mut [u32],
) -> Outcome
    requires { (length rest.now ≤ max_chars) × (length rest.now ≤ length out.old) × Searchable rest.now scratch.old }
    ensures { Taken rest.now (is_name (sound_scope known.now.scope)) (flags_of flags) out.old result out.new
        × (scratch.new ≡ scratch.old) }
{
    let i = lexer::skip::skip(rest);
    let o = by_window(rest, i, flags, known, out, scratch);
    Outcome {
        flags: o.flags.clear(Flag::UnaryTests),
        ..o
    }
}
