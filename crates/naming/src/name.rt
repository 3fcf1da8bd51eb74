// Names: which of the parts at a place are one name, decided in the order of `cut_name`.
ghost use Rattle.std.specs.Prelude.{◌≡◌, true, false, ◌&&◌, Bool, List, ℕ, ◌+◌, ◌≤◌, ◌<◌, length, None};
ghost use Rattle.reading.specs.Look.{cell_at};
ghost use Rattle.reading.specs.Cells.{holds, is};
ghost use Rattle.text.specs.Limits.{max_chars};
ghost use Rattle.text.specs.Classes.{is_name_part};
ghost use Rattle.names.specs.Same.{member};
ghost use Rattle.names.specs.Fixed.{type_names, temporal_names};
ghost use Rattle.scope.specs.Keys.{is_name};
ghost use Rattle.scope.specs.Sound.{sound_scope};
ghost use Rattle.lexer.specs.Read.{token, outcome};
ghost use Rattle.lexer.specs.Naming as spec;
ghost use Rattle.lexer.specs.Token.{fuel};
ghost use Rattle.lexer.specs.TokenType as spec_type;
ghost use Rattle.lexer.specs.Places.{prefix, Counted};
ghost use Rattle.lexer.specs.FlagsOf.{flags_of};
ghost use Rattle.lexer.specs.Fit.{Searchable};
ghost use Rattle.lexer.specs.Taken.{Gives, Takes};
ghost use Rattle.naming.specs.Cut.{Before, Roomy, by_prefix_of, by_in_of, cut_in_of};

use crate::prefix;
use crate::prefix::Found;
use lexer::flags::{Flag, Flags};
use lexer::parts;
use lexer::token::{Outcome, Refused, Token};
use lexer::token_type::TokenType;
use search::known::Known;
use text::chars::Char;
use text::refusal::Refusal;

// Whether the next part from i on is the word. A match, since the proof goes by its two cases.
fn next_is(rest: &[u32], i: usize, word: &[u8]) -> bool
    requires { i ≤ length rest.now }
    ensures { result ≡ spec.starts_with word.now (prefix rest.now 1 i) }
{
    match parts::next_part(rest, i) {
        Ok((start, end)) => names::fixed::is(&rest[start..end], word),
        Err(_) => false,
    }
}

// A name at a place: how many parts it has, and where the walk over them ended. No prefix of it is longer than the text, as its value.
#[derive(Clone, Copy)]
struct Name<'a> {
    rest: &'a [u32],
    from: usize,
    parts: usize,
    end: usize,
    ghost counted: { Counted rest.now from parts end },
    ghost roomy: { Roomy rest.now from parts (length rest.now) },
}

// How many parts stand before the first that is `in`, if one is.
fn before_in(name: Name) -> Option<usize>
    ensures { Before name.entry.rest.now name.entry.from name.entry.parts result }
{
    let mut i = name.from;
    for m in 0..name.parts {
        let Ok((start, end)) = parts::next_part(name.rest, i) else {
            return None;
        };
        i = end;
        if names::fixed::is(&name.rest[start..end], b"in") {
            return Some(m);
        }
    }
    None
}

// The place just behind the first m parts.
fn end_of(name: Name, m: usize) -> usize
    requires { (0 < m) × (m ≤ name.parts) }
    ensures { result ≡ spec.end_of (prefix name.entry.rest.now m name.entry.from) }
{
    let mut i = name.from;
    for _ in 0..m {
        let Ok((_, end)) = parts::next_part(name.rest, i) else {
            return i;
        };
        i = end;
    }
    i
}

// The first m parts, read up to `end`: as a name, behind all that the walk has looked at.
fn named(name: Name, m: usize, end: usize, flags: Flags, out: &mut [u32]) -> Outcome
    requires { (m ≤ name.parts) × (length name.rest.now ≤ length out.old) }
    ensures { Gives (outcome (token spec_type.Name (spec.name_of (prefix name.entry.rest.now m name.entry.from))) end (flags_of flags)) (name.entry.end + 1) out.old result out.new }
{
    let k = parts::write_parts(name.rest, name.from, m, true, out);
    Outcome {
        read: Ok(Token::Chars(TokenType::Name, k)),
        used: end,
        flags,
        reach: name.end + 1,
    }
}

// The first m parts, read up to the last of them.
fn cut_at(name: Name, m: usize, flags: Flags, out: &mut [u32]) -> Outcome
    requires { (0 < m) × (m ≤ name.parts) × (length name.rest.now ≤ length out.old) }
    ensures { Gives (outcome (token spec_type.Name (spec.name_of (prefix name.entry.rest.now m name.entry.from))) (spec.end_of (prefix name.entry.rest.now m name.entry.from)) (flags_of flags)) (name.entry.end + 1) out.old result out.new }
{
    named(name, m, end_of(name, m), flags, out)
}

fn is_type(name: &[u32], flags: Flags) -> bool
    ensures { result ≡ (flags_of flags).type_name && member name.now type_names }
{
    flags.type_name && names::fixed::is_built_in_type_name(name)
}

fn is_temporal(name: &[u32], rest: &[u32], end: usize) -> bool
    ensures { result ≡ member name.now temporal_names && is 0x28 (cell_at rest.now end) }
{
    names::fixed::is_built_in_date_time_function_name(name)
        && lexer::look::is_at(rest, end, Char::LEFT_PAREN)
}

// All parts: tried as a type name, then as a temporal name before `(`.
fn all_parts(name: Name, flags: Flags, out: &mut [u32]) -> Outcome
    requires { length name.rest.now ≤ length out.old }
    ensures { (is_name : List ℕ → Bool) → Gives (spec.all_parts (flags_of flags) is_name name.entry.from (prefix name.entry.rest.now name.entry.parts name.entry.from) (cell_at name.entry.rest.now name.entry.end) name.entry.end) (name.entry.end + 1) out.old result out.new }
{
    let k = parts::write_parts(name.rest, name.from, name.parts, true, out);
    let joined = Outcome {
        read: Ok(Token::Chars(TokenType::Name, k)),
        used: name.end,
        flags,
        reach: name.end + 1,
    };
    if is_type(&out[..k], flags) {
        return Outcome {
            read: Ok(Token::Chars(TokenType::BuiltInTypeName, k)),
            flags: flags.clear(Flag::TypeName),
            ..joined
        };
    }
    if is_temporal(&out[..k], name.rest, name.end) {
        return Outcome {
            read: Ok(Token::Chars(TokenType::NameDateTime, k)),
            ..joined
        };
    }
    joined
}

// By the longest prefix found. A property match clears `after_dot`, a scope match clears nothing.
fn by_prefix(
    name: Name,
    flags: Flags,
    known: &Known,
    out: &mut [u32],
    scratch: &mut [u32],
) -> Outcome
    requires { (length name.rest.now ≤ length out.old) × Searchable name.rest.now scratch.old }
    ensures { Gives (by_prefix_of (flags_of flags) (is_name (sound_scope known.now.scope)) name.entry.rest.now name.entry.from name.entry.parts name.entry.end) (name.entry.end + 1) out.old result out.new
        × (scratch.new ≡ scratch.old) }
{
    let Some(p) = prefix::longest_prefix(name.rest, name.from, name.parts, flags, known, scratch)
    else {
        return all_parts(name, flags, out);
    };
    let after = match p.found {
        Found::Property => flags.clear(Flag::AfterDot),
        Found::Name => flags,
    };
    cut_at(name, p.parts, after, out)
}

// All parts before a colon, else by the longest prefix.
fn by_colon(
    name: Name,
    flags: Flags,
    known: &Known,
    out: &mut [u32],
    scratch: &mut [u32],
) -> Outcome
    requires { (length name.rest.now ≤ length out.old) × Searchable name.rest.now scratch.old }
    ensures { Gives (by_in_of (flags_of flags) (is_name (sound_scope known.now.scope)) name.entry.rest.now name.entry.from name.entry.parts name.entry.end None) (name.entry.end + 1) out.old result out.new
        × (scratch.new ≡ scratch.old) }
{
    if lexer::look::is_at(name.rest, name.end, Char::COLON) {
        return named(name, name.parts, name.end, flags, out);
    }
    by_prefix(name, flags, known, out, scratch)
}

// Under `till_in` the parts before `in`, of which there must be one.
fn by_in(name: Name, flags: Flags, known: &Known, out: &mut [u32], scratch: &mut [u32]) -> Outcome
    requires { (length name.rest.now ≤ length out.old) × Searchable name.rest.now scratch.old }
    ensures { Gives (cut_in_of (flags_of flags) (is_name (sound_scope known.now.scope)) name.entry.rest.now name.entry.from name.entry.parts name.entry.end) (name.entry.end + 1) out.old result out.new
        × (scratch.new ≡ scratch.old) }
{
    if !flags.till_in {
        return by_colon(name, flags, known, out, scratch);
    }
    match before_in(name) {
        None => by_colon(name, flags, known, out, scratch),
        Some(0) => Outcome {
            read: Err(Refused {
                refusal: Refusal::StartsWithIn,
                carry: 0,
            }),
            used: name.from,
            flags,
            reach: name.end + 1,
        },
        Some(m) => cut_at(name, m, flags.clear(Flag::TillIn), out),
    }
}

// The name that begins at i, with a name character. Scratch is found and left zero.
// Ruled out, among others: the fallback name with no prefix tried; a name cut one part too long.
pub fn read_name(
    rest: &[u32],
    i: usize,
    flags: Flags,
    known: &Known,
    out: &mut [u32],
    scratch: &mut [u32],
) -> Outcome
    requires { (length rest.now ≤ max_chars) × (holds is_name_part (cell_at rest.now i) ≡ true) × (length rest.now ≤ length out.old) × Searchable rest.now scratch.old }
    ensures { Takes rest.now 0 (spec.read_name fuel (flags_of flags) (is_name (sound_scope known.now.scope)) i) out.old result out.new
        × (scratch.new ≡ scratch.old) }
{
    let walked = parts::count_parts(rest, i);
    let name = Name {
        rest,
        from: i,
        parts: walked.parts,
        end: walked.end,
    };
    if next_is(rest, i, b"item") {
        return cut_at(name, 1, flags, out);
    }
    by_in(name, flags, known, out, scratch)
}
