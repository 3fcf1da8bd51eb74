// String literals, in two passes: the first reads without writing, so that a string that breaks off has written nothing.
ghost use Rattle.std.specs.Prelude.{◌≡◌, ◌||◌, List, ℕ, ◌+◌, ◌-◌, ◌*◌, ◌≤◌, ◌<◌, eqb, length};
ghost use Rattle.std.specs.List.{FoldsTo};
ghost use Rattle.text.specs.Limits.{max_chars};
ghost use Rattle.lexer.specs.Text as spec;
ghost use Rattle.lexer.specs.Pieces.{is_plain, Hexed, Pieced, At, Inside, Handed, Written};

use text::chars::Char;
use text::classes::{Class, VerticalSpace};
use text::refusal::Refusal;

// The halves of pairs, each with ten bits of the character, the first character that takes a pair, and the last of all.
const FIRST_HALF: u32 = 0xD800;

const LAST_FIRST_HALF: u32 = 0xDBFF;

const SECOND_HALF: u32 = 0xDC00;

const LAST_SECOND_HALF: u32 = 0xDFFF;

const HALVES: u32 = 0x400;

const FIRST_PAIRED: u32 = 0x10000;

const LAST_SCALAR: u32 = 0x10FFFF;

// Why a string is refused, what the refusal carries, its place and its reach.
#[derive(Clone, Copy)]
pub struct Broken {
    pub refusal: Refusal,
    pub carry: u32,
    pub place: usize,
    pub reach: usize,
}

// The value of `count` digits from `from` on, 4 or 6.
fn read_hex(rest: &[u32], from: usize, count: usize) -> Result<u32, Broken>
    requires { (count ≤ 6) × (from ≤ length rest.now) }
    ensures { Hexed rest.now from count result }
{
    let mut value = 0;
    for at in from..from + count {
        let Some(c) = rest.get(at) else {
            return Err(Broken {
                refusal: Refusal::EndAtHexDigit,
                carry: 0,
                place: at,
                reach: at + 1,
            });
        };
        let Some(digit) = text::hex::hex_to_decimal(*c) else {
            return Err(Broken {
                refusal: Refusal::NoHexDigit,
                carry: *c,
                place: at,
                reach: at + 1,
            });
        };
        value = value * 16 + digit;
    }
    Ok(value)
}

// A character and the place behind it; or where the quote, a line's end or the text's end stands.
#[derive(Clone, Copy)]
pub enum Piece {
    Char(u32, usize),
    Quote(usize),
    LineEnd(usize),
    TextEnd(usize),
}

// How many digits follow the letter of an escape.
fn digit_count(x: u32) -> usize
    ensures { (result ≡ spec.digit_count x) × (0 < result) × (result ≤ 6) }
{
    if Char::CAPITAL_U == x { 6 } else { 4 }
}

// The character of a pair: ten bits of each half.
fn paired(h: u32, l: u32) -> u32
    requires { (0xD800 ≤ h) × (h ≤ 0xDBFF) × (0xDC00 ≤ l) × (l ≤ 0xDFFF) }
    ensures { result ≡ 0x10000 + (h - 0xD800) * 0x400 + (l - 0xDC00) }
{
    FIRST_PAIRED + (h - FIRST_HALF) * HALVES + l % HALVES
}

// The second half of a pair, whose first half is h and ended at i.
fn read_second_half(rest: &[u32], h: u32, i: usize) -> Result<Piece, Broken>
    requires { (i ≤ length rest.now) × (0xD800 ≤ h) × (h ≤ 0xDBFF) }
    ensures { Pieced rest.now i (λ _. spec.read_second_half h i) i result }
{
    let Some(letter) = rest.get(i + 1) else {
        return Err(Broken {
            refusal: Refusal::EndAtSecondHalf,
            carry: 0,
            place: i,
            reach: i + 2,
        });
    };
    let n = digit_count(*letter);
    let l = read_hex(rest, i + 2, n)?;
    let end = i + 2 + n;
    if l < SECOND_HALF || LAST_SECOND_HALF < l {
        return Err(Broken {
            refusal: Refusal::NoSecondHalf,
            carry: l,
            place: end,
            reach: end,
        });
    }
    Ok(Piece::Char(paired(h, l), end))
}

// An escape with n digits from i on.
fn read_unicode(rest: &[u32], i: usize, n: usize) -> Result<Piece, Broken>
    requires { (i ≤ length rest.now) × (0 < n) × (n ≤ 6) }
    ensures { Pieced rest.now i (λ _. spec.read_unicode n i) i result }
{
    let v = read_hex(rest, i, n)?;
    let end = i + n;
    if v < FIRST_HALF {
        return Ok(Piece::Char(v, end));
    }
    if v <= LAST_FIRST_HALF {
        return read_second_half(rest, v, end);
    }
    if v <= LAST_SECOND_HALF || LAST_SCALAR < v {
        return Err(Broken {
            refusal: Refusal::NoScalarValue,
            carry: v,
            place: end,
            reach: end,
        });
    }
    Ok(Piece::Char(v, end))
}

// What a plain escape stands for.
fn plain_escape(c: u32) -> Option<u32>
    ensures { result ≡ spec.plain_escape c }
{
    match c {
        Char::APOSTROPHE | Char::QUOTE | Char::BACKSLASH => Some(c),
        Char::SMALL_N => Some(Char::LINE_FEED),
        Char::SMALL_R => Some(Char::CARRIAGE_RETURN),
        Char::SMALL_T => Some(Char::TAB),
        _ => None,
    }
}

fn is_unicode_letter(c: u32) -> bool
    ensures { result ≡ eqb 0x75 c || eqb 0x55 c }
{
    Char::SMALL_U == c || Char::CAPITAL_U == c
}

// An escape whose backslash stands at i and whose letter is c.
fn read_escape(rest: &[u32], c: u32, i: usize) -> Result<Piece, Broken>
    requires { i + 2 ≤ length rest.now }
    ensures { Pieced rest.now (i + 2) (λ _. spec.read_escape c i) i result }
{
    if let Some(p) = plain_escape(c) {
        return Ok(Piece::Char(p, i + 2));
    }
    if is_unicode_letter(c) {
        return read_unicode(rest, i + 2, digit_count(c));
    }
    Ok(Piece::Char(Char::BACKSLASH, i + 1))
}

// The piece of a string's inside at i.
fn read_piece(rest: &[u32], i: usize) -> Result<Piece, Broken>
    requires { i ≤ length rest.now }
    ensures { At rest.now i result }
{
    let Some(c) = rest.get(i) else {
        return Ok(Piece::TextEnd(i));
    };
    if Char::BACKSLASH == *c {
        return match rest.get(i + 1) {
            Some(letter) => read_escape(rest, *letter, i),
            None => Ok(Piece::Char(Char::BACKSLASH, i + 1)),
        };
    }
    if Char::QUOTE == *c {
        return Ok(Piece::Quote(i + 1));
    }
    if VerticalSpace::has(*c) {
        return Ok(Piece::LineEnd(i));
    }
    Ok(Piece::Char(*c, i + 1))
}

// A character that stands for itself, as most do.
struct Plain;

impl Class for Plain {
    ghost class = { is_plain };

    #[tactic(auto, unfolding(crate::specs::Pieces::is_plain))]
    fn has(c: u32) -> bool {
        !(Char::BACKSLASH == c || Char::QUOTE == c || VerticalSpace::has(c))
    }
}

// How many characters a string has and where it ends; or where a line's end or the text's end broke it off, as a piece tells it.
#[derive(Clone, Copy)]
pub enum Literal {
    Chars(usize, usize),
    LineEnds(usize),
    TextEnds(usize),
}

// Goes through the string whose inside starts at `from`, and hands on its characters one by one.
#[inline(always)]
fn each_char<F: FnMut(u32)>(rest: &[u32], from: usize, take: &mut F) -> Result<Literal, Broken>
    requires fits { (length rest.now ≤ max_chars) × (from ≤ length rest.now) }
    requires takes { (cells : List ℕ) (f : F) (c : ℕ) → FoldsTo (λ p x q. F.step p x tt q) take.old cells f → length cells < length rest.now → F.pre f c }
    ensures { Handed (λ p x q. F.step p x tt q) rest.now from take.old result take.new }
{
    let mut i = from;
    let mut n = 0;
    loop {
        let (c, end) = match rest.get(i) {
            Some(c) if Plain::has(*c) => (*c, i + 1),
            _ => match read_piece(rest, i)? {
                Piece::Char(c, end) => (c, end),
                Piece::Quote(end) => return Ok(Literal::Chars(n, end)),
                Piece::LineEnd(end) => return Ok(Literal::LineEnds(end)),
                Piece::TextEnd(end) => return Ok(Literal::TextEnds(end)),
            },
        };
        take(c);
        i = end;
        n += 1;
    }
}

// The string whose inside starts at `from`, without writing it.
// Ruled out, among others: a lone half taken for a character; the reach of an escape's end taken for the quote's.
pub fn read_string(rest: &[u32], from: usize) -> Result<Literal, Broken>
    requires { (length rest.now ≤ max_chars) × (from ≤ length rest.now) }
    ensures { Inside rest.now from result }
{
    each_char(rest, from, &mut |_| ())
}

// Writes the characters of the string whose inside starts at `from` to the front of out, if it is one.
pub fn write_string(rest: &[u32], from: usize, out: &mut [u32]) -> usize
    requires { (length rest.now ≤ max_chars) × (from ≤ length rest.now) × (length rest.now ≤ length out.old) }
    ensures { Written rest.now from out.old result out.new }
{
    let mut n = 0;
    let _ = each_char(
        rest,
        from,
        &mut |c| {
            out[n] = c;
            n += 1;
        },
    );
    n
}
