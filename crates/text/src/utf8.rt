// Bytes to characters, one cell each.
ghost use Rattle.std.specs.Prelude.{◌≡◌, [], ◌∷◌, ◌+◌, ◌≤◌, length, MatchOption, ⊤};
ghost use Rattle.std.specs.List.{list_all};
ghost use Rattle.text.specs.Limits.{max_chars, max_bytes};
ghost use Rattle.text.specs.Ranges.{to, within};
ghost use Rattle.text.specs.Utf8 as spec;
ghost use Rattle.text.specs.Opening.{second_low, second_high, count_of, HasRoom, written_of, answered, opening_of};

use crate::refusal::Refusal;

// An opened text.
#[derive(Clone, Copy, Debug, PartialEq, Eq)]
pub struct Text {
    pub chars: usize,
}

impl Text {
    pub const MAX_CHARS: usize = 16_384;

    pub const MAX_BYTES: usize = 65_536;
}

// The limits, in the order of the definitions.
// Ruled out, among others: a constant that is another number than 01's.
pub fn numbers() -> [usize; 2]
    ensures { result ≡ (max_chars ∷ max_bytes ∷ []) }
{
    [Text::MAX_CHARS, Text::MAX_BYTES]
}

// Why bytes are no text, and the place of a bad sequence.
#[derive(Clone, Copy, Debug, PartialEq, Eq)]
pub struct Refused {
    pub refusal: Refusal,
    pub place: usize,
}

impl Refusal {
    fn at(self, place: usize) -> Refused
        ensures { result ≡ record { refusal = self; place = place } }
    {
        Refused {
            refusal: self,
            place,
        }
    }
}

// How many ones a byte begins with.
fn leading_ones(b: u8) -> usize
    ensures count { result ≡ spec.leading_ones b }
    ensures of_lead { (0xC2 ≤ b) × (b ≤ 0xF4) → (2 ≤ result) × (result ≤ 4) }
{
    b.leading_ones() as usize
}

fn is_continuing(c: u8) -> bool
    ensures { result ≡ within spec.continuing c }
{
    (0x80..=0xBF).contains(&c)
}

fn all_continue(bytes: &[u8]) -> bool
    ensures { result ≡ list_all (within spec.continuing) bytes.now }
{
    bytes.iter().all(|c| is_continuing(*c))
}

// Whether c may stand behind the first byte b of C2 to F4: no overlong form, no surrogate, nothing above U+10FFFF.
fn is_second(b: u8, c: u8) -> bool
    ensures { result ≡ within (to (second_low b) (second_high b)) c }
{
    match b {
        0xE0 => (0xA0..=0xBF).contains(&c),
        0xED => (0x80..=0x9F).contains(&c),
        0xF0 => (0x90..=0xBF).contains(&c),
        0xF4 => (0x80..=0x8F).contains(&c),
        _ => is_continuing(c),
    }
}

// The sequence that begins with a byte b of C2 to F4.
fn read_long(b: u8, rest: &[u8]) -> Option<(u32, usize)>
    requires { (0xC2 ≤ b) × (b ≤ 0xF4) }
    ensures sequence { result ≡ spec.sequence (b ∷ rest.now) }
    ensures within { MatchOption result ⊤ (λ s. (1 ≤ s.1) × (s.1 ≤ length rest.now + 1)) }
{
    let k = leading_ones(b);
    let tail = rest.get(..k - 1)?;
    let (second, others) = tail.split_first()?;
    if !is_second(b, *second) || !all_continue(others) {
        return None;
    }
    let mut c = u32::from(b % (0x80 >> k));
    for d in tail {
        c = c * 64 + u32::from(d % 64);
    }
    Some((c, k))
}

// The character that the bytes begin with, and the length of its sequence. Most are one byte, for which a call would cost more than the answer.
#[inline]
fn read_sequence(bytes: &[u8]) -> Option<(u32, usize)>
    ensures sequence { result ≡ spec.sequence bytes.now }
    ensures within { MatchOption result ⊤ (λ s. (1 ≤ s.1) × (s.1 ≤ length bytes.now)) }
{
    match bytes {
        [b @ ..0x80, ..] => Some((u32::from(*b), 1)),
        [b @ 0xC2..=0xF4, rest @ ..] => read_long(*b, rest),
        _ => None,
    }
}

// How many characters the bytes are, or where the first bad sequence begins.
fn count_chars(bytes: &[u8]) -> Result<usize, usize>
    ensures { result ≡ count_of (spec.decoded bytes.now) }
{
    let mut rest = bytes;
    let mut n = 0;
    while let Some((_, k)) = read_sequence(rest) {
        rest = &rest[k..];
        n += 1;
    }
    if rest.is_empty() {
        Ok(n)
    } else {
        Err(bytes.len() - rest.len())
    }
}

// Writes the characters to the front of the output. What it writes must have been counted before, so the walk is there twice.
fn write_chars(bytes: &[u8], out: &mut [u32])
    requires { HasRoom (spec.decoded bytes.now) (length out.old) }
    ensures { out.new ≡ written_of (spec.decoded bytes.now) out.old }
{
    let mut rest = bytes;
    for cell in out.iter_mut() {
        let Some((c, k)) = read_sequence(rest) else {
            return;
        };
        *cell = c;
        rest = &rest[k..];
    }
}

// Opens bytes as a text. Refused are too many bytes, a bad sequence with the place of the first, too many characters, a short output, in this order.
// Ruled out, among others: an overlong form taken for a character; each character written at its byte's place.
pub fn open_bytes(bytes: &[u8], out: &mut [u32]) -> Result<Text, Refused>
    ensures answer { answered result ≡ opening_of (spec.open_bytes bytes.now (length out.old)) }
    ensures output { out.new ≡ spec.opened_output (spec.open_bytes bytes.now (length out.old)) out.old }
{
    if Text::MAX_BYTES < bytes.len() {
        return Err(Refusal::TooLong.at(0));
    }
    let chars = count_chars(bytes).map_err(|place| Refusal::NotUtf8.at(place))?;
    if Text::MAX_CHARS < chars {
        return Err(Refusal::TooLong.at(0));
    }
    if out.len() < chars {
        return Err(Refusal::ShortSlice.at(0));
    }
    write_chars(bytes, out);
    Ok(Text { chars })
}
