// What is lent, filled with one number or letter, and longer than the limits ask for.
ghost use Rattle.std.specs.Prelude.{◌≡◌, ◌+◌, ◌*◌, min, length, take, replicate};
ghost use Rattle.text.specs.Limits.{max_chars, max_bytes};
ghost use Rattle.scope.specs.Limits.{max_entries, max_parsed, max_name};

use runs::item::Item;
use scope::scope::{Scope, Slot};
use text::utf8::Text;

// What output, rows, store, scratch and the rows of a scope are filled with before a call.
pub const FILL: u32 = 7;

// Each contract says the length, too: lending asks for it.
pub fn slots() -> [[u32; Slot::NUMBERS]; Scope::ROWS]
    ensures { (max_entries + max_parsed ≡ length result) × (result ≡ replicate (max_entries + max_parsed) (replicate 4 7)) }
{
    [[FILL; Slot::NUMBERS]; Scope::ROWS]
}

pub fn names() -> [[u32; Scope::MAX_NAME]; Scope::ROWS]
    ensures { (max_entries + max_parsed ≡ length result) × (result ≡ replicate (max_entries + max_parsed) (replicate max_name 7)) }
{
    [[FILL; Scope::MAX_NAME]; Scope::ROWS]
}

// One row more than the longest record has.
pub fn rows() -> [[u32; Item::NUMBERS]; Text::MAX_CHARS + 3]
    ensures { (max_chars + 3 ≡ length result) × (result ≡ replicate (max_chars + 3) (replicate 11 7)) }
{
    [[FILL; Item::NUMBERS]; Text::MAX_CHARS + 3]
}

// Scratch for a text that is longer by one than the limit.
pub fn cells() -> [u32; 2 * Text::MAX_CHARS + 2]
    ensures { (2 * max_chars + 2 ≡ length result) × (result ≡ replicate (2 * max_chars + 2) 7) }
{
    [FILL; 2 * Text::MAX_CHARS + 2]
}

// A text of one character alone, longer by one than the limit.
pub fn text(c: u32) -> [u32; Text::MAX_CHARS + 1]
    ensures { (max_chars + 1 ≡ length result) × (result ≡ replicate (max_chars + 1) c) }
{
    [c; Text::MAX_CHARS + 1]
}

// Bytes `a`, one more than the limit.
pub fn bytes() -> [u8; Text::MAX_BYTES + 1]
    ensures { (max_bytes + 1 ≡ length result) × (result ≡ replicate (max_bytes + 1) 0x61) }
{
    [b'a'; Text::MAX_BYTES + 1]
}

// The first n elements, or all where there are fewer.
pub fn front<T>(s: &[T], n: usize) -> &[T]
    ensures { result.now ≡ take (min n (length s.now)) s.now }
{
    &s[..n.min(s.len())]
}

pub fn front_mut<T>(s: &mut [T], n: usize) -> &mut [T]
    ensures { result.now ≡ take (min n (length s.old)) s.old }
{
    let end = n.min(s.len());
    &mut s[..end]
}
