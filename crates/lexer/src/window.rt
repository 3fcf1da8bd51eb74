// The window: twelve characters from a place on, whitespace and the text's end shown as a space.
ghost use Rattle.std.specs.Prelude.{◌≡◌, ◌≤◌, length};
ghost use Rattle.reading.specs.Look.{cell_at};
ghost use Rattle.text.specs.Ranges.{to, within};
ghost use Rattle.lexer.specs.Window.{shown};
ghost use Rattle.lexer.specs.Shown.{window_of};

use std::array;
use text::chars::Char;
use text::classes::{Class, Whitespace};

// From the space up to here a window shows every character as it stands.
const LAST_PLAIN: u32 = 0x84;

fn is_plain(c: u32) -> bool
    ensures { result ≡ within (to 0x20 0x84) c }
{
    (Char::SPACE..=LAST_PLAIN).contains(&c)
}

// The character at i as the window shows it.
pub fn shown_at(rest: &[u32], i: usize) -> u32
    ensures { result ≡ shown (cell_at rest.now i) }
{
    match rest.get(i) {
        Some(c) if is_plain(*c) || !Whitespace::has(*c) => *c,
        _ => Char::SPACE,
    }
}

// The window that begins at i, shown character by character.
fn by_characters(rest: &[u32], i: usize) -> [u32; 12]
    requires { i ≤ length rest.now }
    ensures { result ≡ window_of 12 rest.now i }
{
    array::from_fn(|j| shown_at(rest, i + j))
}

// The window that begins at i: most are a copy of the text, made and tested in few steps.
// Ruled out, among others: a tab shown as itself; the window cut off where the text ends.
pub fn window(rest: &[u32], i: usize) -> [u32; 12]
    requires { i ≤ length rest.now }
    ensures { result ≡ window_of 12 rest.now i }
{
    match rest[i..].first_chunk::<12>() {
        Some(w) if w.iter().all(|c| is_plain(*c)) => *w,
        _ => by_characters(rest, i),
    }
}
