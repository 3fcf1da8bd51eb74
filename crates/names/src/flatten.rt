// Flattening, in place: one pass a symbol.
ghost use Rattle.std.specs.Prelude.{◌≡◌, ◌≤◌, length};
ghost use Rattle.std.specs.List.{list_any};
ghost use Rattle.text.specs.Classes.{is_symbol};
ghost use Rattle.names.specs.Flatten.{flat};
ghost use Rattle.names.specs.Spelling.{spaced, Tightened, Left};

use crate::trim::{trim_back, trim_front};
use text::chars::Char;
use text::classes::{Class, Symbol};

// The symbols, in the order of their passes.
static SYMBOLS: [u32; 6] = [
    Char::DOT,
    Char::SLASH,
    Char::MINUS,
    Char::APOSTROPHE,
    Char::PLUS,
    Char::STAR,
];

// Whether the cells begin with a space, s and a space.
fn is_spaced(s: u32, cells: &[u32]) -> bool
    ensures { result ≡ spaced s cells.now }
{
    matches!(cells, [Char::SPACE, c, Char::SPACE, ..] if *c == s)
}

// Writes the cells from `from` on to the front, each " s " made s from left to right; answers how many they are then.
// In place: what is written lags behind what is read, so the two places are counted.
// Ruled out, among others: a space left before the symbol; a pass that starts over behind each match.
pub fn tighten(s: u32, cells: &mut [u32], from: usize) -> usize
    requires { from ≤ length cells.old }
    ensures { Tightened s cells.old from (length cells.old) result cells.new }
{
    let mut i = from;
    let mut k = 0;
    while i < cells.len() {
        if is_spaced(s, &cells[i..]) {
            cells[k] = s;
            i += 3;
        } else {
            cells[k] = cells[i];
            i += 1;
        }
        k += 1;
    }
    k
}

fn has_symbol(cells: &[u32]) -> bool
    ensures { result ≡ list_any is_symbol cells.now }
{
    cells.iter().any(|c| Symbol::has(*c))
}

// Makes the cells, parts joined by spaces, flat; answers how many they are then.
// Ruled out, among others: the whole not trimmed; one pass forgotten, or passes in another order.
pub fn flatten(cells: &mut [u32]) -> usize
    ensures { Left cells.old (flat cells.old) (length cells.old) result cells.new }
{
    let front = trim_front(cells);
    let mut from = cells.len() - front.len();
    let mut end = from + trim_back(front).len();
    // Most names have no symbol, and are flat as they are.
    if from == 0 && !has_symbol(&cells[..end]) {
        return end;
    }
    for s in &SYMBOLS {
        end = tighten(*s, &mut cells[..end], from);
        from = 0;
    }
    end
}
