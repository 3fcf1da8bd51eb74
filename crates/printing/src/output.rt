// The characters printed so far. `Display` promises its text only where writing succeeds; this has room for all, and cannot fail.
ghost use Rattle.std.specs.Prelude.{◌≡◌, [], ◌∷◌, ◌++◌, ◌+◌, ◌≤◌, ◌<◌, length, take, List, ℕ};
ghost use Rattle.printing.specs.Room.{max_printed};

use crate::print::MAX_PRINTED;
use std::marker::Model;

// Room for all that can be printed, and how much of it is used.
#[derive(Drop)]
pub struct Output {
    cells: [u32; MAX_PRINTED],
    used: usize,
}

impl Model for Output {
    ghost Value = { List ℕ };

    ghost view = { λ o. take o.used o.cells };

    ghost invariant = { λ o. o.used ≤ max_printed };
}

impl Output {
    pub fn new() -> Output
        ensures { result ≡ [] }
    {
        Output {
            cells: [0; MAX_PRINTED],
            used: 0,
        }
    }

    // Ruled out, among others: the cell over the one before it; a cell written and not counted.
    pub fn push(&mut self, cell: u32)
        requires { length self.old < max_printed }
        ensures { self.new ≡ self.old ++ cell ∷ [] }
    {
        self.cells[self.used] = cell;
        self.used += 1;
    }

    // Ruled out, among others: a word without its last character; one written from place 0 on.
    pub fn append(&mut self, word: &[u32])
        requires { length self.old + length word.now ≤ max_printed }
        ensures { self.new ≡ self.old ++ word.now }
    {
        let end = self.used + word.len();
        self.cells[self.used..end].copy_from_slice(word);
        self.used = end;
    }

    pub fn cells(&self) -> &[u32]
        ensures value { result.now ≡ self.now }
        ensures fits { length self.now ≤ max_printed }
    {
        &self.cells[..self.used]
    }
}
