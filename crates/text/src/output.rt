// Cells written one behind the other to a lent slice.
ghost use Rattle.std.specs.Prelude.{[], ◌∷◌, ◌+◌, ◌≤◌, ◌<◌, length};
ghost use Rattle.text.specs.Output.{Adds};

// The first `len` cells are written. Its cells go back to who lent them, so its contract tells of them, where printing's output, which owns its room, is the list that it holds.
#[derive(Drop)]
pub struct Output<'a> {
    pub cells: &'a mut [u32],
    pub len: usize,
}

impl<'a> Output<'a> {
    // Writes one cell.
    pub fn push(&mut self, c: u32)
        requires { self.old.len < length self.old.cells.now }
        ensures { Adds self.old (c ∷ []) self.new }
    {
        self.cells[self.len] = c;
        self.len += 1;
    }

    // Writes the cells. Most pieces of a number are empty or one cell, which a copy takes more steps for.
    pub fn append(&mut self, cells: &[u32])
        requires { self.old.len + length cells.now ≤ length self.old.cells.now }
        ensures { Adds self.old cells.now self.new }
    {
        match cells {
            [] => {}
            [c] => self.push(*c),
            _ => {
                let end = self.len + cells.len();
                self.cells[self.len..end].copy_from_slice(cells);
                self.len = end;
            }
        }
    }
}
