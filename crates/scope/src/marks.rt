// Marks, by which names are told apart.
ghost use Rattle.std.specs.Prelude.{◌≡◌, ◌<◌};
ghost use Rattle.scope.specs.Mark.{mark_of};

// How many marks there are.
pub const MARKS: usize = 8192;

// The mark of a name, the same for names that are the same: names with different marks need not be compared.
pub fn mark(cells: &[u32]) -> usize
    ensures { (result ≡ mark_of cells.now) × (result < MARKS) }
{
    let mut m: usize = 0;
    for c in cells {
        m = (31 * m + *c as usize % MARKS) % MARKS;
    }
    m
}
