// Looks at cells: whether one is there and of a class, and how far a class goes on.
ghost use Rattle.std.specs.Prelude.{◌≡◌, ◌≤◌, length, take_while};
ghost use Rattle.reading.specs.Look.{cell_at};
ghost use Rattle.reading.specs.Cells.{holds, is};
ghost use Rattle.reading.proofs.Passed.{Passed};

use text::classes::Class;

#[inline]
pub fn is_at(rest: &[u32], i: usize, x: u32) -> bool
    ensures { result ≡ is x (cell_at rest.now i) }
{
    rest.get(i).is_some_and(|c| x == *c)
}

// Ruled out, among others: the end taken for a cell of the class.
#[inline]
pub fn holds_at<C: Class>(rest: &[u32], i: usize) -> bool
    ensures { result ≡ holds C.class (cell_at rest.now i) }
{
    rest.get(i).is_some_and(|c| C::has(*c))
}

// How many cells of the class stand at the front.
#[inline]
fn count<C: Class>(cells: &[u32]) -> usize
    ensures { result ≡ length (take_while C.class cells.now) }
{
    cells.iter().take_while(|c| C::has(**c)).count()
}

// The end of the cells of the class that start at i.
// Ruled out, among others: the first cell of another class passed, too.
#[inline]
pub fn end_of<C: Class>(rest: &[u32], i: usize) -> usize
    requires { i ≤ length rest.now }
    ensures { Passed C.class rest.now i result }
{
    i + count::<C>(&rest[i..])
}
