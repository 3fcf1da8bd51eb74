// How much of a text is no white space.
ghost use Rattle.std.specs.Prelude.{◌≡◌, ◌≤◌, length};
ghost use Rattle.names.specs.Ink.{ink};

use text::classes::{Class, White};

// How many of the cells are no white space.
#[tactic(auto, using(crate::proofs::InkLaws::ink_counts))]
pub fn ink_of(cells: &[u32]) -> usize
    ensures ink { result ≡ ink cells.now }
    ensures within { result ≤ length cells.now }
{
    cells.iter().filter(|c| !White::has(**c)).count()
}
