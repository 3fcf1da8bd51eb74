// Trimming: white space at the ends.
ghost use Rattle.std.specs.Prelude.{◌≡◌, ◌-◌, ◌≤◌, length, take, drop};
ghost use Rattle.names.specs.Trim as spec;

use text::classes::{Class, White};

// The cells without the white space in front.
pub(crate) fn trim_front(cells: &[u32]) -> &[u32]
    ensures value { result.now ≡ spec.trim_front cells.now }
    ensures place { result.now ≡ drop (length cells.now - length result.now) cells.now }
    ensures within { length result.now ≤ length cells.now }
{
    let mut rest = cells;
    while let [c, tail @ ..] = rest
        && White::has(*c)
    {
        rest = tail;
    }
    rest
}

// The cells without the white space at the back: the same by the other end, which no pattern is for both.
pub(crate) fn trim_back(cells: &[u32]) -> &[u32]
    ensures value { result.now ≡ spec.trim_back cells.now }
    ensures place { result.now ≡ take (length result.now) cells.now }
    ensures within { length result.now ≤ length cells.now }
{
    let mut rest = cells;
    while let [front @ .., c] = rest
        && White::has(*c)
    {
        rest = front;
    }
    rest
}

// The cells, trimmed: a stretch of them that begins behind the white space in front.
// Ruled out, among others: white space left at the back; U+180E, which is no White_Space, taken away.
#[tactic(auto, unfolding(crate::specs::Trim::trim))]
pub fn trim(cells: &[u32]) -> &[u32]
    ensures value { result.now ≡ spec.trim cells.now }
    ensures place { result.now ≡ take (length result.now) (drop (length cells.now - length (spec.trim_front cells.now)) cells.now) }
    ensures within { length result.now ≤ length cells.now }
{
    trim_back(trim_front(cells))
}
