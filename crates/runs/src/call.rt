// What run and repair answer, and what both check first.
ghost use Rattle.std.specs.Prelude.{◌≡◌, length, IfOk};
ghost use Rattle.reading.specs.Slices.{zeros};
ghost use Rattle.runs.specs.Ran as ran;
ghost use Rattle.runs.specs.Lending.{lent_of, sound_of};

use crate::room::Room;
use scope::lent::{Lent, Sound};
use text::refusal::Refusal;
use text::utf8::Text;

// How many rows and value cells a record has.
#[derive(Clone, Copy)]
pub struct Counts {
    pub items: usize,
    pub cells: usize,
}

// Sets all of scratch to 0.
pub fn clear(scratch: &mut [u32])
    ensures { scratch.new ≡ zeros (length scratch.old) }
{
    scratch.fill(0);
}

// The scope that was lent, unless a text of n characters is refused. A token call checks a position, too, and no rows.
// Ruled out, among others: a short slice told before a broken scope; a record as long as the text, with no row for the start item.
pub fn checked<'a>(n: usize, scope: Lent<'a>, room: &Room<'_>) -> Result<Sound<'a>, Refusal>
    ensures answer { ran.number result ≡ ran.refusal (lent_of scope.entry) n (length room.now.rows.now) (length room.now.store.now) (length room.now.scratch.now) }
    ensures scope { IfOk result (λ s. sound_of s ≡ lent_of scope.entry) }
{
    if Text::MAX_CHARS < n {
        return Err(Refusal::TooLong);
    }
    let sound = scope.checked()?;
    if room.rows.len() < n + 2 || room.store.len() < n || room.scratch.len() < 2 * n {
        return Err(Refusal::ShortSlice);
    }
    Ok(sound)
}
