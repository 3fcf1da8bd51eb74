// The record program's work, from bytes to bytes: what is left to the program is reading and writing.
ghost use Rattle.std.specs.Prelude.{◌≡◌, ℕ, ◌≤◌, ◌<◌, length, get_or};
ghost use Rattle.reading.specs.Slices.{front, Wrote};
ghost use Rattle.runs.specs.Print as spec;
ghost use Rattle.printing.specs.Room.{max_printed};

use crate::output::Output;
use crate::printed;

// 01: the record program takes up to 2,048 bytes.
pub const MAX_INPUT: usize = 2_048;

// All that can be printed has room in so many bytes.
pub const MAX_PRINTED: usize = 137_328;

// Writes cells, each a byte, to the front of out.
fn put_bytes(cells: &[u32], out: &mut [u8])
    requires { (length cells.now ≤ length out.old) × ((i : ℕ) → i < length cells.now → get_or cells.now i 0 < 256) }
    ensures { out.new ≡ front cells.now out.old }
{
    for (i, cell) in cells.iter().enumerate() {
        out[i] = *cell as u8;
    }
}

// Writes all that the record program prints for some bytes to the front of out, and answers how many bytes that is.
// Ruled out, among others: hexadecimal in lower case; a character that no byte holds.
pub fn print(bytes: &[u8], out: &mut [u8]) -> usize
    requires { max_printed ≤ length out.old }
    ensures { Wrote out.old (spec.printed bytes.now) result out.new }
{
    let mut output = Output::new();
    printed::put_printed(bytes, &mut output);
    let cells = output.cells();
    put_bytes(cells, out);
    cells.len()
}
