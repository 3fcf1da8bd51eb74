// The items that an edit leaves as they were: those before the first that looked behind its place.
ghost use Rattle.std.specs.Prelude.{◌≡◌, leb, length, slice_index};
ghost use Rattle.std.specs.List.{take_while};
ghost use Rattle.runs.specs.Record.{reach_at};
ghost use Rattle.repair.specs.Asking.{PartStart};

use runs::item::{Item, Row};

// How many rows stand before the first whose reach is over `from`.
// Ruled out, among others: a row behind that one counted, too; a row that reaches exactly to `from` left out.
pub fn count_kept(rows: &[Row], from: usize) -> usize
    ensures { result ≡ length (take_while (λ row. leb (slice_index row reach_at) from) rows.now) }
{
    rows.iter()
        .take_while(|row| row[Item::REACH] as usize <= from)
        .count()
}

// The position of the last kept row, where the new text part begins.
pub fn part_start(rows: &[Row], from: usize) -> usize
    ensures { PartStart from rows.now result }
{
    match rows[..count_kept(rows, from)].last() {
        Some(row) => row[Item::POSITION] as usize,
        None => 0,
    }
}
