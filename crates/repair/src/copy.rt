// Old items written again, moved by an edit, behind those that are written already.
ghost use Rattle.std.specs.Prelude.{◌≡◌, ◌+◌, ◌≤◌, ◌<◌, length, set};
ghost use Rattle.text.specs.Limits.{max_chars};
ghost use Rattle.runs.specs.Record.{item_of, store_of};
ghost use Rattle.runs.specs.Edit.{moved_item};
ghost use Rattle.runs.specs.Copied.{edit_of, moved_row, moved_items, Movable, Copyable, Copied, Behind};
ghost use Rattle.runs.specs.Lending.{Returned};

use runs::call::Counts;
use runs::edit::Edit;
use runs::item::{Item, Row};
use runs::record::Record;
use runs::room::Room;

// Writes a row to the place `at`, with another position, reach and value start.
pub fn put_moved(rows: &mut [Row], at: usize, row: Row, position: usize, reach: usize, start: usize)
    requires { (at < length rows.old) × (position < 4_294_967_296) × (reach < 4_294_967_296) × (start < 4_294_967_296) }
    ensures { rows.new ≡ set rows.old at (moved_row row position reach start) }
{
    let mut again = row;
    again[Item::POSITION] = position as u32;
    again[Item::REACH] = reach as u32;
    again[Item::START] = start as u32;
    rows[at] = again;
}

// Writes an old item again, moved: its row behind the last one, its value behind the last value.
fn copy_item(row: Row, old_store: &[u32], e: Edit, at: Counts, room: &mut Room) -> Counts
    requires { Movable (edit_of e) (length old_store.now) row × (at.items < length room.old.rows.now) × (at.cells ≤ max_chars)
        × (at.cells + length (item_of old_store.now row).value ≤ length room.old.store.now) }
    ensures copied { Copied (moved_item (edit_of e) (item_of old_store.now row)) at.items at.cells room.old.rows.now room.old.store.now result.items result.cells room.new.rows.now room.new.store.now }
    ensures back { Returned room.old room.new }
{
    let position = e.moved(row[Item::POSITION] as usize);
    let reach = e.moved(row[Item::REACH] as usize);
    put_moved(room.rows, at.items, row, position, reach, at.cells);
    let start = row[Item::START] as usize;
    let value = &old_store[start..start + row[Item::LENGTH] as usize];
    let cells = at.cells + value.len();
    room.store[at.cells..cells].copy_from_slice(value);
    Counts {
        items: at.items + 1,
        cells,
    }
}

// Writes the items of an old record again, moved, behind those that are written.
// Ruled out, among others: value starts as they were in the old store; a reach that stays where its position moves.
pub fn copy_items(old: Record, e: Edit, written: Counts, room: &mut Room) -> Counts
    requires { Copyable (edit_of e) old.rows.now old.store.now
        × (written.items + length old.rows.now ≤ length room.old.rows.now) × (written.cells + length (store_of (moved_items (edit_of e) old.rows.now old.store.now)) ≤ max_chars)
        × (written.cells + length (store_of (moved_items (edit_of e) old.rows.now old.store.now)) ≤ length room.old.store.now) }
    ensures behind { Behind written.items written.cells room.old.rows.now room.old.store.now (moved_items (edit_of e) old.entry.rows.now old.entry.store.now) result.items result.cells room.new.rows.now room.new.store.now }
    ensures back { Returned room.old room.new }
{
    let mut at = written;
    for row in old.rows {
        at = copy_item(*row, old.store, e, at, room);
    }
    at
}
