// A lent slice of stored items: the thin reader, which has them of rows, and the thin writer, which has rows of them.
ghost use Rattle.records.specs.Stored.{stored_of, row_from};
ghost use Rattle.records.specs.Items.{CopiesBy, Copies};

use crate::stored::Stored;
use runs::item::Row;
use text::refusal::Refusal;

// Writes what is made of all values to the front of `to`. Too few places are refused, and all of them stay.
fn copy<A: Copy, B: From<A> + Copy>(from: &[A], to: &mut [B]) -> Result<(), Refusal>
    ensures { CopiesBy B.from_gives from.now to.old result to.new }
{
    if to.len() < from.len() {
        return Err(Refusal::ShortSlice);
    }
    for (i, x) in from.iter().enumerate() {
        to[i] = B::from(*x);
    }
    Ok(())
}

// Reads all rows: their items fill the front of the items. Too few items are refused, and all of them stay.
// Ruled out, among others: as many rows read as there are items, where these are too few; the last row left out.
pub fn read_items(rows: &[Row], items: &mut [Stored]) -> Result<(), Refusal>
    ensures { Copies stored_of rows.now items.old result items.new }
{
    copy(rows, items)
}

// Writes all items: their rows fill the front of the rows. Too few rows are refused, and all of them stay.
// Ruled out, among others: a refused call that has written to the rows; a row behind them touched.
pub fn write_items(items: &[Stored], rows: &mut [Row]) -> Result<(), Refusal>
    ensures { Copies row_from items.now rows.old result rows.new }
{
    copy(items, rows)
}
