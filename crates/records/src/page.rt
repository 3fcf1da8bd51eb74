// A short record's items by value, for callers that lend none.
ghost use Rattle.records.specs.Stored.{row_from};
ghost use Rattle.records.specs.Items.{Copies, Paged};

use crate::items;
use crate::stored::Stored;
use runs::item::Row;
use text::refusal::Refusal;

// The items of a short record, and blank ones behind them.
#[derive(Clone, Copy)]
pub struct Page {
    pub items: [Stored; Page::ITEMS],
}

impl Page {
    pub const ITEMS: usize = 32;
}

// The items of at most 32 rows: more rows are refused.
// Ruled out, among others: a page of the first rows where there are more; a blank page.
pub fn page_of(rows: &[Row]) -> Result<Page, Refusal>
    ensures { Paged rows.now result }
{
    let mut items = [Stored::default(); Page::ITEMS];
    items::read_items(rows, &mut items)?;
    Ok(Page { items })
}

// Writes the items of a page to the front of the rows; too few rows are refused, and all of them stay.
// Ruled out, among others: a refused call that has written to the rows; the last item left out.
pub fn rows_of(p: Page, rows: &mut [Row]) -> Result<(), Refusal>
    ensures { Copies row_from p.items rows.old result rows.new }
{
    items::write_items(&p.items, rows)
}
