// Rows read into items and written from them: a page of them by value, for a program lends no slice of structs. It is `read_items` or `write_items` that is refused.
use crate::lent::FILL;
use crate::told::Refused;
use crate::{filled, lent, told};
use records::page;
use records::page::Page;
use runs::item::{Item, Row};
use std::io;

// A page of the first n rows: the answer, and the types of its first and last item, 0 where no page was read.
fn page_read(rt: &impl Print, rows: &[Row], n: usize) -> io::Result<()> {
    print!(rt; "{n}: ")?;
    match page::page_of(lent::front(rows, n)) {
        Ok(p) => {
            let first = p.items[0].number;
            let last = p.items[Page::ITEMS - 1].number;
            println!(rt; "read; first {first}, last {last}")
        }
        Err(refusal) => println!(rt; "{}; first 0, last 0", Refused(refusal)),
    }
}

// A page written to the first n of rows that were filled before: the types of its ends in the rows, and whether the rows behind it are as before.
fn page_written(rt: &impl Print, p: Page, n: usize) -> io::Result<()> {
    let mut rows = [[FILL; Item::NUMBERS]; Page::ITEMS + 1];
    let written = page::rows_of(p, lent::front_mut(&mut rows, n));
    print!(rt; "{n}: ")?;
    if let Err(refusal) = written {
        let whole = told::kept(filled::are_filled(&rows, 0, FILL));
        return println!(rt; "{}; rows {whole}", Refused(refusal));
    }
    let first = rows[0][Item::NUMBER];
    let last = rows[Page::ITEMS - 1][Item::NUMBER];
    let rest = told::kept(filled::are_filled(&rows, Page::ITEMS, FILL));
    println!(rt; "written; first {first}, last {last}; rest of rows {rest}")
}

// As many rows as a page has items, one less and one more.
static ROWS: [usize; 3] = [Page::ITEMS - 1, Page::ITEMS, Page::ITEMS + 1];

pub fn tried(rt: &impl Print) -> io::Result<()> {
    println!(rt; "Rows read into a page of {} items: rows", Page::ITEMS)?;
    let rows = [[FILL; Item::NUMBERS]; Page::ITEMS + 1];
    for n in &ROWS {
        page_read(rt, &rows, *n)?;
    }
    println!(rt; "A page of {} items written to rows: rows", Page::ITEMS)?;
    if let Ok(p) = page::page_of(&[[5; Item::NUMBERS]; Page::ITEMS]) {
        for n in &ROWS {
            page_written(rt, p, *n)?;
        }
    }
    Ok(())
}
