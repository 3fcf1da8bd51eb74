// A record printed.
use crate::lent::FILL;
use crate::told::{Front, Refused};
use crate::{filled, told};
use runs::call::Counts;
use runs::item::Row;
use std::io;
use text::refusal::Refusal;

// The numbers of a row, each behind a space.
fn row(rt: &impl Print, numbers: &Row) -> io::Result<()> {
    for n in numbers {
        print!(rt; " {n}")?;
    }
    println!(rt)
}

// The answer for rows and a store that were filled before the call; whether scratch is zero after it.
pub fn answer(
    rt: &impl Print,
    r: Result<Counts, Refusal>,
    all: &[Row],
    store: &[u32],
    zero: bool,
) -> io::Result<()> {
    let scratch = told::cleared(zero);
    let Counts { items, cells } = match r {
        Ok(counts) => counts,
        Err(refusal) => {
            let rows = told::kept(filled::are_filled(all, 0, FILL));
            let values = told::kept(filled::is_filled(store, 0, FILL));
            let refused = Refused(refusal);
            return println!(rt; "{refused}; rows {rows}, store {values}, {scratch}");
        }
    };
    let values = Front(store, cells, "in number");
    let rest = told::kept(filled::are_filled(all, items, FILL));
    let behind = told::kept(filled::is_filled(store, cells, FILL));
    println!(rt;
        "rows {items}, values{values}; rest of rows {rest}, rest of store {behind}, {scratch}"
    )?;
    for numbers in all.iter().take(items) {
        row(rt, numbers)?;
    }
    Ok(())
}
