// Replays the stored cases: reads them on standard input, one a line, and prints each with the record that the proved run gives.
// oracle/README.md has the text form; the files `stdin` and `stdout` are the oracle's, so the lines are compared with the Rust's.

#![tactic(auto)]

mod record; // record.rt: a record in the text form

use crate::record::TextForm;
use cases::calls;
use cases::fields::Fields;
use lexer::flags::Flags;
use runs::call::Counts;
use runs::item::Item;
use runs::record::Record;
use runs::room::Room;
use scope::lent::Lent;
use scope::scope::{Scope, Slot};
use std::io;
use text::utf8::Text;

// There is room for the stored cases; of a longer input the rest is not read.
const MAX_INPUT: usize = 262_144;

// A case and its record; the case is a line without its end, of whatever bytes.
fn print_case(rt: &impl Print, line: &[u8]) -> io::Result<()> {
    let mut text = [0u32; Text::MAX_CHARS];
    let mut slots = [[0u32; Slot::NUMBERS]; Scope::ROWS];
    let mut names = [[0u32; Scope::MAX_NAME]; Scope::ROWS];
    let mut fields = Fields::new(line);
    fields.next_field();
    let start_type = fields.decimal();
    let flags = Flags::from_bits(fields.decimal());
    let n = fields.cells(&mut text);
    let counts = calls::scope_of(fields, &mut slots, &mut names);
    let mut rows = [[0u32; Item::NUMBERS]; Text::MAX_CHARS + 2];
    let mut store = [0u32; Text::MAX_CHARS];
    let mut scratch = [0u32; 2 * Text::MAX_CHARS];
    let mut room = Room {
        rows: &mut rows,
        store: &mut store,
        scratch: &mut scratch,
    };
    let scope = Lent {
        counts,
        slots: &slots,
        names: &names,
    };
    rt.write_all(line)?;
    match runs::run::run(&text[..n], start_type, flags, scope, &mut room) {
        Ok(Counts { items, cells }) => {
            let Room { rows, store, .. } = room;
            let record = TextForm(Record {
                rows: &rows[..items],
                store: &store[..cells],
            });
            println!(rt; " {record}")
        }
        Err(refusal) => {
            let n = u32::from(refusal);
            println!(rt; " refused with {n}")
        }
    }
}

fn main(rt: HostRuntime) -> io::Result<()> {
    let mut bytes = [0u8; MAX_INPUT];
    let n = input::read_full(&rt, &mut bytes)?;
    for line in bytes[..n].split_inclusive(|b| *b == b'\n') {
        print_case(&rt, line.strip_suffix(b"\n").unwrap_or(line))?;
    }
    Ok(())
}
