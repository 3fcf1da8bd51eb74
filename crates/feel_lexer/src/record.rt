// Run and repair. Each checks and lends by itself: one frame with a closure over the room has to tell in its clauses which slices come back, and is longer than what it saves.
ghost use Rattle.std.specs.Prelude.{◌≡◌};
ghost use Rattle.repair.specs.Asking.{asked};
ghost use Rattle.feel_lexer.specs.Numbers.{placed};
ghost use Rattle.feel_lexer.specs.Exported as spec;

use crate::answer::Answer;
use crate::{answer, state};
use lexer::flags::Flags;
use repair::request::Request;
use runs::call;
use runs::call::Counts;
use runs::item::Item;
use runs::record::Record;
use runs::room::Room;
use scope::lent::Lent;
use scope::scope::{Scope, Slot};
use text::refusal::Refusal;

// Writes how many items and value cells a record has; an answer at place 0 stays so where none was made.
#[tactic(auto, unfolding(crate::specs::Exported::number))]
fn after(made: Result<Counts, Refusal>, answer: &mut [usize]) -> Result<(), Refusal>
    requires { answer.old ≡ placed 0 0 }
    ensures { (spec.number result ≡ spec.made_number made) × (answer.new ≡ spec.made_answer made) }
{
    let Counts { items, cells } = made?;
    Answer {
        length: cells,
        items,
        ..Answer::EMPTY
    }
    .write(answer);
    Ok(())
}

// The record of a run: its rows and values fill the fronts of rows and store.
// Ruled out, among others: a record one item short; flags above 31 read as if they were less.
#[unsafe(no_mangle)]
pub extern "C" fn feel_run(
    text: &[u32],
    start_type: u32,
    flags: u32,
    scope: &[usize],
    slots: &[[u32; Slot::NUMBERS]],
    names: &[[u32; Scope::MAX_NAME]],
    rows: &mut [[u32; Item::NUMBERS]],
    store: &mut [u32],
    scratch: &mut [u32],
    answer: &mut [usize],
) -> u32
    ensures { spec.feel_run text.now start_type flags scope.now slots.now names.now
        (record { rows = rows.entry.now; store = store.old; scratch = scratch.old }) answer.old
        ≡ record { number = result; room = record { rows = rows.exit.now; store = store.new; scratch = scratch.new }; answer = answer.new } }
{
    if let Err(refusal) = answer::checked(answer, flags <= Flags::ALL) {
        call::clear(scratch);
        return u32::from(refusal);
    }
    let lent = Lent {
        counts: state::scope_of(scope),
        slots,
        names,
    };
    let mut room = Room {
        rows,
        store,
        scratch,
    };
    let made = runs::run::run(text, start_type, Flags::from_bits(flags), lent, &mut room);
    answer::number(after(made, answer))
}

// The record of the edited text, from the old one's and the new text from the last kept position on.
// Ruled out, among others: the old record handed back; a refused repair that has written to rows or store.
#[unsafe(no_mangle)]
pub extern "C" fn feel_repair(
    old_length: usize,
    old_rows: &[[u32; Item::NUMBERS]],
    old_store: &[u32],
    from: usize,
    to: usize,
    size: usize,
    part: &[u32],
    scope: &[usize],
    slots: &[[u32; Slot::NUMBERS]],
    names: &[[u32; Scope::MAX_NAME]],
    rows: &mut [[u32; Item::NUMBERS]],
    store: &mut [u32],
    scratch: &mut [u32],
    answer: &mut [usize],
) -> u32
    ensures { spec.feel_repair (asked old_length old_rows.now old_store.now from to size part.now) scope.now slots.now names.now
        (record { rows = rows.entry.now; store = store.old; scratch = scratch.old }) answer.old
        ≡ record { number = result; room = record { rows = rows.exit.now; store = store.new; scratch = scratch.new }; answer = answer.new } }
{
    if let Err(refusal) = answer::checked(answer, true) {
        call::clear(scratch);
        return u32::from(refusal);
    }
    let request = Request {
        old_length,
        old: Record {
            rows: old_rows,
            store: old_store,
        },
        from,
        to,
        size,
        part,
    };
    let lent = Lent {
        counts: state::scope_of(scope),
        slots,
        names,
    };
    let mut room = Room {
        rows,
        store,
        scratch,
    };
    let made = repair::repair::repair(request, lent, &mut room);
    answer::number(after(made, answer))
}
