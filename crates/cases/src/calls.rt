// A scope from its calls, as a case gives them.
ghost use Rattle.std.specs.Prelude.{◌≡◌, false, ◌+◌, ◌≤◌, length};
ghost use Rattle.scope.specs.Limits.{max_entries, max_parsed};
ghost use Rattle.scope.specs.Lent.{is_broken, scope_of, on_scope};
ghost use Rattle.scope.specs.Answers.{lent, answer_of};
ghost use Rattle.cases.specs.Laid.{laid, Lays};
ghost use Rattle.cases.specs.Entries as spec;
ghost use Rattle.cases.specs.After.{after_call, call_at, after_call_at, call_end, scope_at};

use crate::fields::Fields;
use crate::numbered::Call;
use scope::scope::{Listed, Scope, Slot};
use text::refusal::Refusal;

// One character more than a name may have, so that a longer one is told.
const LONG_NAME: usize = Scope::MAX_NAME + 1;

// Room for an entry list of a case; none has more.
const MAX_ROWS: usize = 514;

const MAX_CELLS: usize = 1024;

// The start or the length of a name as a cell; the names of a list have far fewer characters.
fn cell(n: usize) -> u32
    ensures { result ≡ spec.cell n }
{
    (n % 65_536) as u32
}

// Reads an entry for each row; their names stand one behind the other in the cells, as far as there is room.
fn read_list(fields: &mut Fields, rows: &mut [[u32; Listed::NUMBERS]], cells: &mut [u32])
    ensures { (rows.new ≡ spec.rows_at (length rows.old) fields.old.line.now fields.old.at (length cells.old) 0)
        × (cells.new ≡ laid 0 (spec.names_at (length rows.old) fields.old.line.now fields.old.at) cells.old)
        × (fields.new.line ≡ fields.old.line) × (fields.new.at ≡ spec.entries_end (length rows.old) fields.old.line.now fields.old.at) }
{
    let mut k = 0;
    for row in rows.iter_mut() {
        let depth = fields.decimal();
        let kind = fields.decimal();
        let n = fields.cells(&mut cells[k..]);
        *row = [depth, kind, cell(k), cell(n)];
        k += n;
    }
}

// Reads and makes one call. A refused call leaves the scope that was; no case has one.
pub fn call(
    fields: &mut Fields,
    s: Scope,
    slots: &mut [[u32; Slot::NUMBERS]],
    names: &mut [[u32; Scope::MAX_NAME]],
) -> Result<Scope, Refusal>
    ensures whole { is_broken (lent s slots.old names.old) ≡ false → is_broken (lent (after_call result s) slots.new names.new) ≡ false }
    ensures model { is_broken (lent s slots.old names.old) ≡ false
        → scope_of (lent (after_call result s) slots.new names.new) ≡ after_call_at fields.old.line.now fields.old.at (scope_of (lent s slots.old names.old)) }
    ensures next { (fields.new.line ≡ fields.old.line) × (fields.new.at ≡ call_end fields.old.line.now fields.old.at) }
    ensures answer { answer_of result slots.new names.new ≡ on_scope (lent s slots.old names.old) (call_at fields.old.line.now fields.old.at) }
{
    let mut name = [0u32; LONG_NAME];
    let mut rows = [[0u32; Listed::NUMBERS]; MAX_ROWS];
    let mut cells = [0u32; MAX_CELLS];
    let call = Call::from(fields.decimal());
    let n = fields.cells(&mut name);
    let count = (fields.decimal() as usize).min(MAX_ROWS);
    let rows = &mut rows[..count];
    read_list(fields, rows, &mut cells);
    call.make(s, slots, names, &name[..n], rows, &cells)
}

// A fresh scope after the calls that a case gives: it is the model's, and whatever they are, it is not broken.
pub fn scope_of(
    mut fields: Fields,
    slots: &mut [[u32; Slot::NUMBERS]],
    names: &mut [[u32; Scope::MAX_NAME]],
) -> Scope
    ensures whole { max_entries + max_parsed ≤ length slots.old → max_entries + max_parsed ≤ length names.old
        → is_broken (lent result slots.new names.new) ≡ false }
    ensures model { max_entries + max_parsed ≤ length slots.old → max_entries + max_parsed ≤ length names.old
        → scope_of (lent result slots.new names.new) ≡ scope_at fields.entry.line.now fields.entry.at }
{
    let mut s = Scope::opened();
    for _ in 0..fields.decimal() {
        s = call(&mut fields, s, slots, names).unwrap_or(s);
    }
    s
}
