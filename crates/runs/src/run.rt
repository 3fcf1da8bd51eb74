// A run over a text: the start item, then tokens to the first item that ends it.
ghost use Rattle.std.specs.Prelude.{◌≡◌, true, false, List, ℕ, ◌+◌, ◌-◌, ◌≤◌, ◌<◌, length};
ghost use Rattle.text.specs.Limits.{max_chars};
ghost use Rattle.scope.specs.Keys.{is_name};
ghost use Rattle.scope.specs.Sound.{sound_scope};
ghost use Rattle.lexer.specs.Fit.{Searchable};
ghost use Rattle.lexer.specs.FlagsOf.{flags_of};
ghost use Rattle.lexer.specs.Token.{read_token};
ghost use Rattle.runs.specs.Run.{Reader, run_items};
ghost use Rattle.runs.specs.Copied.{Behind};
ghost use Rattle.runs.specs.Ran.{Ran, Next, Stands};
ghost use Rattle.runs.specs.Lending.{lent_of, room_of, SameSlices, Returned};

use crate::call::Counts;
use crate::item::{Item, Row};
use crate::room::Room;
use crate::{call, item};
use lexer::flags::Flags;
use lexer::token::Token;
use scope::lent::{Lent, Sound};
use search::known::Known;
use text::refusal::Refusal;

// Where a run stands: behind the last item, with so many items and value cells, and whether that item ended it.
#[derive(Clone, Copy)]
pub struct Progress {
    pub position: usize,
    pub flags: Flags,
    pub counts: Counts,
    pub ended: bool,
}

// Writes the start item.
fn put_start(start_type: u32, flags: Flags, rows: &mut [Row]) -> Progress
    requires { 0 < length rows.old }
    ensures { (tok : Reader) (t store : List ℕ) → Stands tok start_type (flags_of flags) t rows.old store result rows.new store }
{
    let start = Item {
        read: Ok(Token::Plain(tokens::call::start_type(start_type))),
        position: 0,
        flags,
        reach: 0,
    };
    let row = start.row(0);
    rows[0] = row;
    Progress {
        position: 0,
        flags,
        counts: Counts { items: 1, cells: 0 },
        ended: item::ends_run(&row),
    }
}

// Reads the next item: its value goes behind the last one, its row behind the last row.
// Ruled out, among others: a value that ends outside the store; an item that takes no character and does not end the run.
#[inline(always)]
pub fn read_item(text: &[u32], at: Progress, known: &Known, room: &mut Room) -> Progress
    requires { (length text.now ≤ max_chars) × (at.counts.cells + (length text.now - at.position) ≤ length room.old.store.now) × Searchable text.now room.old.scratch.now
        × (at.position ≤ length text.now) × (at.counts.cells ≤ max_chars) × (at.counts.items < length room.old.rows.now) × (at.counts.items ≤ max_chars + 1) }
    ensures next { Next (read_token (is_name (sound_scope known.now.scope))) text.now at room.old.rows.now room.old.store.now result room.new.rows.now room.new.store.now }
    ensures back { Returned room.old room.new }
{
    let Counts { items, cells } = at.counts;
    let o = tokens::token::read_token(
        &text[at.position..],
        at.flags,
        known,
        &mut room.store[cells..],
        room.scratch,
    );
    let next = Item {
        read: o.read,
        position: at.position + o.used,
        flags: o.flags,
        reach: at.position + o.reach,
    };
    let row = next.row(cells);
    room.rows[items] = row;
    Progress {
        position: next.position,
        flags: next.flags,
        counts: Counts {
            items: items + 1,
            cells: cells + row[Item::LENGTH] as usize,
        },
        ended: item::ends_run(&row),
    }
}

// Reads all items of a run.
fn read_items(text: &[u32], start_type: u32, flags: Flags, scope: Sound, room: &mut Room) -> Counts
    requires { (length text.now ≤ max_chars) × (length text.now + 2 ≤ length room.old.rows.now) × (length text.now ≤ length room.old.store.now) × Searchable text.now room.old.scratch.now }
    ensures ran { Behind 0 0 room.old.rows.now room.old.store.now (run_items (read_token (is_name (sound_scope scope.entry))) start_type (flags_of flags) text.now) result.items result.cells room.new.rows.now room.new.store.now }
    ensures back { Returned room.old room.new }
{
    let known = Known::of(scope);
    let mut at = put_start(start_type, flags, room.rows);
    while !at.ended {
        at = read_item(text, at, &known, room);
    }
    at.counts
}

// The record of a run over a text, from a start type and opening flags: its rows and its values fill the fronts of the room's rows and store.
// Ruled out, among others: a value written over the last one; a refusal that leaves scratch as it was found.
pub fn run(
    text: &[u32],
    start_type: u32,
    flags: Flags,
    scope: Lent,
    room: &mut Room,
) -> Result<Counts, Refusal>
    ensures ran { Ran (lent_of scope.entry) start_type (flags_of flags) text.now (room_of room.old) result (room_of room.new) }
    ensures same { SameSlices room.old room.new }
{
    call::clear(room.scratch);
    let sound = call::checked(text.len(), scope, room)?;
    Ok(read_items(text, start_type, flags, sound, room))
}
