// Repair of a record after one edit: kept items, items read afresh to the first match, and the old rest moved.
ghost use Rattle.std.specs.Prelude.{◌≡◌, false, [], map, ◌+◌, ◌-◌, ◌≤◌, ◌<◌, length, get_or};
ghost use Rattle.text.specs.Limits.{max_chars};
ghost use Rattle.scope.specs.Keys.{is_name};
ghost use Rattle.scope.specs.Sound.{sound_scope};
ghost use Rattle.lexer.specs.Fit.{Clear, Searchable};
ghost use Rattle.lexer.specs.FlagsOf.{flags_of};
ghost use Rattle.lexer.specs.Token.{read_token};
ghost use Rattle.runs.specs.Repair.{repair_items};
ghost use Rattle.runs.specs.Record.{item_of, store_of};
ghost use Rattle.runs.specs.Lending.{lent_of, room_of, SameSlices, Returned};
ghost use Rattle.repair.specs.Asking.{request_of, KeptRows, Askable, fresh_behind};
ghost use Rattle.runs.specs.Copied.{edit_of, Copyable, Behind};
ghost use Rattle.repair.specs.Match.{Accepted, place_at, Passed, Before, Ahead, Looked};
ghost use Rattle.repair.specs.Repaired.{Repaired, put_at, Fresh, ToMatch};

use crate::request::Request;
use crate::{copy, kept};
use lexer::flags::Flags;
use runs::call::Counts;
use runs::edit::Edit;
use runs::item::{Item, Row};
use runs::record::Record;
use runs::room::Room;
use runs::run::Progress;
use runs::{call, run};
use scope::lent::{Lent, Sound};
use search::known::Known;
use text::refusal::Refusal;

// So many fresh items and value cells are written, and the old rows from `old` on follow.
#[derive(Clone, Copy)]
pub struct Matched {
    pub counts: Counts,
    pub old: usize,
}

// Whether an old item at the place q lies before the edit's end or is moved to a place before p.
fn is_before(e: Edit, q: usize, p: usize) -> bool
    requires { q < 4_294_967_296 }
    ensures { Before (edit_of e) q p result }
{
    q < e.to || e.moved(q) < p
}

// The first old row from `first` on that is moved to p or behind it; the last row at the latest. A place, which is kept from one search to the next.
fn pass_old(old_rows: &[Row], first: usize, e: Edit, p: usize) -> usize
    requires { Passed (edit_of e) old_rows.now first p }
    ensures { Passed (edit_of e) old_rows.now result p × Ahead (edit_of e) old_rows.now result p }
{
    let last = old_rows.len().saturating_sub(1);
    for j in first..last {
        if !is_before(e, old_rows[j][Item::POSITION] as usize, p) {
            return j;
        }
    }
    first.max(last)
}

// Whether the old row at j, which is not the last, matches the state of position p and these flags.
fn is_match(old_rows: &[Row], j: usize, e: Edit, p: usize, flags: Flags) -> bool
    requires { Passed (edit_of e) old_rows.now j p × Ahead (edit_of e) old_rows.now j p × Accepted old_rows.now }
    ensures { Looked (edit_of e) old_rows.now j p (flags_of flags) result }
{
    j + 1 < old_rows.len()
        && e.moved(old_rows[j][Item::POSITION] as usize) == p
        && old_rows[j][Item::FLAGS] == u32::from(flags)
}

// Reads the next item of a part that begins at `base`, as a run does, and writes it with its place in the whole text.
fn read_fresh(part: &[u32], base: usize, at: Progress, known: &Known, room: &mut Room) -> Progress
    requires { (base + length part.now ≤ max_chars) × (at.counts.cells + (length part.now - at.position) ≤ length room.old.store.now) × Searchable part.now room.old.scratch.now
        × (at.position ≤ length part.now) × (at.counts.cells ≤ max_chars) × (at.counts.items < length room.old.rows.now) × (at.counts.items ≤ max_chars + 1) }
    ensures fresh { Fresh (read_token (is_name (sound_scope known.now.scope))) part.now base at room.old.rows.now room.old.store.now result room.new.rows.now room.new.store.now }
    ensures back { Returned room.old room.new }
{
    let next = run::read_item(part, at, known, room);
    let Counts { items, cells } = at.counts;
    let row = room.rows[items];
    let position = base + row[Item::POSITION] as usize;
    let reach = base + row[Item::REACH] as usize;
    copy::put_moved(room.rows, items, row, position, reach, cells);
    next
}

// Reads items of a part that begins at `base`, behind the kept ones, to the first match with an old row, or to the run's end.
fn read_to_match(
    part: &[u32],
    base: usize,
    flags: Flags,
    kept: Counts,
    e: Edit,
    old_rows: &[Row],
    scope: Sound,
    room: &mut Room,
) -> Matched
    requires { (base + length part.now ≤ max_chars) × (kept.items + length part.now + 1 ≤ length room.old.rows.now) × (kept.cells + length part.now ≤ length room.old.store.now) × Searchable part.now room.old.scratch.now
        × (kept.items ≤ base + 1) × (kept.cells ≤ base) × Accepted old_rows.now }
    ensures to_match { ToMatch (read_token (is_name (sound_scope scope.entry))) (edit_of e) old_rows.now part.now base (flags_of flags) kept.items kept.cells room.old.rows.now room.old.store.now result room.new.rows.now room.new.store.now }
    ensures back { Returned room.old room.new }
{
    let known = Known::of(scope);
    let mut at = Progress {
        position: 0,
        flags,
        counts: kept,
        ended: false,
    };
    let mut j: usize = 0;
    while !at.ended {
        let p = base + at.position;
        j = pass_old(old_rows, j, e, p);
        if is_match(old_rows, j, e, p, at.flags) {
            return Matched {
                counts: at.counts,
                old: j + 1,
            };
        }
        at = read_fresh(part, base, at, &known, room);
    }
    Matched {
        counts: at.counts,
        old: old_rows.len(),
    }
}

// Writes the items of a record again as they were.
fn put_kept(old: Record, room: &mut Room) -> Counts
    requires { Copyable (put_at 0) old.rows.now old.store.now × (length old.rows.now ≤ length room.old.rows.now)
        × (length (store_of (map (item_of old.store.now) old.rows.now)) ≤ max_chars) × (length (store_of (map (item_of old.store.now) old.rows.now)) ≤ length room.old.store.now) }
    ensures behind { Behind 0 0 room.old.rows.now room.old.store.now (map (item_of old.entry.store.now) old.entry.rows.now) result.items result.cells room.new.rows.now room.new.store.now }
    ensures back { Returned room.old room.new }
{
    let none = Edit {
        from: 0,
        to: 0,
        size: 0,
    };
    copy::copy_items(old, none, Counts { items: 0, cells: 0 }, room)
}

// Writes what follows the kept items, of which there are k: fresh items, and behind a match the old rest, moved.
fn put_rest(
    old: Record,
    e: Edit,
    k: usize,
    kept: Counts,
    part: &[u32],
    scope: Sound,
    room: &mut Room,
) -> Counts
    requires { Askable old.rows.now old.store.now (edit_of e) part.now (length room.old.rows.now) (length room.old.store.now) (length room.old.scratch.now) × KeptRows e.from old.rows.now k × (k < length old.rows.now)
        × (kept.items ≤ place_at old.rows.now (k - 1) + 1) × (kept.cells ≤ place_at old.rows.now (k - 1)) × Clear room.old.scratch.now }
    ensures behind { Behind kept.items kept.cells room.old.rows.now room.old.store.now
        (fresh_behind (read_token (is_name (sound_scope scope.entry))) (edit_of e) old.entry.store.now part.now (map (item_of old.entry.store.now) old.entry.rows.now) (get_or old.entry.rows.now (k - 1) []))
        result.items result.cells room.new.rows.now room.new.store.now }
    ensures back { Returned room.old room.new }
{
    let last = old.rows[k - 1];
    let base = last[Item::POSITION] as usize;
    let flags = Flags::from_bits(last[Item::FLAGS]);
    let m = read_to_match(part, base, flags, kept, e, old.rows, scope, room);
    let rest = Record {
        rows: &old.rows[m.old..],
        store: old.store,
    };
    copy::copy_items(rest, e, m.counts, room)
}

// Writes the repaired items of an accepted request.
fn put_items(old: Record, e: Edit, part: &[u32], scope: Sound, room: &mut Room) -> Counts
    requires { Askable old.rows.now old.store.now (edit_of e) part.now (length room.old.rows.now) (length room.old.store.now) (length room.old.scratch.now) × Clear room.old.scratch.now }
    ensures behind { Behind 0 0 room.old.rows.now room.old.store.now
        (repair_items (read_token (is_name (sound_scope scope.entry))) (edit_of e) (map (item_of old.entry.store.now) old.entry.rows.now) part.now)
        result.items result.cells room.new.rows.now room.new.store.now }
    ensures back { Returned room.old room.new }
{
    let k = kept::count_kept(old.rows, e.from);
    let front = Record {
        rows: &old.rows[..k],
        store: old.store,
    };
    let kept = put_kept(front, room);
    if k == old.rows.len() {
        return kept;
    }
    put_rest(old, e, k, kept, part, scope, room)
}

// The record of the edited text, from the old one's and the new text from the last kept position on: its rows and its values fill the fronts of the room's rows and store.
// Ruled out, among others: old items behind a match with the reaches they had; a refused repair that has written to rows or store.
pub fn repair(request: Request, scope: Lent, room: &mut Room) -> Result<Counts, Refusal>
    ensures repaired { Repaired (lent_of scope.entry) (request_of request.entry) (room_of room.old) result (room_of room.new) }
    ensures same { SameSlices room.old room.new }
{
    call::clear(room.scratch);
    if request.is_broken() {
        return Err(Refusal::BrokenRequest);
    }
    let Request { from, to, size, .. } = request;
    let sound = call::checked(request.old_length - to + (from + size), scope, room)?;
    let e = Edit { from, to, size };
    Ok(put_items(request.old, e, request.part, sound, room))
}
