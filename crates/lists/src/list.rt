// A lent entry list.
ghost use Rattle.std.specs.Prelude.{◌≡◌, true, false, MatchResult};
ghost use Rattle.scope.specs.Lent.{listed, any_outside};

use scope::entries::{Entries, Entry};
use scope::scope::Listed;
use text::refusal::Refusal;

// The rows of the list, for the context of this number; each name is a span of the cells.
#[derive(Clone, Copy)]
pub struct List<'a> {
    pub context: u32,
    pub rows: &'a [[u32; Listed::NUMBERS]],
    pub cells: &'a [u32],
    pub ghost inside: { any_outside cells.now rows.now ≡ false },
}

impl<'a> List<'a> {
    // Refused where a name span lies outside the cells.
    // Ruled out, among others: a span that begins inside and ends outside.
    pub fn checked(
        context: u32,
        rows: &'a [[u32; Listed::NUMBERS]],
        cells: &'a [u32],
    ) -> Result<List<'a>, Refusal>
        ensures { MatchResult result
            (λ l. (l.context ≡ context) × (l.rows.now ≡ rows.now) × (l.cells.now ≡ cells.now))
            (λ e. (e ≡ Refusal.BrokenScope) × (any_outside cells.now rows.now ≡ true)) }
    {
        for row in rows {
            let end = row[Listed::START] as usize + row[Listed::LENGTH] as usize;
            if cells.len() < end {
                return Err(Refusal::BrokenScope);
            }
        }
        Ok(List {
            context,
            rows,
            cells,
        })
    }
}

impl Entries for List<'_> {
    ghost entries = { λ l. listed l.context l.cells.now l.rows.now };

    fn count(&self) -> usize {
        self.rows.len()
    }

    fn at(&self, i: usize) -> Entry<'_> {
        let row = &self.rows[i];
        let start = row[Listed::START] as usize;
        let end = start + row[Listed::LENGTH] as usize;
        Entry {
            context: self.context,
            depth: row[Listed::DEPTH],
            kind: row[Listed::KIND],
            name: &self.cells[start..end],
        }
    }
}
