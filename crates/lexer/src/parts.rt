// The parts of a name: where each stands, and the first of them written out.
ghost use Rattle.std.specs.Prelude.{◌≡◌, ◌≤◌, length};
ghost use Rattle.reading.specs.Slices.{Wrote};
ghost use Rattle.text.specs.Limits.{max_chars};
ghost use Rattle.lexer.specs.Places.{here_of, start_of, next_of, Placed, Counted, prefix, spelling};

use crate::look;
use text::classes::{NamePart, Symbol, Whitespace};
use text::output::Output;

// Where the part that starts at i starts and ends, or i itself, where the walk ends.
#[inline]
fn part_at(rest: &[u32], i: usize) -> Result<(usize, usize), usize>
    requires { i ≤ length rest.now }
    ensures { (result ≡ here_of rest.now i) × Placed rest.now i result }
{
    if look::holds_at::<NamePart>(rest, i) {
        return Ok((i, look::end_of::<NamePart>(rest, i)));
    }
    if look::holds_at::<Symbol>(rest, i) {
        return Ok((i, i + 1));
    }
    Err(i)
}

// Where the next part must start, if there is one: a word is tried before whitespace, as some characters are both. A call of its own, so that the walks over parts stay small.
#[inline(never)]
fn part_start(rest: &[u32], i: usize) -> usize
    requires { i ≤ length rest.now }
    ensures { (result ≡ start_of rest.now i) × (i ≤ result) × (result ≤ length rest.now) }
{
    if look::holds_at::<NamePart>(rest, i) || look::holds_at::<Symbol>(rest, i) {
        return i;
    }
    look::end_of::<Whitespace>(rest, i)
}

// Where the next part of a name from i on starts and ends, or where the walk ends. Each walk over parts stops for a reason of its own, so each asks for the next by itself.
// Ruled out, among others: U+1680 right behind a symbol skipped as whitespace; two symbols taken for one part.
#[inline]
pub fn next_part(rest: &[u32], i: usize) -> Result<(usize, usize), usize>
    requires { i ≤ length rest.now }
    ensures { (result ≡ next_of rest.now i) × Placed rest.now i result }
{
    part_at(rest, part_start(rest, i))
}

// How many parts a name has, and where the walk over them ends.
#[derive(Clone, Copy)]
pub struct Walked {
    pub parts: usize,
    pub end: usize,
}

// Counts the parts of the name that begins at `from`.
// Ruled out, among others: the whitespace behind the last part left out of the walk; a part too many at the text's end.
pub fn count_parts(rest: &[u32], from: usize) -> Walked
    requires { (length rest.now ≤ max_chars) × (from ≤ length rest.now) }
    ensures { Counted rest.now from result.parts result.end }
{
    let mut i = from;
    let mut parts = 0;
    loop {
        match next_part(rest, i) {
            Ok((_, e)) => i = e,
            Err(end) => return Walked { parts, end },
        }
        parts += 1;
    }
}

// Writes the first n parts of the name at `from` to the front of out: as `Name::new` joins them if new, or by spaces. The definition `spelling` takes the same Boolean.
// Ruled out, among others: a space between all parts; a part left untrimmed.
pub fn write_parts(rest: &[u32], from: usize, n: usize, new: bool, out: &mut [u32]) -> usize
    requires { (from ≤ length rest.now) × (length (spelling new (prefix rest.now n from)) ≤ length out.old) }
    ensures { Wrote out.old (spelling new (prefix rest.now n from)) result out.new }
{
    let mut i = from;
    let mut written = Output { cells: out, len: 0 };
    let mut tight = true;
    for _ in 0..n {
        let Ok((start, end)) = next_part(rest, i) else {
            return written.len;
        };
        i = end;
        let part = names::trim::trim(&rest[start..end]);
        let tied = names::name::is_tied(part, new, tight);
        names::name::add_part(part, tied, &mut written);
        tight = names::name::ends_tight(part, new);
    }
    written.len
}
