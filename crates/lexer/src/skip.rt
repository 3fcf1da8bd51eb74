// Whitespace and comments.
ghost use Rattle.std.specs.Prelude.{◌≡◌, ◌&&◌, ◌+◌, ◌≤◌, length};
ghost use Rattle.reading.specs.Look.{cell_at};
ghost use Rattle.reading.specs.Cells.{holds, is};
ghost use Rattle.reading.specs.Goes.{Reads};
ghost use Rattle.reading.proofs.Passed.{Passed};
ghost use Rattle.text.specs.Limits.{max_chars};
ghost use Rattle.lexer.specs.Skip as spec;
ghost use Rattle.lexer.specs.Token.{fuel};
ghost use Rattle.lexer.specs.Answers.{BlockEnds, Commented};

use crate::look;
use text::chars::Char;
use text::classes::{Class, Whitespace};

// A cell of a line: any but its end.
struct InLine;

impl Class for InLine {
    ghost class = { spec.is_in_line };

    #[tactic(auto, unfolding(crate::specs::Skip::is_in_line))]
    fn has(c: u32) -> bool {
        c != Char::LINE_FEED
    }
}

// Whether a block comment ends at i.
fn ends_at(rest: &[u32], i: usize) -> bool
    requires { i ≤ length rest.now }
    ensures { result ≡ is 0x2A (cell_at rest.now i) && is 0x2F (cell_at rest.now (i + 1)) }
{
    look::is_at(rest, i, Char::STAR) && look::is_at(rest, i + 1, Char::SLASH)
}

// The place behind a block comment whose inside starts at `from`, or the end. The place is what is answered, so it is the index.
fn block_end(rest: &[u32], from: usize) -> usize
    requires { (length rest.now ≤ max_chars) × (from ≤ length rest.now) }
    ensures { BlockEnds rest.now from result }
{
    for i in from..rest.len() {
        if ends_at(rest, i) {
            return i + 2;
        }
    }
    rest.len()
}

// The end of the comment at i, if there is one.
fn comment(rest: &[u32], i: usize) -> Option<usize>
    requires { (length rest.now ≤ max_chars) × (i ≤ length rest.now) }
    ensures { Commented rest.now i result }
{
    if !look::is_at(rest, i, Char::SLASH) {
        return None;
    }
    if look::is_at(rest, i + 1, Char::SLASH) {
        return Some(look::end_of::<InLine>(rest, i + 2));
    }
    if look::is_at(rest, i + 1, Char::STAR) {
        return Some(block_end(rest, i + 2));
    }
    None
}

// The first character that is neither whitespace nor in a comment.
pub fn skip(rest: &[u32]) -> usize
    requires { length rest.now ≤ max_chars }
    ensures { (Reads rest.now (spec.skip fuel) result (result + 2)) × (result ≤ length rest.now) }
{
    let mut i = look::end_of::<Whitespace>(rest, 0);
    while let Some(end) = comment(rest, i) {
        i = look::end_of::<Whitespace>(rest, end);
    }
    i
}
