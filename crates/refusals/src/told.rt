// What is said of answers and slices. What is written cannot be said in a contract, so what only prints has none.
ghost use Rattle.std.specs.Prelude.{◌≡◌};

use scope::scope::Scope;
use std::fmt;
use std::fmt::{Display, UpperHex};
use text::refusal::Refusal;

// A scope of so many empty contexts; over 32 it is broken.
pub fn empty_scope(contexts: usize) -> Scope
    ensures { result ≡ record { contexts = contexts; entries = 0; parsed = 0 } }
{
    Scope {
        contexts,
        entries: 0,
        parsed: 0,
    }
}

// Numbers in hexadecimal, each behind a space.
#[derive(Clone, Copy)]
pub struct Hex<'a, T>(pub &'a [T]);

impl<T: UpperHex> Display for Hex<'_, T> {
    fn fmt<W: fmt::Write>(&self, f: &mut fmt::Formatter<W>) -> fmt::Result {
        for x in self.0 {
            f.write_str(" ")?;
            UpperHex::fmt(x, f)?;
        }
        Ok(())
    }
}

// The first n cells if they are few, else their number behind a word.
#[derive(Clone, Copy)]
pub struct Front<'a>(pub &'a [u32], pub usize, pub &'static str);

impl Display for Front<'_> {
    fn fmt<W: fmt::Write>(&self, f: &mut fmt::Formatter<W>) -> fmt::Result {
        let Front(cells, n, word) = *self;
        match cells.get(..n) {
            Some(few) if n < 8 => write!(f, "{}", Hex(few)),
            _ => write!(f, ", {word} {n}"),
        }
    }
}

// A refusal, told by its number.
#[derive(Clone, Copy)]
pub struct Refused(pub Refusal);

impl Display for Refused {
    fn fmt<W: fmt::Write>(&self, f: &mut fmt::Formatter<W>) -> fmt::Result {
        write!(f, "refused with {}", u32::from(self.0))
    }
}

// Whether a slice is as before the call.
pub fn kept(same: bool) -> &'static str {
    if same { "as before" } else { "CHANGED" }
}

// Whether scratch is zero behind the call.
pub fn cleared(zero: bool) -> &'static str {
    if zero {
        "scratch zero"
    } else {
        "scratch NOT ZERO"
    }
}
