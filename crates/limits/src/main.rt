// Runs the scope calls at the limits that 01 names: reads them on standard input, one a line, and prints what each answers. The file `stdout` has what 01 says.
// A line that begins with `=` is a heading, and a new scope follows; one that begins with `?` asks whether a text is a name. Any other is a call in the text form of cases (oracle/README.md), and behind it what the call is printed as; where that is nothing, nothing is printed.

#![tactic(auto)]

mod answers; // answers.rt: what is printed of an answer
mod held; // held.rt: a scope with its rows
mod lent; // lent.rt: lists and scopes that no case gives

use crate::answers::Answer;
use crate::held::Held;
use cases::fields::Fields;
use scope::scope::Scope;
use std::io;

// There is room for the lines of `stdin`; of a longer input the rest is not read.
const MAX_INPUT: usize = 32_768;

// A question: the text stands before its words.
fn asked(rt: &impl Print, question: &[u8], held: &Held) -> io::Result<()> {
    let mut text = [0u32; Scope::MAX_NAME];
    let mut fields = Fields::new(question);
    let n = fields.cells(&mut text);
    rt.write_all(fields.rest())?;
    if held.has(&text[..n]) {
        return println!(rt; ": a name");
    }
    println!(rt; ": no name")
}

// A call, and what it is printed as.
fn called(rt: &impl Print, line: &[u8], held: &mut Held) -> io::Result<()> {
    let mut fields = Fields::new(line);
    let answer = Answer(held.call(&mut fields));
    let words = fields.rest();
    if words.is_empty() {
        return Ok(());
    }
    rt.write_all(words)?;
    println!(rt; ": {answer}")
}

// A line without its end, of whatever bytes. Behind a mark stands a space; a mark alone prints nothing.
fn step(rt: &impl Print, line: &[u8], held: &mut Held) -> io::Result<()> {
    match line {
        [b'=', ..] => held.open(),
        [b'?', _, question @ ..] => return asked(rt, question, held),
        [b'?'] => return Ok(()),
        _ => return called(rt, line, held),
    }
    let Some(heading) = line.get(2..) else {
        return Ok(());
    };
    rt.write_all(heading)?;
    rt.write_all(b"\n")
}

// The lines, one after another.
fn all(rt: &impl Print, bytes: &[u8]) -> io::Result<()> {
    let mut held = Held::opened();
    for line in bytes.split_inclusive(|b| *b == b'\n') {
        step(rt, line.strip_suffix(b"\n").unwrap_or(line), &mut held)?;
    }
    Ok(())
}

// Each part has rows of its own, which are gone when the next begins.
fn main(rt: HostRuntime) -> io::Result<()> {
    let mut bytes = [0u8; MAX_INPUT];
    let n = input::read_full(&rt, &mut bytes)?;
    all(&rt, &bytes[..n])?;
    lent::tried(&rt)
}
