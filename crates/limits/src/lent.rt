// Lists and scopes that no case gives.
use crate::answers::Answer;
use scope::lent::Lent;
use scope::scope::{Scope, Slot};
use scope_calls::{push, stack};
use std::io;

// A list whose only name is a span that ends behind the cells.
fn beyond(rt: &impl Print) -> io::Result<()> {
    let mut slots = [[0; Slot::NUMBERS]; Scope::ROWS];
    let mut names = [[0; Scope::MAX_NAME]; Scope::ROWS];
    let listed = [[0, 0, 2, 2]];
    let cells = [0x61, 0x62, 0x63];
    let pushed = push::push(Scope::opened(), &mut slots, &mut names, &listed, &cells);
    let answer = Answer(pushed);
    println!(rt; "a name that ends beyond the characters: {answer}")
}

// Popping, which writes nothing, from a scope of so many contexts and entries.
fn popped(
    rt: &impl Print,
    words: &str,
    contexts: usize,
    entries: usize,
    slots: &[[u32; Slot::NUMBERS]],
    names: &[[u32; Scope::MAX_NAME]],
) -> io::Result<()> {
    let counts = Scope {
        contexts,
        entries,
        parsed: 0,
    };
    let answer = Answer(stack::pop(Lent {
        counts,
        slots,
        names,
    }));
    println!(rt; "{words}: {answer}")
}

// Broken scopes, and one that is not.
fn broken(rt: &impl Print) -> io::Result<()> {
    let mut slots = [[0; Slot::NUMBERS]; Scope::ROWS];
    let names = [[0; Scope::MAX_NAME]; Scope::ROWS];
    popped(rt, "33 contexts", 33, 0, &slots, &names)?;
    popped(rt, "767 rows", 1, 0, &slots[..767], &names)?;
    slots[0] = [1, 0, 0, 129];
    popped(rt, "a name length of 129", 1, 1, &slots, &names)?;
    popped(
        rt,
        "the same in a row that is not in use",
        1,
        0,
        &slots,
        &names,
    )
}

pub fn tried(rt: &impl Print) -> io::Result<()> {
    println!(rt; "Lent lists and scopes")?;
    beyond(rt)?;
    broken(rt)
}
