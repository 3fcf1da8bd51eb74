// The scope calls refused: a broken scope, list or name, and the limits.
use crate::told::Refused;
use crate::{filled, lent, told};
use scope::lent::Lent;
use scope::scope::{Listed, Scope, Slot};
use scope_calls::{naming, parsed, push, stack};
use std::fmt::Display;
use std::{fmt, io};
use text::refusal::Refusal;

// What a call answers, as it is printed.
#[derive(Clone, Copy)]
struct Answer(Result<Scope, Refusal>);

impl Display for Answer {
    fn fmt<W: fmt::Write>(&self, f: &mut fmt::Formatter<W>) -> fmt::Result {
        match self.0 {
            Ok(_) => f.write_str("done"),
            Err(refusal) => write!(f, "{}", Refused(refusal)),
        }
    }
}

// A scope with its rows.
#[derive(Clone, Copy)]
struct Held {
    counts: Scope,
    slots: [[u32; Slot::NUMBERS]; Scope::ROWS],
    names: [[u32; Scope::MAX_NAME]; Scope::ROWS],
}

type List<'a> = &'a [[u32; Listed::NUMBERS]];

impl Held {
    fn opened() -> Held {
        Held {
            counts: Scope::opened(),
            slots: lent::slots(),
            names: lent::names(),
        }
    }

    fn push(&mut self, list: List, cells: &[u32]) -> Result<Scope, Refusal> {
        push::push(self.counts, &mut self.slots, &mut self.names, list, cells)
    }

    fn set_entry_name(&mut self, name: &[u32]) -> Result<Scope, Refusal> {
        naming::set_entry_name(self.counts, &mut self.slots, &mut self.names, name)
    }

    fn set_context(&mut self, name: &[u32], list: List, cells: &[u32]) -> Result<Scope, Refusal> {
        naming::set_context(
            self.counts,
            &mut self.slots,
            &mut self.names,
            name,
            list,
            cells,
        )
    }

    fn add_parsed_name(&mut self, name: &[u32]) -> Result<Scope, Refusal> {
        parsed::add_parsed_name(self.counts, &mut self.slots, &mut self.names, name)
    }

    // Holds the entries of a list.
    fn hold_entries(&mut self, list: List, cells: &[u32]) {
        if let Ok(counts) = self.push(list, cells) {
            self.counts = counts;
        }
    }

    // Holds each cell as a parsed name.
    fn hold_parsed(&mut self, _list: List, cells: &[u32]) {
        for cell in cells {
            if let Ok(counts) = self.add_parsed_name(&[*cell]) {
                self.counts = counts;
            }
        }
    }
}

// Contexts, entries or parsed names held, entries of a list, depth of the first, characters of a name.
type Trial = (usize, usize, usize, u32, usize);

// Calls with a name of so many times `a` and a list of so many entries, the first of this depth, on a scope that holds so much and is said to have so many contexts.
fn trials<
    H: Fn(&mut Held, List, &[u32]),
    C: Fn(&mut Held, &[u32], List, &[u32]) -> Result<Scope, Refusal>,
>(rt: &impl Print, words: &str, hold: &H, call: &C, all: &[Trial]) -> io::Result<()>
    requires holds { H.IsAlwaysCallable hold.now }
    requires calls { C.IsAlwaysCallable call.now }
{
    let name = [0x61; Scope::MAX_NAME + 1];
    // Variables with names of one character each, no two alike.
    let mut list = [[0; Listed::NUMBERS]; Scope::MAX_ENTRIES + 1];
    let mut cells = [0; Scope::MAX_ENTRIES + 1];
    for (row, start) in list.iter_mut().zip(0..) {
        *row = [0, 0, start, 1];
    }
    for (cell, c) in cells.iter_mut().zip(0x4E00..) {
        *cell = c;
    }
    for &(contexts, count, entries, depth, length) in all {
        print!(rt; "{words} {contexts} {count} {entries} {depth} {length}: ")?;
        let mut held = Held::opened();
        list[0][Listed::DEPTH] = 0;
        hold(
            &mut held,
            lent::front(&list, count),
            lent::front(&cells, count),
        );
        held.counts.contexts = contexts;
        list[0][Listed::DEPTH] = depth;
        let before = held;
        let answer = Answer(call(
            &mut held,
            lent::front(&name, length),
            lent::front(&list, entries),
            &cells,
        ));
        let slots = told::kept(filled::same_rows(&held.slots, &before.slots));
        let names = told::kept(filled::same_rows(&held.names, &before.names));
        println!(rt; "{answer}; slots {slots}, names {names}")?;
    }
    Ok(())
}

// A call that writes nothing, on an empty scope of so many contexts.
fn trial<C: Fn(Lent) -> Result<Scope, Refusal>>(
    rt: &impl Print,
    words: &str,
    call: &C,
    contexts: usize,
) -> io::Result<()>
    requires { C.IsAlwaysCallable call.now }
{
    let empty = Lent {
        counts: told::empty_scope(contexts),
        slots: &lent::slots(),
        names: &lent::names(),
    };
    let answer = Answer(call(empty));
    println!(rt; "{words} {contexts}: {answer}")
}

// 01: 10, then 11.
static PUSHED: [Trial; 6] = [
    (33, 0, 1, 0, 0),
    (1, 0, 1, 1, 0),
    (32, 0, 1, 1, 0),
    (32, 0, 1, 0, 0),
    (1, 0, 513, 0, 0),
    (2, 512, 1, 0, 0),
];

static NAMED: [Trial; 4] = [
    (33, 0, 0, 0, 1),
    (1, 0, 0, 0, 129),
    (2, 512, 0, 0, 129),
    (2, 512, 0, 0, 1),
];

static CONTEXTS: [Trial; 4] = [
    (33, 0, 1, 0, 1),
    (1, 0, 1, 0, 129),
    (1, 0, 512, 1, 1),
    (1, 0, 512, 0, 1),
];

static PARSED: [Trial; 4] = [
    (33, 0, 0, 0, 1),
    (1, 0, 0, 0, 129),
    (1, 256, 0, 0, 129),
    (1, 256, 0, 0, 1),
];

pub fn tried(rt: &impl Print) -> io::Result<()> {
    println!(rt;
        "Scope calls: contexts, entries or parsed names held, entries of a list, depth of the first, characters of a name"
    )?;
    trial(rt, "push_default", &stack::push_default, 33)?;
    trial(rt, "push_default", &stack::push_default, 32)?;
    trial(rt, "pop", &stack::pop, 33)?;
    trials(
        rt,
        "push",
        &Held::hold_entries,
        &|held: &mut Held, _: &[u32], list: List, cells: &[u32]| held.push(list, cells),
        &PUSHED,
    )?;
    trials(
        rt,
        "set_entry_name",
        &Held::hold_entries,
        &|held: &mut Held, name: &[u32], _: List, _: &[u32]| held.set_entry_name(name),
        &NAMED,
    )?;
    trials(
        rt,
        "set_context",
        &Held::hold_entries,
        &Held::set_context,
        &CONTEXTS,
    )?;
    trials(
        rt,
        "add_parsed_name",
        &Held::hold_parsed,
        &|held: &mut Held, name: &[u32], _: List, _: &[u32]| held.add_parsed_name(name),
        &PARSED,
    )
}
