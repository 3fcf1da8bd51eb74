// A run: refused by the host, at the limits of a text, and ended by a refusal of the text.
use crate::{filled, lent, lexing, rows, told};
use lexer::flags::Flags;
use lexer::token_type::TokenType;
use runs::room::Room;
use scope::lent::Lent;
use std::io;
use text::utf8::Text;
use tokens::call;

// A run with so many rows, store cells and scratch cells lent.
fn run(
    rt: &impl Print,
    text: &[u32],
    flags: u32,
    contexts: usize,
    items: usize,
    values: usize,
    scratch: usize,
) -> io::Result<()> {
    let slots = lent::slots();
    let names = lent::names();
    let mut all = lent::rows();
    let mut store = lent::cells();
    let mut free = lent::cells();
    let scope = Lent {
        counts: told::empty_scope(contexts),
        slots: &slots,
        names: &names,
    };
    let mut room = Room {
        rows: lent::front_mut(&mut all, items),
        store: lent::front_mut(&mut store, values),
        scratch: lent::front_mut(&mut free, scratch),
    };
    let made = runs::run::run(
        text,
        TokenType::StartExpression as u32,
        Flags::from_bits(flags),
        scope,
        &mut room,
    );
    let zero = filled::is_filled(lent::front(&free, scratch), 0, 0);
    rows::answer(rt, made, &all, &store, zero)
}

const N: usize = Text::MAX_CHARS;

// Characters, contexts, rows, store, scratch.
// 01: 1, 10, 9. In the first calls the causes behind hold, too.
static HOSTS: [[usize; 5]; 9] = [
    [N + 1, 33, 0, 0, 0],
    [2, 33, 0, 0, 0],
    [2, 1, 3, 2, 4],
    [2, 1, 4, 1, 4],
    [2, 1, 4, 2, 3],
    [2, 1, 4, 2, 4],
    [N + 1, 1, N + 3, N + 1, 2 * N + 2],
    [N, 1, N + 2, N, 2 * N],
    [0, 1, 2, 0, 0],
];

// A token call, by value and on a lent lexer, and a run that the text refuses, with just the room that they ask for.
fn both(rt: &impl Print, text: &[u32]) -> io::Result<()> {
    print!(rt; ": ")?;
    lexing::behind(rt, &call::next_token, text)?;
    print!(rt; "  lent: ")?;
    lexing::behind(rt, &lexing::on_lent, text)?;
    print!(rt; "  run: ")?;
    let n = text.len();
    run(rt, text, Flags::ALL, 1, n + 2, n, 2 * n)
}

// Texts in ASCII, whose first token is `1`, and which are refused behind that: refusals 3, 4, 5 twice, 6, 7 and 8.
static REFUSED: [&str; 7] = [
    "1 \"\\u12\"",
    "1 \"\\u12",
    "1 \"\\uDC00\"",
    "1 \"\\U110000\"",
    "1 \"\\uD83D\\u0041\"",
    "1 \"\\uD83D\"",
    "1 in+",
];

fn refused(rt: &impl Print, text: &str) -> io::Result<()> {
    let mut cells = [0; 16];
    print!(rt; "{text}")?;
    match text::utf8::open_bytes(text.as_bytes(), &mut cells) {
        Ok(t) => both(rt, lent::front(&cells, t.chars)),
        Err(_) => Ok(()),
    }
}

pub fn tried(rt: &impl Print) -> io::Result<()> {
    println!(rt; "Runs: characters, contexts, rows, store, scratch")?;
    let text = lent::text(0x61);
    for &[n, contexts, items, values, scratch] in &HOSTS {
        print!(rt; "{n} {contexts} {items} {values} {scratch}: ")?;
        run(
            rt,
            lent::front(&text, n),
            0,
            contexts,
            items,
            values,
            scratch,
        )?;
    }
    println!(rt; "Refused by the text: the token call from 2 on, and the run, all flags set")?;
    for text in &REFUSED {
        refused(rt, text)?;
    }
    Ok(())
}
