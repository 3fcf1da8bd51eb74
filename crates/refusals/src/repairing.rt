// A repair refused: broken requests, and the host's other causes.
use crate::lent::FILL;
use crate::{filled, lent, rows, told};
use lexer::token_type::TokenType;
use repair::request::Request;
use runs::item::{Item, Row};
use runs::record::Record;
use runs::room::Room;
use scope::lent::Lent;
use std::io;
use text::utf8::Text;

// A record of four rows and two values.
#[derive(Clone, Copy)]
struct Old {
    rows: [Row; 4],
    values: [u32; 2],
}

impl Old {
    fn whole(&self) -> Record<'_> {
        Record {
            rows: &self.rows,
            store: &self.values,
        }
    }

    // The same with one number of a row changed.
    fn changed(mut self, row: usize, column: usize, n: u32) -> Old {
        if let Some(cell) = self
            .rows
            .get_mut(row)
            .and_then(|numbers| numbers.get_mut(column))
        {
            *cell = n;
        }
        self
    }
}

// The record of `1 a`.
static ONE_A: Old = Old {
    rows: [
        [
            0,
            TokenType::StartExpression as u32,
            0,
            0,
            0,
            0,
            0,
            0,
            0,
            0,
            0,
        ],
        [0, TokenType::Numeric as u32, 1, 0, 12, 0, 1, 1, 0, 0, 0],
        [0, TokenType::Name as u32, 3, 0, 14, 1, 1, 0, 0, 0, 0],
        [0, TokenType::YyEof as u32, 3, 0, 15, 2, 0, 0, 0, 0, 0],
    ],
    values: [0x31, 0x61],
};

// The record of ` +bb`, in which a place can move without another clause of 13 being broken.
static SPACED: Old = Old {
    rows: [
        [
            0,
            TokenType::StartExpression as u32,
            0,
            0,
            0,
            0,
            0,
            0,
            0,
            0,
            0,
        ],
        [0, TokenType::Plus as u32, 2, 0, 13, 0, 0, 0, 0, 0, 0],
        [0, TokenType::Name as u32, 4, 0, 14, 0, 2, 0, 0, 0, 0],
        [0, TokenType::YyEof as u32, 4, 0, 16, 2, 0, 0, 0, 0, 0],
    ],
    values: [0x62, 0x62],
};

// What a repair is handed: the old length, the edit, and how much of the new text, of rows, store cells and scratch cells is lent.
#[derive(Clone, Copy)]
struct Asked {
    length: usize,
    from: usize,
    to: usize,
    size: usize,
    part: usize,
    contexts: usize,
    items: usize,
    cells: usize,
    scratch: usize,
}

impl Asked {
    // The last character of `1 a` replaced by another, with all the room that it takes.
    const GOOD: Asked = Asked {
        length: 3,
        from: 2,
        to: 3,
        size: 1,
        part: 3,
        contexts: 1,
        items: 5,
        cells: 3,
        scratch: 6,
    };

    // The new text is the two characters `start` and then `b`, as often as it takes.
    fn tried(self, rt: &impl Print, old: Record, start: [u32; 2]) -> io::Result<()> {
        let slots = lent::slots();
        let names = lent::names();
        let mut new = lent::text(0x62);
        [new[0], new[1]] = start;
        let mut all = [[FILL; Item::NUMBERS]; 8];
        let mut store = [FILL; 8];
        let mut free = [FILL; 8];
        let request = Request {
            old_length: self.length,
            old,
            from: self.from,
            to: self.to,
            size: self.size,
            part: lent::front(&new, self.part),
        };
        let scope = Lent {
            counts: told::empty_scope(self.contexts),
            slots: &slots,
            names: &names,
        };
        let mut room = Room {
            rows: lent::front_mut(&mut all, self.items),
            store: lent::front_mut(&mut store, self.cells),
            scratch: lent::front_mut(&mut free, self.scratch),
        };
        let made = repair::repair::repair(request, scope, &mut room);
        let zero = filled::is_filled(lent::front(&free, self.scratch), 0, 0);
        rows::answer(rt, made, &all, &store, zero)
    }
}

// `1 `.
const ONE: [u32; 2] = [0x31, 0x20];

const N: usize = Text::MAX_CHARS;

// Edits of `1 a`. 01: 13, 1, 10, 9. In the first calls the causes behind hold, too.
static EDITS: [[usize; 8]; 10] = [
    [3, 2, 1, 5, 33, 0, 0, 0],
    [2, 3, N - 1, N + 1, 33, 0, 0, 0],
    [2, 3, 1, 3, 33, 0, 0, 0],
    [2, 3, 1, 3, 1, 4, 3, 6],
    [2, 3, 1, 3, 1, 5, 2, 6],
    [2, 3, 1, 3, 1, 5, 3, 5],
    [2, 3, 1, 3, 1, 5, 3, 6],
    [2, 4, 1, 3, 1, 5, 3, 6],
    [2, 3, 1, 2, 1, 5, 3, 6],
    [2, 3, 1, 4, 1, 5, 3, 6],
];

fn edits(rt: &impl Print) -> io::Result<()> {
    for &[from, to, size, part, contexts, items, cells, scratch] in &EDITS {
        print!(rt; "{from} {to} {size} {part} {contexts} {items} {cells} {scratch}: ")?;
        let q = Asked {
            length: 3,
            from,
            to,
            size,
            part,
            contexts,
            items,
            cells,
            scratch,
        };
        q.tried(rt, ONE_A.whole(), ONE)?;
    }
    Ok(())
}

// The first rows and values of the record, as that of a text of so many characters.
static FRONTS: [[usize; 4]; 3] = [[N + 1, 4, 2, N + 1], [3, 0, 2, 3], [3, 4, 1, 3]];

fn fronts(rt: &impl Print) -> io::Result<()> {
    for &[length, n, k, part] in &FRONTS {
        print!(rt; "{length} {n} {k} {part}: ")?;
        let q = Asked {
            length,
            part,
            ..Asked::GOOD
        };
        q.tried(
            rt,
            Record {
                rows: lent::front(&ONE_A.rows, n),
                store: lent::front(&ONE_A.values, k),
            },
            ONE,
        )?;
    }
    Ok(())
}

// One number of the record changed.
static CHANGES: [(usize, usize, u32); 15] = [
    // Positions, reaches and values that are out of place.
    (0, Item::REACH, 1),
    (3, Item::POSITION, 4),
    (2, Item::REACH, 2),
    (3, Item::REACH, 16),
    (2, Item::START, 0),
    (1, Item::BEFORE, 0),
    // A last type before the last row, a refusal there, none at the end; numbers that no item has; an extra number that is only kept.
    (2, Item::NUMBER, TokenType::YyEof as u32),
    (2, Item::NUMBER, TokenType::YyError as u32),
    (2, Item::NUMBER, TokenType::YyUndef as u32),
    (1, Item::REFUSED, 1),
    (3, Item::NUMBER, TokenType::Name as u32),
    (0, Item::REFUSED, 2),
    (0, Item::FLAGS, 32),
    (1, Item::EXTRA, 2),
    (3, Item::EXTRA, 1),
];

fn changes(rt: &impl Print) -> io::Result<()> {
    for &(row, column, n) in &CHANGES {
        print!(rt; "{row} {column} {n}: ")?;
        let old = ONE_A.changed(row, column, n);
        Asked::GOOD.tried(rt, old.whole(), ONE)?;
    }
    Ok(())
}

// One position of the other record changed, and the text part, which begins at its first position.
// The record as it is, accepted; a position not above the one before; a value longer than the step in position; a first position not 0, which a first reach of 0 is always below.
static MOVES: [(usize, u32, usize, [u32; 2]); 4] = [
    (1, 2, 4, [0x20, 0x2B]),
    (1, 0, 4, [0x20, 0x2B]),
    (1, 3, 4, [0x20, 0x2B]),
    (0, 1, 3, [0x2B, 0x62]),
];

fn moves(rt: &impl Print) -> io::Result<()> {
    for &(row, position, part, start) in &MOVES {
        print!(rt; "{row} {} {position} {part}: ", Item::POSITION)?;
        let old = SPACED.changed(row, Item::POSITION, position);
        let q = Asked {
            length: 4,
            from: 3,
            to: 4,
            size: 1,
            part,
            contexts: 1,
            items: 6,
            cells: 4,
            scratch: 8,
        };
        q.tried(rt, old.whole(), start)?;
    }
    Ok(())
}

pub fn tried(rt: &impl Print) -> io::Result<()> {
    println!(rt; "Repairs: from, to, size, part, contexts, rows, store, scratch")?;
    edits(rt)?;
    println!(rt; "Old records: length, rows, values, part")?;
    fronts(rt)?;
    println!(rt; "Old records: row, number in it, what it is changed to")?;
    changes(rt)?;
    println!(rt;
        "Old records, one clause broken alone: row, number in it, what it is changed to, part"
    )?;
    moves(rt)
}
