// An item of a record as a struct: the eleven numbers of its row by name.
ghost use Rattle.std.specs.Prelude.{◌≡◌};
ghost use Rattle.records.specs.Stored.{stored_of, row_from};

use lexer::flags::Flags;
use runs::item::{Item, Row};

// 01: type or refusal, position and flags after, and reach; the value's start and length in the store, a number's three lengths, and a Boolean, a sign or a carry. The fields are the lent row's numbers by name.
#[derive(Clone, Copy, Default)]
pub struct Stored {
    pub refused: bool,
    pub number: u32,
    pub position: u32,
    pub flags: Flags,
    pub reach: u32,
    pub start: u32,
    pub length: u32,
    pub before: u32,
    pub after: u32,
    pub exponent: u32,
    pub extra: u32,
}

// Ruled out, among others: the reach taken for the position; a flag taken for its neighbour.
impl From<Row> for Stored {
    ghost from_gives = { λ row it. it ≡ stored_of row };

    fn from(row: Row) -> Stored {
        Stored {
            refused: row[Item::REFUSED] == 1,
            number: row[Item::NUMBER],
            position: row[Item::POSITION],
            flags: Flags::from_bits(row[Item::FLAGS]),
            reach: row[Item::REACH],
            start: row[Item::START],
            length: row[Item::LENGTH],
            before: row[Item::BEFORE],
            after: row[Item::AFTER],
            exponent: row[Item::EXPONENT],
            extra: row[Item::EXTRA],
        }
    }
}

// Ruled out, among others: a value's start left out; the flags of another item.
impl From<Stored> for Row {
    ghost from_gives = { λ it row. row ≡ row_from it };

    fn from(it: Stored) -> Row {
        [
            u32::from(it.refused),
            it.number,
            it.position,
            u32::from(it.flags),
            it.reach,
            it.start,
            it.length,
            it.before,
            it.after,
            it.exponent,
            it.extra,
        ]
    }
}
