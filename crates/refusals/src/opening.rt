// Bytes opened: Unicode's examples of UTF-8, and texts at their limits.
use crate::lent::FILL;
use crate::told::{Front, Hex, Refused};
use crate::{filled, lent, told};
use std::io;
use text::utf8;
use text::utf8::Text;

static EXAMPLES: [&[u8]; 45] = [
    // The Unicode Standard's example of its encoding forms; then the first and last sequences of each row of its table of well-formed ones.
    b"\x4D\xD0\xB0\xE4\xBA\x8C\xF0\x90\x8C\x82",
    b"\x00\x7F",
    b"\xC2\x80\xDF\xBF",
    b"\xE0\xA0\x80\xE0\xBF\xBF",
    b"\xE1\x80\x80\xEC\xBF\xBF",
    b"\xED\x80\x80\xED\x9F\xBF",
    b"\xEE\x80\x80\xEF\xBF\xBF",
    b"\xF0\x90\x80\x80\xF0\xBF\xBF\xBF",
    b"\xF1\x80\x80\x80\xF3\xBF\xBF\xBF",
    b"\xF4\x80\x80\x80\xF4\x8F\xBF\xBF",
    b"\xEF\xBB\xBF\x61",
    // Bytes just outside the ranges of that table.
    b"\x41\x80",
    b"\x41\xBF",
    b"\xC1\xBF",
    b"\xC2\x7F",
    b"\xC2\xC0",
    b"\xE0\x9F\x80",
    b"\xE0\x9F\xBF",
    b"\xE0\xC0\x80",
    b"\xE1\x7F\x80",
    b"\xE1\x80\xC0",
    b"\xED\xA0\x80",
    b"\xEF\xBF\x7F",
    b"\xF0\x8F\xBF\xBF",
    b"\xF0\x80\x80\x41",
    b"\xF0\x90\x7F\x80",
    b"\xF0\x90\x80\xC0",
    b"\xF4\x90\x80\x80",
    b"\xF5\x80\x80\x80",
    b"\xF0\x90\x8C\x82\xFE",
    b"\x41\x42\xFF",
    // Sequences that the text's end or another character cuts.
    b"\x41\xC2",
    b"\x41\xE2\x82",
    b"\x41\xF0\x90\x8C",
    b"\xE2\x28\xA1",
    b"\xE2\x82\x28",
    b"\xC2\xA0\x80",
    // The Unicode Standard's examples of ill-formed sequences, and of one that is well-formed.
    b"\xC0\xAF\xE0\x80\xBF\xF0\x81\x82\x41",
    b"\xED\xA0\x80\xED\xBF\xBF\xED\xAF\x41",
    b"\xF4\x91\x92\x93\xFF\x41\x80\xBF\x42",
    b"\xE1\x80\xE2\xF0\x91\x92\xF1\xBF\x41",
    b"\x61\xF1\x80\x80\xE1\x80\xC2\x62\x80\x63\x80\xBF\x64",
    b"\x41\xC3\xB1\x42",
    b"\x41\xC2\xC3\xB1\x42",
    b"\xC2\x41\x42",
];

// The answer for an output that was filled before the call.
fn answer(rt: &impl Print, r: Result<Text, utf8::Refused>, out: &[u32]) -> io::Result<()> {
    match r {
        Ok(Text { chars }) => {
            let rest = told::kept(filled::is_filled(out, chars, FILL));
            println!(rt;
                "opened{}; rest of output {rest}",
                Front(out, chars, "characters")
            )
        }
        Err(utf8::Refused { refusal, place }) => {
            let whole = told::kept(filled::is_filled(out, 0, FILL));
            println!(rt; "{} at {place}; output {whole}", Refused(refusal))
        }
    }
}

// Opens bytes, with room for 16 characters.
fn bytes(rt: &impl Print, all: &[u8]) -> io::Result<()> {
    let mut out = [FILL; 16];
    if let [first, rest @ ..] = all {
        print!(rt; "{first:X}{}: ", Hex(rest))?;
    }
    let r = utf8::open_bytes(all, &mut out);
    answer(rt, r, &out)
}

// U+10302.
static SEQUENCE: [u8; 4] = [0xF0, 0x90, 0x8C, 0x82];

// What a place is printed as that no byte has.
const NO_PLACE: usize = 70_000;

// So many bytes, the first of them U+10302 again and again and the others `a`, but for FF in the place `bad`; so many cells are lent.
fn long(
    rt: &impl Print,
    n: usize,
    fours: usize,
    bad: Option<usize>,
    room: usize,
) -> io::Result<()> {
    let mut all = lent::bytes();
    let mut out = lent::cells();
    for (b, x) in lent::front_mut(&mut all, fours)
        .iter_mut()
        .zip(SEQUENCE.iter().cycle())
    {
        *b = *x;
    }
    if let Some(b) = bad.and_then(|place| all.get_mut(place)) {
        *b = 0xFF;
    }
    print!(rt; "{n} {fours} {} {room}: ", bad.unwrap_or(NO_PLACE))?;
    let r = utf8::open_bytes(lent::front(&all, n), lent::front_mut(&mut out, room));
    answer(rt, r, &out)
}

// 01: over 65,536 bytes come first, then bad sequences, then over 16,384 characters, then the room.
static LONG: [(usize, usize, Option<usize>, usize); 10] = [
    (0, 0, None, 0),
    (16_384, 0, None, 16_384),
    (16_385, 0, None, 16_384),
    (65_536, 65_536, None, 16_384),
    (65_537, 65_536, None, 16_384),
    (65_536, 0, Some(0), 16_384),
    (65_537, 0, Some(0), 16_384),
    (65_536, 0, Some(65_535), 0),
    (16_385, 0, None, 0),
    (16_384, 0, None, 16_383),
];

pub fn tried(rt: &impl Print) -> io::Result<()> {
    println!(rt; "UTF-8")?;
    for example in &EXAMPLES {
        bytes(rt, example)?;
    }
    println!(rt;
        "Long texts opened: bytes, those of F0 90 8C 82, place of a byte FF ({NO_PLACE}: none), room"
    )?;
    for &(n, fours, bad, room) in &LONG {
        long(rt, n, fours, bad, room)?;
    }
    Ok(())
}
