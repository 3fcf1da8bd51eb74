// The character classes, each a table of ranges that rise.
// Ruled out, among others: a range one short at its end (U+200B no whitespace); the last character of a range left out.
ghost use Rattle.std.specs.Prelude.{◌≡◌, ℕ, Bool, true};
ghost use Rattle.text.specs.Ranges.{Found, rises};
ghost use Rattle.text.specs.Classes as spec;

use crate::chars::Char;

// A class of characters. Each is its own impl: it has a first test of its own, and its table is proved by computing.
pub trait Class {
    ghost class: { ℕ → Bool };

    // Whether c is of the class.
    fn has(c: u32) -> bool
        ensures { result ≡ class c };
}

pub struct VerticalSpace;

pub struct Whitespace;

pub struct Digit;

pub struct NameStart;

pub struct NamePart;

// Unicode's White_Space, for trimming.
pub struct White;

pub struct Scalar;

// An additional name symbol.
pub struct Symbol;

pub struct Separator;

// Whether c lies in a range of the table. The first range above c ends the search, so that an ASCII character costs few comparisons.
pub fn in_ranges(table: &[[u32; 2]], c: u32) -> bool
    requires { rises 0 table.now ≡ true }
    ensures { Found table.now c result }
{
    for [first, last] in table {
        if c < *first {
            return false;
        }
        if c <= *last {
            return true;
        }
    }
    false
}

static VERTICAL_SPACES: [[u32; 2]; 1] = [[0x0A, 0x0D]];

static WHITESPACES: [[u32; 2]; 14] = [
    [0x09, 0x09],
    [0x0A, 0x0D],
    [0x20, 0x20],
    [0x85, 0x85],
    [0xA0, 0xA0],
    [0x1680, 0x1680],
    [0x180E, 0x180E],
    [0x2000, 0x200B],
    [0x2028, 0x2028],
    [0x2029, 0x2029],
    [0x202F, 0x202F],
    [0x205F, 0x205F],
    [0x3000, 0x3000],
    [0xFEFF, 0xFEFF],
];

static DIGITS: [[u32; 2]; 1] = [[0x30, 0x39]];

static NAME_STARTS: [[u32; 2]; 16] = [
    [0x3F, 0x3F],
    [0x41, 0x5A],
    [0x5F, 0x5F],
    [0x61, 0x7A],
    [0xC0, 0xD6],
    [0xD8, 0xF6],
    [0xF8, 0x2FF],
    [0x370, 0x37D],
    [0x37F, 0x1FFF],
    [0x200C, 0x200D],
    [0x2070, 0x218F],
    [0x2C00, 0x2FEF],
    [0x3001, 0xD7FF],
    [0xF900, 0xFDCF],
    [0xFDF0, 0xFFFD],
    [0x10000, 0xEFFFF],
];

static NAME_PARTS: [[u32; 2]; 20] = [
    [0x30, 0x39],
    [0x3F, 0x3F],
    [0x41, 0x5A],
    [0x5F, 0x5F],
    [0x61, 0x7A],
    [0xB7, 0xB7],
    [0xC0, 0xD6],
    [0xD8, 0xF6],
    [0xF8, 0x2FF],
    [0x300, 0x36F],
    [0x370, 0x37D],
    [0x37F, 0x1FFF],
    [0x200C, 0x200D],
    [0x203F, 0x2040],
    [0x2070, 0x218F],
    [0x2C00, 0x2FEF],
    [0x3001, 0xD7FF],
    [0xF900, 0xFDCF],
    [0xFDF0, 0xFFFD],
    [0x10000, 0xEFFFF],
];

static WHITE_SPACES: [[u32; 2]; 11] = [
    [0x09, 0x0D],
    [0x20, 0x20],
    [0x85, 0x85],
    [0xA0, 0xA0],
    [0x1680, 0x1680],
    [0x2000, 0x200A],
    [0x2028, 0x2028],
    [0x2029, 0x2029],
    [0x202F, 0x202F],
    [0x205F, 0x205F],
    [0x3000, 0x3000],
];

static SCALARS: [[u32; 2]; 2] = [[0x0, 0xD7FF], [0xE000, 0x10FFFF]];

static SYMBOLS: [[u32; 2]; 6] = [
    [0x27, 0x27],
    [0x2A, 0x2A],
    [0x2B, 0x2B],
    [0x2D, 0x2D],
    [0x2E, 0x2E],
    [0x2F, 0x2F],
];

static SEPARATORS: [[u32; 2]; 16] = [
    [0x20, 0x20],
    [0x21, 0x21],
    [0x25, 0x25],
    [0x29, 0x29],
    [0x2A, 0x2A],
    [0x2B, 0x2B],
    [0x2C, 0x2C],
    [0x2D, 0x2D],
    [0x2E, 0x2E],
    [0x2F, 0x2F],
    [0x3C, 0x3C],
    [0x3D, 0x3D],
    [0x3E, 0x3E],
    [0x5B, 0x5B],
    [0x5D, 0x5D],
    [0x7D, 0x7D],
];

impl Class for VerticalSpace {
    ghost class = { spec.is_vertical_space };

    #[tactic(auto, unfolding(crate::specs::Ranges::rises, crate::specs::Classes::is_vertical_space))]
    fn has(c: u32) -> bool {
        in_ranges(&VERTICAL_SPACES, c)
    }
}

// Most whitespace is a space, and most other characters of a rule lie where there is none.
impl Class for Whitespace {
    ghost class = { spec.is_whitespace };

    #[tactic(auto, unfolding(crate::specs::Ranges::rises, crate::specs::Classes::is_whitespace))]
    fn has(c: u32) -> bool {
        match c {
            Char::SPACE => true,
            0x21..=0x84 => false,
            _ => in_ranges(&WHITESPACES, c),
        }
    }
}

impl Class for Digit {
    ghost class = { spec.is_digit };

    #[tactic(auto, unfolding(crate::specs::Ranges::rises, crate::specs::Classes::is_digit))]
    fn has(c: u32) -> bool {
        in_ranges(&DIGITS, c)
    }
}

// Most characters of a name are small letters.
impl Class for NameStart {
    ghost class = { spec.is_name_start };

    #[tactic(auto, unfolding(crate::specs::Ranges::rises, crate::specs::Classes::is_name_start))]
    fn has(c: u32) -> bool {
        match c {
            Char::SMALL_A..=Char::SMALL_Z => true,
            _ => in_ranges(&NAME_STARTS, c),
        }
    }
}

impl Class for NamePart {
    ghost class = { spec.is_name_part };

    #[tactic(auto, unfolding(crate::specs::Ranges::rises, crate::specs::Classes::is_name_part))]
    fn has(c: u32) -> bool {
        match c {
            Char::SMALL_A..=Char::SMALL_Z => true,
            _ => in_ranges(&NAME_PARTS, c),
        }
    }
}

impl Class for White {
    ghost class = { spec.is_white };

    #[tactic(auto, unfolding(crate::specs::Ranges::rises, crate::specs::Classes::is_white))]
    fn has(c: u32) -> bool {
        match c {
            0x21..=0x84 => false,
            _ => in_ranges(&WHITE_SPACES, c),
        }
    }
}

impl Class for Scalar {
    ghost class = { spec.is_scalar };

    #[tactic(auto, unfolding(crate::specs::Ranges::rises, crate::specs::Classes::is_scalar))]
    fn has(c: u32) -> bool {
        in_ranges(&SCALARS, c)
    }
}

impl Class for Symbol {
    ghost class = { spec.is_symbol };

    #[tactic(auto, unfolding(crate::specs::Ranges::rises, crate::specs::Classes::is_symbol))]
    fn has(c: u32) -> bool {
        match c {
            0x30..=0x7E => false,
            _ => in_ranges(&SYMBOLS, c),
        }
    }
}

impl Class for Separator {
    ghost class = { spec.is_separator };

    #[tactic(auto, unfolding(crate::specs::Ranges::rises, crate::specs::Classes::is_separator))]
    fn has(c: u32) -> bool {
        in_ranges(&SEPARATORS, c)
    }
}
