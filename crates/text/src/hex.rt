// Hexadecimal digits.
ghost use Rattle.std.specs.Prelude.{◌≡◌};
ghost use Rattle.text.specs.Hex.{hex_value};

use crate::chars::Char;

// The value of a hexadecimal digit.
// Ruled out, among others: A taken for eleven; G taken for a digit.
pub fn hex_to_decimal(c: u32) -> Option<u32>
    ensures { result ≡ hex_value c }
{
    match c {
        Char::DIGIT_0..=Char::DIGIT_9 => Some(c - Char::DIGIT_0),
        Char::CAPITAL_A..=Char::CAPITAL_F => Some(c - Char::CAPITAL_A + 10),
        Char::SMALL_A..=Char::SMALL_F => Some(c - Char::SMALL_A + 10),
        _ => None,
    }
}
