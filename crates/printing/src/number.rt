// Numbers as the record program prints them.
ghost use Rattle.std.specs.Prelude.{◌≡◌, [], ◌++◌, ◌+◌, ◌≤◌, ◌<◌, length};
ghost use Rattle.runs.specs.Print as spec;
ghost use Rattle.printing.specs.Room.{max_printed};

use crate::output::Output;
use text::chars::Char;

// Digits 0 to 9, then A to F.
fn digit(d: usize) -> u32
    requires { d < 16 }
    ensures { result ≡ spec.digit d }
{
    let d = d as u32;
    if d < 10 {
        Char::DIGIT_0 + d
    } else {
        Char::CAPITAL_A - 10 + d
    }
}

// Writes a number in a base; ten digits hold every u32.
// Ruled out, among others: zeros in front; no digit at all for 0.
pub fn put_number(base: usize, n: usize, out: &mut Output)
    requires { (0 < base) × (base ≤ 16) × (length out.old + length (spec.digits_in base 10 n []) ≤ max_printed) }
    ensures { out.new ≡ out.old ++ spec.digits_in base 10 n [] }
{
    let mut digits = [0; 10];
    let mut rest = n;
    for i in (0..10).rev() {
        digits[i] = digit(rest % base);
        if rest < base {
            return out.append(&digits[i..]);
        }
        rest /= base;
    }
    out.append(&digits)
}
