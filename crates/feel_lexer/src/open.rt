// Bytes opened to one cell a character.
ghost use Rattle.std.specs.Prelude.{◌≡◌};
ghost use Rattle.feel_lexer.specs.Exported as spec;

use crate::answer;
use crate::answer::Answer;
use text::refusal::Refusal;
use text::utf8::{Refused, Text};

// Opens the bytes, and writes how many characters there are, or the place of a refusal.
#[tactic(auto, unfolding(crate::specs::Exported::number))]
fn opened(bytes: &[u8], cells: &mut [u32], answer: &mut [usize]) -> Result<(), Refusal>
    ensures { spec.feel_open bytes.now cells.old answer.old ≡ record { number = spec.number result; cells = cells.new; answer = answer.new } }
{
    answer::checked(answer, true)?;
    match text::utf8::open_bytes(bytes, cells) {
        Ok(Text { chars }) => {
            Answer {
                length: chars,
                ..Answer::EMPTY
            }
            .write(answer);
            Ok(())
        }
        Err(Refused { refusal, place }) => {
            Answer {
                place,
                ..Answer::EMPTY
            }
            .write(answer);
            Err(refusal)
        }
    }
}

// Opens UTF-8: its characters fill the front of the cells.
// Ruled out, among others: a bad sequence told at the byte behind it; cells written where the text is refused.
#[unsafe(no_mangle)]
pub extern "C" fn feel_open(bytes: &[u8], cells: &mut [u32], answer: &mut [usize]) -> u32
    ensures { spec.feel_open bytes.now cells.old answer.old ≡ record { number = result; cells = cells.new; answer = answer.new } }
{
    answer::number(opened(bytes, cells, answer))
}
