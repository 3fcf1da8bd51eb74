// The numbers that a call answers with, each at a place of its own.
ghost use Rattle.std.specs.Prelude.{◌≡◌, length};
ghost use Rattle.feel_lexer.specs.Numbers.{answer_size};
ghost use Rattle.feel_lexer.specs.Exported.{number, row_of, Checked};

use text::refusal::Refusal;

// In the order of their places, which C knows: the place of the refusal or token, the token type, the length of a text, value or store,
// a number's three lengths, the extra number of an item, and how many items there are.
#[derive(Clone, Copy)]
pub struct Answer {
    pub place: usize,
    pub token_type: usize,
    pub length: usize,
    pub before: usize,
    pub after: usize,
    pub exponent: usize,
    pub extra: usize,
    pub items: usize,
}

impl Answer {
    pub const SIZE: usize = 8;

    // At place 0, and nothing more.
    pub const EMPTY: Answer = Answer {
        place: 0,
        token_type: 0,
        length: 0,
        before: 0,
        after: 0,
        exponent: 0,
        extra: 0,
        items: 0,
    };

    // Writes the numbers to their places.
    pub fn write(self, numbers: &mut [usize])
        requires { length numbers.old ≡ answer_size }
        ensures { numbers.new ≡ row_of self }
    {
        numbers.copy_from_slice(&[
            self.place,
            self.token_type,
            self.length,
            self.before,
            self.after,
            self.exponent,
            self.extra,
            self.items,
        ]);
    }
}

// The number that C gets: that of the refusal, or 0.
#[tactic(auto, unfolding(crate::specs::Exported::number))]
pub fn number(outcome: Result<(), Refusal>) -> u32
    ensures { result ≡ number outcome }
{
    match outcome {
        Ok(()) => 0,
        Err(refusal) => u32::from(refusal),
    }
}

// Refuses an answer that is not of its size, and what else does not hold, which comes behind it. One of its size is set to place 0.
pub fn checked(answer: &mut [usize], more: bool) -> Result<(), Refusal>
    ensures { Checked more answer.old result answer.new }
{
    if answer.len() != Answer::SIZE {
        return Err(Refusal::ShortSlice);
    }
    Answer::EMPTY.write(answer);
    if more {
        Ok(())
    } else {
        Err(Refusal::ShortSlice)
    }
}
