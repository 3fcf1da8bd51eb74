// The refusals: their numbers are 01's.
ghost use Rattle.std.specs.Prelude.{◌≡◌};
ghost use Rattle.text.specs.Refusals as spec;
ghost use Rattle.text.specs.RefusalNumber.{number_of};

// Why a call does nothing. The first eight are caused by the author's text, the others by the host.
#[derive(Clone, Copy, Debug, PartialEq, Eq)]
pub enum Refusal {
    TooLong = 1,
    NotUtf8 = 2,
    NoHexDigit = 3,
    EndAtHexDigit = 4,
    NoScalarValue = 5,
    NoSecondHalf = 6,
    EndAtSecondHalf = 7,
    StartsWithIn = 8,
    ShortSlice = 9,
    BrokenScope = 10,
    OverLimit = 11,
    BeyondText = 12,
    BrokenRequest = 13,
}

// Ruled out, among others: a refusal that is another number than 01's.
impl From<Refusal> for u32 {
    ghost from_gives = { λ r n. n ≡ number_of r };

    fn from(r: Refusal) -> u32 {
        r as u32
    }
}

impl Refusal {
    // In the order of the definitions.
    pub const ALL: [Refusal; 13] = [
        Refusal::TooLong,
        Refusal::NotUtf8,
        Refusal::NoHexDigit,
        Refusal::EndAtHexDigit,
        Refusal::NoScalarValue,
        Refusal::NoSecondHalf,
        Refusal::EndAtSecondHalf,
        Refusal::StartsWithIn,
        Refusal::ShortSlice,
        Refusal::BrokenScope,
        Refusal::OverLimit,
        Refusal::BeyondText,
        Refusal::BrokenRequest,
    ];
}

// The number of every refusal.
// Ruled out, among others: a number other than 01's.
pub fn numbers() -> [u32; 13]
    ensures { result ≡ spec.all }
{
    Refusal::ALL.map(u32::from)
}
