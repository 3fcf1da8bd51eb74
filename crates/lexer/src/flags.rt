// The five flags of the lexer's state.
ghost use Rattle.std.specs.Prelude.{◌≡◌, true, false};
ghost use Rattle.lexer.specs.Flags.{put, clear};
ghost use Rattle.lexer.specs.FlagBits.{flag_bits, bit_flags};
ghost use Rattle.lexer.specs.FlagsOf.{flags_of, flag_named};

// A flag by name, and its bit where the five are one number.
#[derive(Clone, Copy)]
pub enum Flag {
    UnaryTests = 1,
    Between = 2,
    TypeName = 4,
    TillIn = 8,
    AfterDot = 16,
}

#[derive(Clone, Copy, Default)]
pub struct Flags {
    pub unary_tests: bool,
    pub between: bool,
    pub type_name: bool,
    pub till_in: bool,
    pub after_dot: bool,
}

impl Flags {
    // All five as one number.
    pub const ALL: u32 = 31;

    // This flag alone anew.
    #[inline]
    fn put(self, flag: Flag, on: bool) -> Flags
        ensures { flags_of result ≡ put on (flag_named flag) (flags_of self) }
    {
        match flag {
            Flag::UnaryTests => Flags {
                unary_tests: on,
                ..self
            },
            Flag::Between => Flags {
                between: on,
                ..self
            },
            Flag::TypeName => Flags {
                type_name: on,
                ..self
            },
            Flag::TillIn => Flags {
                till_in: on,
                ..self
            },
            Flag::AfterDot => Flags {
                after_dot: on,
                ..self
            },
        }
    }

    // Ruled out, among others: another flag set with it; a flag that was set cleared.
    #[inline]
    pub fn set(self, flag: Flag) -> Flags
        ensures { flags_of result ≡ put true (flag_named flag) (flags_of self) }
    {
        self.put(flag, true)
    }

    // Ruled out, among others: all five cleared; `between` cleared for `type_name`.
    #[inline]
    pub fn clear(self, flag: Flag) -> Flags
        ensures { flags_of result ≡ clear (flag_named flag) (flags_of self) }
    {
        self.put(flag, false)
    }

    // The flags of a number.
    pub fn from_bits(n: u32) -> Flags
        ensures { flags_of result ≡ bit_flags n }
    {
        let has = |flag: Flag| n / flag as u32 % 2 == 1;
        Flags {
            unary_tests: has(Flag::UnaryTests),
            between: has(Flag::Between),
            type_name: has(Flag::TypeName),
            till_in: has(Flag::TillIn),
            after_dot: has(Flag::AfterDot),
        }
    }
}

impl From<Flags> for u32 {
    ghost from_gives = { λ f n. n ≡ flag_bits (flags_of f) };

    fn from(flags: Flags) -> u32 {
        u32::from(flags.unary_tests)
            + 2 * u32::from(flags.between)
            + 4 * u32::from(flags.type_name)
            + 8 * u32::from(flags.till_in)
            + 16 * u32::from(flags.after_dot)
    }
}
