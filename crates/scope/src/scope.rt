// The counts of a scope. Its entries and parsed names stand in the rows that are lent beside it.
ghost use Rattle.std.specs.Prelude.{◌≡◌, false, List, [], ◌∷◌, ℕ, suc, ◌+◌, ◌≤◌, length};
ghost use Rattle.scope.specs.Limits.{max_contexts, max_entries, max_parsed, max_name, max_depth};
ghost use Rattle.scope.specs.Entries.{opened, variable, context_kind};
ghost use Rattle.scope.specs.Keys.{longest_key};
ghost use Rattle.scope.specs.Lent.{scope_of, is_broken};
ghost use Rattle.scope.specs.Answers.{lent};
ghost use Rattle.scope.specs.Kinds.{kind_number};

// How many contexts are stacked, and how many entries and parsed names are in use.
#[derive(Clone, Copy)]
pub struct Scope {
    pub contexts: usize,
    pub entries: usize,
    pub parsed: usize,
}

impl Scope {
    pub const MAX_CONTEXTS: usize = 32;

    pub const MAX_ENTRIES: usize = 512;

    pub const MAX_PARSED: usize = 256;

    // Characters of a name.
    pub const MAX_NAME: usize = 128;

    // Depths of an entry are 0 to 7.
    pub const MAX_DEPTH: u32 = 7;

    // Levels of a context, one for each depth.
    pub const LEVELS: usize = 8;

    // Characters of the longest possible key: eight names, and " . " seven times.
    pub const LONGEST_KEY: usize = 1_045;

    // Rows of slots and of names that are lent beside the counts: those of the entries, then those of the parsed names.
    pub const ROWS: usize = Scope::MAX_ENTRIES + Scope::MAX_PARSED;

    // One empty context.
    pub fn opened() -> Scope
        ensures { ((ss ns : List (List ℕ)) → scope_of (lent result ss ns) ≡ opened)
            × ((ss ns : List (List ℕ)) → max_entries + max_parsed ≤ length ss → max_entries + max_parsed ≤ length ns → is_broken (lent result ss ns) ≡ false) }
    {
        Scope {
            contexts: 1,
            entries: 0,
            parsed: 0,
        }
    }
}

// What an entry is.
#[derive(Clone, Copy, Debug, PartialEq, Eq)]
pub enum Kind {
    Variable = 0,
    Context = 1,
}

impl From<Kind> for u32 {
    ghost from_gives = { λ k n. n ≡ kind_number k };

    fn from(k: Kind) -> u32 {
        k as u32
    }
}

// The places in a row of slots. A parsed name uses the last alone.
#[derive(Clone, Copy)]
pub struct Slot {}

impl Slot {
    pub const CONTEXT: usize = 0;

    pub const DEPTH: usize = 1;

    pub const KIND: usize = 2;

    // Characters of the name.
    pub const LENGTH: usize = 3;

    pub const NUMBERS: usize = 4;
}

// The places in a row of an entry list; the name is a span of the cells lent beside it.
#[derive(Clone, Copy)]
pub struct Listed {}

impl Listed {
    pub const DEPTH: usize = 0;

    pub const KIND: usize = 1;

    pub const START: usize = 2;

    pub const LENGTH: usize = 3;

    pub const NUMBERS: usize = 4;
}

// Every limit and kind, and what follows from them.
// Ruled out, among others: a constant that is another number than 01's.
pub fn numbers() -> [usize; 10]
    ensures { result ≡ (max_contexts ∷ max_entries ∷ max_parsed ∷ (max_entries + max_parsed) ∷ max_name ∷ max_depth ∷ suc max_depth ∷ longest_key ∷ variable ∷ context_kind ∷ []) }
{
    [
        Scope::MAX_CONTEXTS,
        Scope::MAX_ENTRIES,
        Scope::MAX_PARSED,
        Scope::ROWS,
        Scope::MAX_NAME,
        Scope::MAX_DEPTH as usize,
        Scope::LEVELS,
        Scope::LONGEST_KEY,
        Kind::Variable as usize,
        Kind::Context as usize,
    ]
}
