// Words and symbols: words stand beside their letters and are tried on the window of twelve characters, which goes by value, in the source's order; a symbol is told by its characters.
ghost use Rattle.std.specs.Prelude.{◌≡◌, ◌==◌, cond, true, [], ◌∷◌, ◌+◌, ◌≤◌, ◌<◌, length, get_or, take};
ghost use Rattle.std.specs.List.{list_all, zip};
ghost use Rattle.reading.specs.Look.{cell_at};
ghost use Rattle.reading.specs.Cells.{holds};
ghost use Rattle.text.specs.Limits.{max_chars};
ghost use Rattle.lexer.specs.Window as spec;
ghost use Rattle.lexer.specs.Shown.{window_of};
ghost use Rattle.lexer.specs.FlagsOf.{flags_of};
ghost use Rattle.lexer.specs.TypeNumber.{type_number};
ghost use Rattle.words.specs.Keywords.{class_of, follow_of, when_of, row_of, rows_of, Lettered, are_rows, links_of, links_from, place_from, letter_words, initials, pairs, sign_of, number_in, sign_found, Followed, Matched};

use lexer::flags::{Flag, Flags};
use lexer::token_type::TokenType;
use lexer::{look, window};
use text::chars::Char;
use text::classes::{Class, Separator, Whitespace};

// What must follow a word: in the window's next place or, of the last two, behind optional whitespace.
#[derive(Clone, Copy)]
enum Follower {
    Space,
    Separator,
    SpaceOrParen,
    Less,
    ParenOrLess,
}

// When a word is taken: always, or by a flag.
#[derive(Clone, Copy)]
enum When {
    Always,
    OutsideBetween,
    InsideBetween,
    InUnaryTests,
}

// A word beside its letters: how many they are, what must follow, when it is taken, its type and value, and the next word that begins as it does.
#[derive(Clone, Copy)]
struct Word {
    letters: usize,
    follower: Follower,
    when: When,
    kind: TokenType,
    value: Option<bool>,
    next: Option<usize>,
}

macro_rules! word {
    ($letters:literal, $follower:ident, $when:ident, $kind:ident, $value:expr, $next:expr) => {
        Word {
            letters: $letters,
            follower: Follower::$follower,
            when: When::$when,
            kind: TokenType::$kind,
            value: $value,
            next: $next,
        }
    };
}

const COUNT: usize = 24;

// The letters, with spaces behind them.
static LETTERS: [[u8; 9]; COUNT] = [
    *b"satisfies",
    *b"external ",
    *b"function ",
    *b"instance ",
    *b"between  ",
    *b"context  ",
    *b"return   ",
    *b"every    ",
    *b"false    ",
    *b"range    ",
    *b"null     ",
    *b"else     ",
    *b"list     ",
    *b"some     ",
    *b"then     ",
    *b"true     ",
    *b"and      ",
    *b"and      ",
    *b"for      ",
    *b"not      ",
    *b"if       ",
    *b"in       ",
    *b"of       ",
    *b"or       ",
];

static WORDS: [Word; COUNT] = [
    word!(9, Space, Always, Satisfies, None, Some(13)),
    word!(8, Space, Always, External, None, Some(7)),
    word!(8, ParenOrLess, Always, Function, None, Some(8)),
    word!(8, Space, Always, Instance, None, Some(20)),
    word!(7, Space, Always, Between, None, None),
    word!(7, Less, Always, Context, None, None),
    word!(6, Space, Always, Return, None, Some(9)),
    word!(5, Space, Always, Every, None, Some(11)),
    word!(5, Separator, Always, Boolean, Some(false), Some(18)),
    word!(5, Less, Always, Range, None, None),
    word!(4, Separator, Always, Null, None, Some(19)),
    word!(4, Space, Always, Else, None, None),
    word!(4, Less, Always, List, None, None),
    word!(4, Space, Always, Some, None, None),
    word!(4, Space, Always, Then, None, Some(15)),
    word!(4, Separator, Always, Boolean, Some(true), None),
    word!(3, Space, OutsideBetween, And, None, Some(17)),
    word!(3, Space, InsideBetween, BetweenAnd, None, None),
    word!(3, Space, Always, For, None, None),
    word!(3, SpaceOrParen, InUnaryTests, Not, None, None),
    word!(2, Space, Always, If, None, Some(21)),
    word!(2, Space, Always, In, None, None),
    word!(2, Space, Always, Of, None, Some(23)),
    word!(2, Space, Always, Or, None, None),
];

// The first word that begins with x.
#[tactic(auto, using(std::proofs::lemmas::Bool::Decides::nat_tests), unfolding(crate::specs::Keywords::place_from, crate::specs::Keywords::initials))]
fn first_row(x: u32) -> Option<usize>
    ensures { result ≡ place_from 0 initials x }
{
    match x {
        Char::SMALL_A => Some(16),
        Char::SMALL_B => Some(4),
        Char::SMALL_C => Some(5),
        Char::SMALL_E => Some(1),
        Char::SMALL_F => Some(2),
        Char::SMALL_I => Some(3),
        Char::SMALL_L => Some(12),
        Char::SMALL_N => Some(10),
        Char::SMALL_O => Some(22),
        Char::SMALL_R => Some(6),
        Char::SMALL_S => Some(0),
        Char::SMALL_T => Some(14),
        _ => None,
    }
}

// The type of the symbol that c is.
#[tactic(auto, using(std::proofs::lemmas::Bool::Decides::nat_tests), unfolding(crate::specs::Keywords::sign_of, lexer::specs::Window::symbols))]
fn symbol(c: u32) -> Option<TokenType>
    ensures { number_in result ≡ sign_of spec.symbols (c ∷ []) }
{
    match c {
        Char::DOT => Some(TokenType::Dot),
        Char::COMMA => Some(TokenType::Comma),
        Char::COLON => Some(TokenType::Colon),
        Char::PLUS => Some(TokenType::Plus),
        Char::MINUS => Some(TokenType::Minus),
        Char::STAR => Some(TokenType::Mul),
        Char::SLASH => Some(TokenType::Div),
        Char::EQUAL => Some(TokenType::Eq),
        Char::LESS => Some(TokenType::Lt),
        Char::GREATER => Some(TokenType::Gt),
        Char::LEFT_PAREN => Some(TokenType::LeftParen),
        Char::RIGHT_PAREN => Some(TokenType::RightParen),
        Char::LEFT_BRACKET => Some(TokenType::LeftBracket),
        Char::RIGHT_BRACKET => Some(TokenType::RightBracket),
        Char::LEFT_BRACE => Some(TokenType::LeftBrace),
        Char::RIGHT_BRACE => Some(TokenType::RightBrace),
        Char::AT => Some(TokenType::At),
        _ => None,
    }
}

// The type of the symbol that c and d are.
#[tactic(auto, using(std::proofs::lemmas::Bool::Decides::nat_tests), unfolding(crate::specs::Keywords::sign_of, crate::specs::Keywords::pairs))]
fn pair(c: u32, d: u32) -> Option<TokenType>
    ensures { number_in result ≡ sign_of pairs (c ∷ d ∷ []) }
{
    match (c, d) {
        (Char::DOT, Char::DOT) => Some(TokenType::Ellipsis),
        (Char::STAR, Char::STAR) => Some(TokenType::Exp),
        (Char::EXCLAMATION_MARK, Char::EQUAL) => Some(TokenType::Ne),
        (Char::LESS, Char::EQUAL) => Some(TokenType::Le),
        (Char::GREATER, Char::EQUAL) => Some(TokenType::Ge),
        (Char::MINUS, Char::GREATER) => Some(TokenType::RightArrow),
        _ => None,
    }
}

// Whether c may follow a word.
fn is_follower(follower: Follower, c: u32) -> bool
    ensures { result ≡ class_of follower c }
{
    match follower {
        Follower::Space => c == Char::SPACE,
        Follower::Separator => Separator::has(c),
        Follower::SpaceOrParen => matches!(c, Char::SPACE | Char::LEFT_PAREN),
        Follower::Less => c == Char::LESS,
        Follower::ParenOrLess => matches!(c, Char::LEFT_PAREN | Char::LESS),
    }
}

fn follower_at(rest: &[u32], j: usize, follower: Follower) -> bool
    ensures { result ≡ holds (class_of follower) (cell_at rest.now j) }
{
    rest.get(j).is_some_and(|c| is_follower(follower, *c))
}

// Whether what must follow stands behind a word, and the reach.
#[derive(Clone, Copy)]
struct Behind {
    stands: bool,
    reach: usize,
}

// Whether what must follow stands behind a word of n letters: in the window w, or in the text behind the whitespace from i + n on.
fn follows(
    follower: Follower,
    w: [u32; 12],
    rest: &[u32],
    i: usize,
    n: usize,
    reach: usize,
) -> Behind
    requires { (length rest.now ≤ max_chars) × (n < 12) × (i + n ≤ length rest.now) × (reach ≤ length rest.now + 12) }
    ensures { Followed rest.now reach (follow_of follower) w n i result.stands result.reach }
{
    match follower {
        Follower::Less | Follower::ParenOrLess => {
            let j = look::end_of::<Whitespace>(rest, i + n);
            let far = reach.max(j + 1);
            Behind {
                stands: follower_at(rest, j, follower),
                reach: far,
            }
        }
        _ => Behind {
            stands: is_follower(follower, w[n]),
            reach,
        },
    }
}

// Whether the state is one that a word is taken in.
fn is_taken(when: When, flags: Flags) -> bool
    ensures { result ≡ spec.taken (when_of when) (flags_of flags) }
{
    match when {
        When::Always => true,
        When::OutsideBetween => !flags.between,
        When::InsideBetween => flags.between,
        When::InUnaryTests => flags.unary_tests,
    }
}

// Whether the letters lead the window.
fn leads(letters: &[u8], w: [u32; 12]) -> bool
    ensures { result ≡ list_all (λ p. p.0 == p.1) (zip letters.now w) }
{
    letters
        .iter()
        .zip(w.iter())
        .all(|(letter, c)| u32::from(*letter) == *c)
}

// A word or symbol that was found: its type, its value and its end.
#[derive(Clone, Copy)]
pub struct Found {
    pub kind: TokenType,
    pub value: Option<bool>,
    pub end: usize,
}

// What was found, and the reach of the search.
#[derive(Clone, Copy)]
pub struct Match {
    pub found: Option<Found>,
    pub reach: usize,
}

// The word, if it fits the window w at i.
fn try_word(
    letters: &[u8; 9],
    word: Word,
    w: [u32; 12],
    rest: &[u32],
    i: usize,
    flags: Flags,
    reach: usize,
) -> Match
    requires { Lettered letters.now word.letters × (w ≡ window_of 12 rest.now i) × (length rest.now ≤ max_chars) × (i ≤ length rest.now) × (reach ≤ length rest.now + 12) }
    ensures { Matched (row_of letters.now word ∷ []) rest.now reach i w (flags_of flags) result }
{
    let n = word.letters;
    if !is_taken(word.when, flags) || !leads(&letters[..n], w) {
        return Match { found: None, reach };
    }
    let behind = follows(word.follower, w, rest, i, n, reach);
    let found = Found {
        kind: word.kind,
        value: word.value,
        end: i + n,
    };
    Match {
        found: behind.stands.then_some(found),
        reach: behind.reach,
    }
}

// The first word that fits the window w at i, where `first` is the first that begins as it does and r the reach so far.
fn first_of(
    letters: &[[u8; 9]],
    words: &[Word],
    first: Option<usize>,
    w: [u32; 12],
    rest: &[u32],
    i: usize,
    flags: Flags,
    r: usize,
) -> Match
    requires { (are_rows letters.now words.now ≡ true) × (links_of words.now ≡ links_from 0 letters.now) × (first ≡ place_from 0 letters.now (spec.shown (cell_at rest.now i))) × (w ≡ window_of 12 rest.now i) × (length rest.now ≤ max_chars) × (i ≤ length rest.now) × (r ≤ length rest.now + 12) }
    ensures { Matched (rows_of letters.now words.now) rest.now r i w (flags_of flags) result }
{
    let mut reach = r;
    let mut next = first;
    while let Some(k) = next {
        let word = words[k];
        let m = try_word(&letters[k], word, w, rest, i, flags, reach);
        if m.found.is_some() {
            return m;
        }
        reach = m.reach;
        next = word.next;
    }
    Match { found: None, reach }
}

// The symbol of n characters at i, by its type.
fn of_sign(kind: Option<TokenType>, n: usize, i: usize, reach: usize) -> Match
    requires { (i ≤ max_chars) × (n ≤ 2) }
    ensures { (result.found ≡ sign_found kind (i + n)) × (result.reach ≡ reach) }
{
    let found = kind.map(|kind| Found {
        kind,
        value: None,
        end: i + n,
    });
    Match { found, reach }
}

// The first word or symbol of two characters that fits the window at i, which has been looked at and begins with c.
// Ruled out, among others: `and` taken for And inside a between; a reach without the look behind `list` where no `<` follows.
pub fn first_word(rest: &[u32], i: usize, c: u32, flags: Flags) -> Match
    requires { (length rest.now ≤ max_chars) × (i ≤ length rest.now) × (c ≡ spec.shown (cell_at rest.now i)) }
    ensures { Matched spec.words rest.now (i + 12) i (window_of 12 rest.now i) (flags_of flags) result }
{
    let reach = i + 12;
    let first = first_row(c);
    if first.is_some() {
        let w = window::window(rest, i);
        return first_of(&LETTERS, &WORDS, first, w, rest, i, flags, reach);
    }
    let d = window::shown_at(rest, i + 1);
    of_sign(pair(c, d), 2, i, reach)
}

// The symbol of one character that fits the window at i, which begins with c; r is the reach that the words have made.
// Ruled out, among others: the text's end taken for a symbol; the reach set back to the window's.
pub fn first_symbol(rest: &[u32], i: usize, c: u32, flags: Flags, r: usize) -> Match
    requires { (length rest.now ≤ max_chars) × (i ≤ length rest.now) × (c ≡ spec.shown (cell_at rest.now i)) × (r ≤ length rest.now + 12) }
    ensures { Matched spec.symbols rest.now r i (window_of 12 rest.now i) (flags_of flags) result }
{
    of_sign(symbol(c), 1, i, r)
}

// The flags after a word of this type: BetweenAnd clears `between`.
// Ruled out, among others: `between` cleared by And; `unary_tests` cleared with it.
pub fn after_word(kind: TokenType, flags: Flags) -> Flags
    ensures { flags_of result ≡ spec.after_word (type_number kind) (flags_of flags) }
{
    if kind == TokenType::BetweenAnd {
        return flags.clear(Flag::Between);
    }
    flags
}
