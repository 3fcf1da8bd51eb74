// The token types: their numbers are those of the grammar tables (lalr.rs).
ghost use Rattle.std.specs.Prelude.{◌≡◌};
ghost use Rattle.lexer.specs.TokenTypes as spec;
ghost use Rattle.lexer.specs.TypeNumber.{type_number};
ghost use Rattle.lexer.specs.Lexer.{start_types};

#[derive(Clone, Copy, PartialEq, Eq)]
pub enum TokenType {
    YyEof = 0,
    YyError = 256,
    YyUndef = 257,
    StartExpression = 258,
    StartBoxedExpression = 259,
    StartTextualExpression = 260,
    StartTextualExpressions = 261,
    StartUnaryTests = 262,
    StartSimpleExpression = 263,
    StartSimpleExpressions = 264,
    StartSimpleValue = 265,
    StartRangeLiteral = 266,
    At = 267,
    Not = 268,
    Colon = 269,
    Comma = 270,
    Every = 271,
    For = 272,
    LeftBrace = 273,
    Null = 274,
    RightArrow = 275,
    Of = 276,
    List = 277,
    Range = 278,
    Context = 279,
    Then = 280,
    Function = 281,
    External = 282,
    If = 283,
    RightBrace = 284,
    Return = 285,
    Some = 286,
    Numeric = 287,
    String = 288,
    Boolean = 289,
    Satisfies = 290,
    Else = 291,
    Or = 292,
    And = 293,
    Eq = 294,
    Ne = 295,
    Lt = 296,
    Le = 297,
    Gt = 298,
    Ge = 299,
    Between = 300,
    BetweenAnd = 301,
    In = 302,
    Minus = 303,
    Plus = 304,
    Mul = 305,
    Div = 306,
    Exp = 307,
    Instance = 309,
    Name = 310,
    NameDateTime = 311,
    BuiltInTypeName = 312,
    LeftParen = 313,
    RightParen = 314,
    LeftBracket = 315,
    RightBracket = 316,
    Ellipsis = 317,
    Dot = 318,
}

impl From<TokenType> for u32 {
    ghost from_gives = { λ t n. n ≡ type_number t };

    #[inline]
    fn from(t: TokenType) -> u32 {
        t as u32
    }
}

impl TokenType {
    // Every token type, in the order of the definitions.
    pub const ALL: [TokenType; 63] = [
        TokenType::YyEof,
        TokenType::YyError,
        TokenType::YyUndef,
        TokenType::StartExpression,
        TokenType::StartBoxedExpression,
        TokenType::StartTextualExpression,
        TokenType::StartTextualExpressions,
        TokenType::StartUnaryTests,
        TokenType::StartSimpleExpression,
        TokenType::StartSimpleExpressions,
        TokenType::StartSimpleValue,
        TokenType::StartRangeLiteral,
        TokenType::At,
        TokenType::Not,
        TokenType::Colon,
        TokenType::Comma,
        TokenType::Every,
        TokenType::For,
        TokenType::LeftBrace,
        TokenType::Null,
        TokenType::RightArrow,
        TokenType::Of,
        TokenType::List,
        TokenType::Range,
        TokenType::Context,
        TokenType::Then,
        TokenType::Function,
        TokenType::External,
        TokenType::If,
        TokenType::RightBrace,
        TokenType::Return,
        TokenType::Some,
        TokenType::Numeric,
        TokenType::String,
        TokenType::Boolean,
        TokenType::Satisfies,
        TokenType::Else,
        TokenType::Or,
        TokenType::And,
        TokenType::Eq,
        TokenType::Ne,
        TokenType::Lt,
        TokenType::Le,
        TokenType::Gt,
        TokenType::Ge,
        TokenType::Between,
        TokenType::BetweenAnd,
        TokenType::In,
        TokenType::Minus,
        TokenType::Plus,
        TokenType::Mul,
        TokenType::Div,
        TokenType::Exp,
        TokenType::Instance,
        TokenType::Name,
        TokenType::NameDateTime,
        TokenType::BuiltInTypeName,
        TokenType::LeftParen,
        TokenType::RightParen,
        TokenType::LeftBracket,
        TokenType::RightBracket,
        TokenType::Ellipsis,
        TokenType::Dot,
    ];

    // The numbers of the start types, by which a match tells the host's number apart.
    pub const START_EXPRESSION: u32 = TokenType::StartExpression as u32;

    pub const START_BOXED_EXPRESSION: u32 = TokenType::StartBoxedExpression as u32;

    pub const START_TEXTUAL_EXPRESSION: u32 = TokenType::StartTextualExpression as u32;

    pub const START_TEXTUAL_EXPRESSIONS: u32 = TokenType::StartTextualExpressions as u32;

    pub const START_UNARY_TESTS: u32 = TokenType::StartUnaryTests as u32;

    pub const START_SIMPLE_EXPRESSION: u32 = TokenType::StartSimpleExpression as u32;

    pub const START_SIMPLE_EXPRESSIONS: u32 = TokenType::StartSimpleExpressions as u32;

    pub const START_SIMPLE_VALUE: u32 = TokenType::StartSimpleValue as u32;

    pub const START_RANGE_LITERAL: u32 = TokenType::StartRangeLiteral as u32;
}

// The number of every token type.
// Ruled out, among others: a number other than the grammar's, though no code uses it.
pub fn numbers() -> [u32; 63]
    ensures { result ≡ spec.all }
{
    TokenType::ALL.map(u32::from)
}

// The numbers of the start types.
// Ruled out, among others: a constant that is another start type's number.
pub fn start_numbers() -> [u32; 9]
    ensures { result ≡ start_types }
{
    [
        TokenType::START_EXPRESSION,
        TokenType::START_BOXED_EXPRESSION,
        TokenType::START_TEXTUAL_EXPRESSION,
        TokenType::START_TEXTUAL_EXPRESSIONS,
        TokenType::START_UNARY_TESTS,
        TokenType::START_SIMPLE_EXPRESSION,
        TokenType::START_SIMPLE_EXPRESSIONS,
        TokenType::START_SIMPLE_VALUE,
        TokenType::START_RANGE_LITERAL,
    ]
}
