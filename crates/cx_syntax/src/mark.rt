//! The marks of a unit: its tokens as the grammar sees them, with class names told apart from other names.

/// The operators and punctuators, after [lex.operators].
#[derive(Clone, Copy, Debug, PartialEq, Eq)]
pub enum Punct {
    OpenBrace,
    CloseBrace,
    OpenParen,
    CloseParen,
    OpenBracket,
    CloseBracket,
    Semicolon,
    Colon,
    Scope,
    Comma,
    Dot,
    Arrow,
    Question,
    Plus,
    Minus,
    Star,
    Slash,
    Percent,
    And,
    Or,
    Xor,
    Tilde,
    Not,
    Assign,
    Equal,
    NotEqual,
    Less,
    Greater,
    LessEqual,
    GreaterEqual,
    ShiftLeft,
    ShiftRight,
    Both,
    Either,
    Increment,
    Decrement,
    PlusAssign,
    MinusAssign,
    StarAssign,
    SlashAssign,
    PercentAssign,
    AndAssign,
    OrAssign,
    XorAssign,
    ShiftLeftAssign,
    ShiftRightAssign,
    Spaceship,
    Ellipsis,
    DotStar,
    ArrowStar,
}

/// The keywords that the grammar uses, after [lex.key]; `Unused` is each of the others.
#[derive(Clone, Copy, Debug, PartialEq, Eq)]
pub enum Word {
    Bool,
    Break,
    Catch,
    Char,
    Class,
    Const,
    Continue,
    ContractAssert,
    Else,
    Explicit,
    Extern,
    False,
    For,
    If,
    Inline,
    Int,
    Long,
    Noexcept,
    Nullptr,
    Private,
    Public,
    Return,
    StaticCast,
    Struct,
    This,
    Throw,
    True,
    Try,
    Unsigned,
    Virtual,
    Void,
    While,
    Unused,
}

/// What the grammar asks of a token. Equal names have equal numbers; those of `contracts`, `pre` and `post` are 0, 1
/// and 2, and `std` is no name.
#[derive(Clone, Copy, Debug, PartialEq, Eq)]
pub enum Mark {
    /// A name that isn't a class name at its place.
    Name(u32),
    /// A name that is a class name at its place.
    Class(u32),
    Std,
    Word(Word),
    Number,
    Char,
    Text,
    Punct(Punct),
}

/// The number of the name `contracts`.
pub const CONTRACTS: u32 = 0;

/// The number of the name `pre`.
pub const PRE: u32 = 1;

/// The number of the name `post`.
pub const POST: u32 = 2;
