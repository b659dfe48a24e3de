/// The classes of tokens, after [lex.token]: names, words of the language, integer literals, character literals,
/// string literals, and operators with punctuators.
#[derive(Clone, Copy, Debug, PartialEq, Eq)]
pub enum TokenKind {
    Name,
    Word,
    Number,
    Char,
    Text,
    Punct,
}

/// A token of a text: the bytes from `start` to before `end`, both counted from the text's first byte.
#[derive(Clone, Copy, Debug, PartialEq, Eq)]
pub struct Token {
    pub kind: TokenKind,
    pub start: u32,
    pub end: u32,
}
