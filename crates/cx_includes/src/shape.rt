ghost use Rattle.std.specs.Prelude.{◌≡◌};
ghost use Rattle.cx_includes.specs.OpenTokens.{shape_of};

/// What counting open tokens asks of a token.
#[derive(Clone, Copy)]
pub enum Shape {
    OpenBrace,
    CloseBrace,
    OpenParen,
    CloseParen,
    Semicolon,
    Else,
    Other,
}

const OPEN_BRACE: &[u8] = b"{";

const CLOSE_BRACE: &[u8] = b"}";

const OPEN_PAREN: &[u8] = b"(";

const CLOSE_PAREN: &[u8] = b")";

const SEMICOLON: &[u8] = b";";

const ELSE: &[u8] = b"else";

/// The shape of a token, by its bytes.
pub fn shape_of(bytes: &[u8]) -> Shape
    ensures { result ≡ shape_of bytes.now }
{
    if bytes == OPEN_BRACE {
        Shape::OpenBrace
    } else if bytes == CLOSE_BRACE {
        Shape::CloseBrace
    } else if bytes == OPEN_PAREN {
        Shape::OpenParen
    } else if bytes == CLOSE_PAREN {
        Shape::CloseParen
    } else if bytes == SEMICOLON {
        Shape::Semicolon
    } else if bytes == ELSE {
        Shape::Else
    } else {
        Shape::Other
    }
}
