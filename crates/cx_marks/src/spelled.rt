use cx_syntax::TokenKind;

/// A token by its class and its bytes. (This project's own.)
#[derive(Clone, Copy, Debug)]
pub struct Spelled<'a> {
    pub kind: TokenKind,
    pub bytes: &'a [u8],
}
