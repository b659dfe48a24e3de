ghost use Rattle.std.specs.Prelude.{◌≡◌, ◌⊎◌, ◌<◌, ◌≤◌, ◌^◌, ℕ, List, length, slice_range, IfOk, IfErr, MatchResult};
ghost use Rattle.cx_syntax.specs.declared.token.Token.{Token};
ghost use Rattle.cx_lexer.specs.declared.fault.LexFault.{LexFault};
ghost use Rattle.cx_lexer.specs.Spelling.{Spells, InOrder, IsFaultOf};

use crate::fault::LexFault;
use crate::piece::{Piece, piece_at};
use cx_syntax::{Items, Token};
use std::alloc::Global;

/// The tokens of a text, in order of place.
pub type Tokens = Items<Token>;

/// The tokens of a text, or its lexical fault. Only want of memory is another answer, and may come at any text.
///
/// Arguments: the allocator, and the text, which has fewer than 2^32 bytes.
///
/// Result: the tokens in order of place; each fault of `LexFault` exactly where its cause begins at the end of the
/// tokens, blanks and comments before it.
///
/// Source: [lex], narrowed to the tokens of the language.
pub fn lex(alloc: Global, text: &[u8]) -> Result<Tokens, LexFault>
    requires { length text.now < 2 ^ 32 }

    ensures tokens { IfOk result (λ tokens. Spells text.now tokens) }
    ensures in_order { IfOk result (λ tokens. InOrder 0 tokens (length text.now)) }
    ensures fault { IfErr result (λ fault. (fault ≡ LexFault.OutOfMemory) ⊎ IsFaultOf text.now fault) }

    // What has tokens or a fault gets no other answer, unless memory runs out.
    ensures only_tokens { (tokens : List Token) → Spells text.now tokens →
        MatchResult result (λ told. told ≡ tokens) (λ fault. fault ≡ LexFault.OutOfMemory) }
    ensures only_fault { (fault : LexFault) → IsFaultOf text.now fault →
        MatchResult result (λ _. ⊥) (λ told. (told ≡ LexFault.OutOfMemory) ⊎ (told ≡ fault)) }
{
    scan(alloc, text)
}

/// The pieces of a text, one behind the other.
fn scan(alloc: Global, text: &[u8]) -> Result<Tokens, LexFault>
    requires { length text.now < 2 ^ 32 }
    ensures tokens { IfOk result (λ tokens. Spells text.now tokens) }
    ensures fault { IfErr result (λ fault. (fault ≡ LexFault.OutOfMemory) ⊎ IsFaultOf text.now fault) }
{
    let mut tokens = Items::new(alloc);
    let mut at = 0;
    while at < text.len() {
        match piece_at(&text[at..], at as u32) {
            Piece::Gap(length) => at += length,
            Piece::Token(kind, length) => {
                let end = at + length;
                tokens.push(Token {
                    kind,
                    start: at as u32,
                    end: end as u32,
                })?;
                at = end;
            }
            Piece::Fault(fault) => return Err(fault),
        }
    }
    Ok(tokens)
}

/// A text has at most one list of tokens, at most one lexical fault, and not both.
pub fn one_reading()
    ensures tokens { (text : List ℕ) (a b : List Token) → Spells text a → Spells text b → a ≡ b }
    ensures fault { (text : List ℕ) (a b : LexFault) → IsFaultOf text a → IsFaultOf text b → a ≡ b }
    ensures apart { (text : List ℕ) (tokens : List Token) (fault : LexFault) → Spells text tokens → IsFaultOf text fault → ⊥ }
{}

/// The bytes of a token, which lies within the text. It takes no memory.
pub fn text_of<'a>(text: &'a [u8], token: &Token) -> &'a [u8]
    requires ordered { token.now.start ≤ token.now.end }
    requires within { token.now.end ≤ length text.now }
    ensures { result.now ≡ slice_range text.now token.now.start token.now.end }
{
    &text[token.start as usize..token.end as usize]
}
