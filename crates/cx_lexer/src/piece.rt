ghost use Rattle.std.specs.Prelude.{◌≡◌, ◌≢◌, ◌<◌, ◌≤◌, ◌+◌, ◌^◌, ◌||◌, length, slice_index, IsTrue, IsFalse};
ghost use Rattle.cx_lexer.specs.Bytes.{is_blank, is_decimal_digit, starts_name};
ghost use Rattle.cx_lexer.specs.Comment.{begins_line_comment, begins_block_comment};
ghost use Rattle.cx_lexer.specs.Piece.{Stands};

use crate::bytes::{is_blank, is_decimal_digit, starts_name};
use crate::comment::{
    begins_block_comment, begins_line_comment, hides_end, is_spliced_line, length_to_end,
    line_length,
};
use crate::fault::LexFault;
use crate::name::{is_word, name_length};
use crate::number::{is_too_wide, number_length, runs_on};
use crate::punct::punct_length;
use crate::quoted::{char_length, closed_text_length};
use cx_syntax::TokenKind;

/// What stands at a place of a text ([lex.pptoken]): one thing, since the longest token counts and no token begins where
/// a comment does.
#[derive(Clone, Copy, Debug)]
pub enum Piece {
    /// A blank or a comment of so many bytes, one or more.
    Gap(usize),
    /// A token of this class, of so many bytes, one or more.
    Token(TokenKind, usize),
    /// The lexical fault whose cause begins at the place. Its own place may lie behind.
    Fault(LexFault),
}

/// What stands at a place of a text. Takes no memory, so that want of memory is never the fault.
///
/// Arguments: the rest of the text from the place on, which isn't empty; the place, in bytes from the text's first one,
/// with fewer than 2^32 bytes before the text's end.
///
/// Source: [lex.pptoken], narrowed to the tokens of the language.
pub fn piece_at(rest: &[u8], at: u32) -> Piece
    requires some { 0 < length rest.now }
    requires fits { at + length rest.now < 2 ^ 32 }
    ensures { Stands rest.now at result }
{
    let first = rest[0];
    if is_blank(first) {
        Piece::Gap(1)
    } else if begins_line_comment(rest) {
        line_comment(rest, at)
    } else if begins_block_comment(rest) {
        block_comment(rest, at)
    } else {
        lexeme(rest, at)
    }
}

/// A `//` comment, up to the end of its line. One that C++ would go on with is a fault.
fn line_comment(rest: &[u8], at: u32) -> Piece
    requires { IsTrue (begins_line_comment rest.now) }
    ensures { Stands rest.now at result }
{
    let length = line_length(rest);
    if is_spliced_line(rest, length) {
        Piece::Fault(LexFault::BadByte(at))
    } else {
        Piece::Gap(length)
    }
}

/// A block comment, up to its first end. One without an end, or that C++ would end before, is a fault.
fn block_comment(rest: &[u8], at: u32) -> Piece
    requires begins { IsTrue (begins_block_comment rest.now) }
    requires long { 2 ≤ length rest.now }
    ensures { Stands rest.now at result }
{
    let body = &rest[2..];
    let Some(length) = length_to_end(body) else {
        return Piece::Fault(LexFault::OpenComment(at));
    };
    if hides_end(&body[..length]) {
        Piece::Fault(LexFault::BadByte(at))
    } else {
        Piece::Gap(2 + length)
    }
}

/// A token, or a fault where one should stand.
fn lexeme(rest: &[u8], at: u32) -> Piece
    requires some { 0 < length rest.now }
    requires fits { at + length rest.now < 2 ^ 32 }
    requires no_blank { IsFalse (is_blank (slice_index rest.now 0)) }
    requires no_comment { IsFalse (begins_line_comment rest.now || begins_block_comment rest.now) }
    ensures { Stands rest.now at result }
{
    let first = rest[0];
    if starts_name(first) {
        name(rest, at)
    } else if is_decimal_digit(first) {
        number(rest, at)
    } else if first == b'\'' {
        character(rest, at)
    } else if first == b'"' {
        text(rest, at)
    } else {
        punct(rest, at)
    }
}

/// The most bytes that a name may have.
const LONGEST_NAME: usize = 1024;

/// A name or a word.
fn name(rest: &[u8], at: u32) -> Piece
    requires some { 0 < length rest.now }
    requires fits { at + length rest.now < 2 ^ 32 }
    requires first { IsTrue (starts_name (slice_index rest.now 0)) }
    requires no_comment { IsFalse (begins_line_comment rest.now || begins_block_comment rest.now) }
    ensures { Stands rest.now at result }
{
    let length = name_length(rest);
    if is_word(&rest[..length]) {
        Piece::Token(TokenKind::Word, length)
    } else if length > LONGEST_NAME {
        Piece::Fault(LexFault::LongName(at, length as u32))
    } else {
        Piece::Token(TokenKind::Name, length)
    }
}

/// A number that a type holds, and that doesn't run on.
fn number(rest: &[u8], at: u32) -> Piece
    requires some { 0 < length rest.now }
    requires fits { at + length rest.now < 2 ^ 32 }
    requires first { IsTrue (is_decimal_digit (slice_index rest.now 0)) }
    requires no_comment { IsFalse (begins_line_comment rest.now || begins_block_comment rest.now) }
    ensures { Stands rest.now at result }
{
    let length = number_length(rest);
    let (number, after) = rest.split_at(length);
    if is_too_wide(number) {
        Piece::Fault(LexFault::TooWide(at))
    } else if runs_on(number, after) {
        Piece::Fault(LexFault::BadByte(at + length as u32))
    } else {
        Piece::Token(TokenKind::Number, length)
    }
}

/// A character literal.
fn character(rest: &[u8], at: u32) -> Piece
    requires some { 0 < length rest.now }
    requires first { slice_index rest.now 0 ≡ 39 }
    requires no_comment { IsFalse (begins_line_comment rest.now || begins_block_comment rest.now) }
    ensures { Stands rest.now at result }
{
    let length = char_length(rest);
    if length == 0 {
        Piece::Fault(LexFault::OpenText(at))
    } else {
        Piece::Token(TokenKind::Char, length)
    }
}

/// A string literal.
fn text(rest: &[u8], at: u32) -> Piece
    requires some { 0 < length rest.now }
    requires first { slice_index rest.now 0 ≡ 34 }
    requires no_comment { IsFalse (begins_line_comment rest.now || begins_block_comment rest.now) }
    ensures { Stands rest.now at result }
{
    match closed_text_length(&rest[1..]) {
        Some(length) => Piece::Token(TokenKind::Text, 2 + length),
        None => Piece::Fault(LexFault::OpenText(at)),
    }
}

/// An operator or a punctuator, or a byte that begins no token.
fn punct(rest: &[u8], at: u32) -> Piece
    requires some { 0 < length rest.now }
    requires no_blank { IsFalse (is_blank (slice_index rest.now 0)) }
    requires no_letter { IsFalse (starts_name (slice_index rest.now 0)) }
    requires no_digit { IsFalse (is_decimal_digit (slice_index rest.now 0)) }
    requires no_quote { slice_index rest.now 0 ≢ 39 }
    requires no_double_quote { slice_index rest.now 0 ≢ 34 }
    requires no_comment { IsFalse (begins_line_comment rest.now || begins_block_comment rest.now) }
    ensures { Stands rest.now at result }
{
    let length = punct_length(rest);
    if length == 0 {
        Piece::Fault(LexFault::BadByte(at))
    } else {
        Piece::Token(TokenKind::Punct, length)
    }
}
