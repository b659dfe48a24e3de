ghost use Rattle.std.specs.Prelude.{◌≡◌, ◌==◌, ◌<◌, ◌≤◌, length, drop, MatchOption, IfSome, IsTrue, IsFalse};
ghost use Rattle.cx_lexer.specs.Bytes.{begins};
ghost use Rattle.cx_lexer.specs.Quoted.{is_escape, is_plain, escapes};
ghost use Rattle.cx_lexer.specs.Scan.{char_length, text_step, text_length};

use crate::bytes::is_printable;

/// Whether a byte behind a backslash makes an escape.
#[tactic(auto, unfolding(crate::specs::Quoted::is_escape))]
fn is_escape(byte: u8) -> bool
    ensures { result ≡ is_escape byte }
{
    byte == b'\\'
        || byte == b'\''
        || byte == b'"'
        || byte == b'n'
        || byte == b't'
        || byte == b'r'
        || byte == b'0'
}

/// Whether a byte stands for itself between single quotes.
#[tactic(auto, unfolding(crate::specs::Quoted::is_plain))]
fn is_plain(byte: u8) -> bool
    ensures { result ≡ is_plain byte }
{
    is_printable(byte) && byte != b'\'' && byte != b'\\'
}

/// The length of the character literal at the front of a rest that begins with its quote; 0 where there is none.
#[tactic(auto, unfolding(crate::specs::Scan::char_length))]
pub fn char_length(rest: &[u8]) -> usize
    ensures { result ≡ char_length rest.now }
{
    if rest.len() >= 3 && is_plain(rest[1]) && rest[2] == b'\'' {
        3
    } else if rest.len() >= 4 && rest[1] == b'\\' && is_escape(rest[2]) && rest[3] == b'\'' {
        4
    } else {
        0
    }
}

/// Whether what stands behind a backslash is an escape, without an octal digit behind its zero.
#[tactic(auto, unfolding(crate::specs::Quoted::escapes))]
fn escapes(rest: &[u8]) -> bool
    ensures value { result ≡ escapes rest.now }
    ensures some { IsTrue result → 0 < length rest.now }
{
    match rest {
        [] => false,
        [b'0', b'0'..=b'7', ..] => false,
        [byte, ..] => is_escape(*byte),
    }
}

/// The length of the next character between double quotes; 0 where none comes.
#[tactic(auto, unfolding(crate::specs::Scan::text_step))]
fn text_step(rest: &[u8]) -> usize
    ensures length { result ≡ text_step rest.now }
    ensures within { result ≤ length rest.now }
{
    if rest.is_empty() || rest[0] == b'"' || rest[0] == b'\n' {
        0
    } else if rest[0] != b'\\' {
        1
    } else if escapes(&rest[1..]) {
        2
    } else {
        0
    }
}

/// How many bytes the characters between double quotes take, up to what is none.
fn text_length(rest: &[u8]) -> usize
    ensures length { result ≡ text_length rest.now }
    ensures within { result ≤ length rest.now }
{
    let mut at = 0;
    let mut step = text_step(rest);
    while step > 0 {
        at += step;
        step = text_step(&rest[at..]);
    }
    at
}

fn begins_with_double_quote(rest: &[u8]) -> bool
    ensures { result ≡ begins (λ b. b == 34) rest.now }
{
    match rest {
        [byte, ..] => *byte == b'"',
        [] => false,
    }
}

/// How many bytes the characters behind an opening double quote take, if the closing one comes behind them.
pub fn closed_text_length(rest: &[u8]) -> Option<usize>
    ensures closed { MatchOption result
        (IsFalse (begins (λ b. b == 34) (drop (text_length rest.now) rest.now)))
        (λ n. (n ≡ text_length rest.now) × IsTrue (begins (λ b. b == 34) (drop n rest.now))) }
    ensures within { IfSome result (λ n. n ≤ length rest.now) }
{
    let length = text_length(rest);
    if begins_with_double_quote(&rest[length..]) {
        Some(length)
    } else {
        None
    }
}
