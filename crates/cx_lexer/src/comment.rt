ghost use Rattle.std.specs.Prelude.{◌≡◌, ◌<◌, ◌≤◌, ℕ, length, IsTrue, ◌↔◌, ◌&&◌, ◌==◌, if◌then◌else◌, IfSome};
ghost use Rattle.cx_lexer.specs.Bytes.{is_splice_blank};
ghost use Rattle.cx_lexer.specs.Comment.{line_length, begins_line_comment, begins_block_comment, is_spliced_line, ends_in_backslash, length_to_end, HidesEnd};
ghost use Rattle.cx_lexer.specs.Scan.{next_seen, is_spliced, hides_from};

use crate::bytes::is_splice_blank;
use crate::seen::Seen;

/// How many bytes of the rest of a text stand before the end of its line, which is the next newline or the text's end.
/// Takes no memory. Source: [lex.phases].
pub fn line_length(rest: &[u8]) -> usize
    ensures { result ≡ line_length rest.now }
{
    rest.iter().take_while(|byte| **byte != b'\n').count()
}

/// The same of a line with one more byte.
fn ends_behind(ends: bool, byte: u8) -> bool
    ensures { result ≡ (if is_splice_blank byte then ends else byte == 92) }
{
    if is_splice_blank(byte) {
        ends
    } else {
        byte == b'\\'
    }
}

/// Whether the last byte that isn't a blank is a backslash.
fn ends_in_backslash(line: &[u8]) -> bool
    ensures { result ≡ ends_in_backslash line.now }
{
    let mut ends = false;
    for byte in line {
        ends = ends_behind(ends, *byte);
    }
    ends
}

/// Whether the first line of the rest of a text, which has this length before its newline, ends in a line splice: a
/// backslash, then blanks, then the newline. Takes no memory. Source: [lex.phases].
pub fn is_spliced_line(rest: &[u8], length: usize) -> bool
    requires { length ≡ line_length rest.now }
    ensures { result ≡ is_spliced_line rest.now }
{
    length < rest.len() && ends_in_backslash(&rest[..length])
}

fn is_end(first: u8, second: u8) -> bool
    ensures { result ≡ (first == 42 && second == 47) }
{
    first == b'*' && second == b'/'
}

/// How many bytes there are up to the first end of a block comment, with it, if there is one.
pub fn length_to_end(rest: &[u8]) -> Option<usize>
    ensures value { result ≡ length_to_end rest.now }
    ensures within { IfSome result (λ n. n ≤ length rest.now) }
{
    let mut at = 0;
    while at + 1 < rest.len() {
        if is_end(rest[at], rest[at + 1]) {
            return Some(at + 2);
        }
        at += 1;
    }
    None
}

/// What stands before the byte behind this one.
fn next_seen(seen: Seen, byte: u8) -> Seen
    ensures { result ≡ next_seen seen byte }
{
    match seen {
        Seen::Backslash if is_splice_blank(byte) => Seen::Backslash,
        Seen::Backslash if byte == b'\n' => Seen::Splice,
        _ if byte == b'*' => Seen::Star,
        Seen::Star | Seen::Splice if byte == b'\\' => Seen::Backslash,
        _ => Seen::Other,
    }
}

/// Whether a byte ends the comment of C++ behind a star and line splices.
fn is_hidden_end(seen: Seen, byte: u8) -> bool
    ensures { result ≡ (is_spliced seen && byte == 47) }
{
    seen == Seen::Splice && byte == b'/'
}

/// Whether C++ would end a comment before the end of what stands behind its opening.
pub fn hides_end(body: &[u8]) -> bool
    ensures { IsTrue result ↔ HidesEnd body.now }
{
    let mut seen = Seen::Other;
    for byte in body {
        if is_hidden_end(seen, *byte) {
            return true;
        }
        seen = next_seen(seen, *byte);
    }
    false
}

/// Whether a `//` comment begins at the first byte of the rest of a text. Takes no memory. Source: [lex.comment].
#[tactic(auto, unfolding(crate::specs::Comment::begins_line_comment))]
pub fn begins_line_comment(rest: &[u8]) -> bool
    ensures { result ≡ begins_line_comment rest.now }
{
    match rest {
        [b'/', b'/', ..] => true,
        _ => false,
    }
}

#[tactic(auto, unfolding(crate::specs::Comment::begins_block_comment))]
pub fn begins_block_comment(rest: &[u8]) -> bool
    ensures { result ≡ begins_block_comment rest.now }
{
    match rest {
        [b'/', b'*', ..] => true,
        _ => false,
    }
}
