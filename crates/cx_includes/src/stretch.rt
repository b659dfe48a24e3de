ghost use Rattle.std.specs.Prelude.{◌≡◌, ◌+◌, ◌<◌, ◌≤◌, ◌^◌, length, drop, IsTrue, IsFalse};
ghost use Rattle.cx_lexer.specs.Spelling.{Begins};
ghost use Rattle.cx_includes.specs.Directive.{begins_directive};
ghost use Rattle.cx_includes.specs.Parts.{fault_place};
ghost use Rattle.cx_includes.specs.Stretch.{IsReached, Holds};
ghost use Rattle.cx_includes.specs.Place.{spot_at};

use crate::directive::directive_at;
use crate::part::Part;
use crate::reached::Reached;
use cx_lexer::{LexFault, Piece, line_length, piece_at};
use cx_syntax::Token;

/// What stands at a place of a file.
#[derive(Clone, Copy)]
pub enum Stretch {
    /// A blank or a comment of so many bytes.
    Blank(usize),
    /// A part of so many bytes, behind which the file goes on.
    Part(Part, usize),
    /// The last part, a lexical fault.
    Last(Part),
}

/// What stands at a place of a file that was read up to there.
pub fn stretch_at(text: &[u8], at: usize, reached: Reached) -> Stretch
    requires inside { at < length text.now }
    requires small { length text.now + 2 < 2 ^ 32 }
    requires reached { IsReached text.now at reached }
    ensures { Holds text.now at result }
{
    if reached.blank && text[at] == b'#' {
        line_at(text, at, reached)
    } else {
        lexed_at(text, at, reached)
    }
}

/// A directive line, of one of the four forms or of none.
fn line_at(text: &[u8], at: usize, reached: Reached) -> Stretch
    requires inside { at < length text.now }
    requires small { length text.now + 2 < 2 ^ 32 }
    requires reached { IsReached text.now at reached }
    requires begins { IsTrue (begins_directive text.now at) }
    ensures { Holds text.now at result }
{
    let length = line_length(&text[at..]);
    match directive_at(text, at) {
        Some(directive) => Stretch::Part(Part::Line(directive, reached.line), length),
        None => Stretch::Part(Part::BadLine(reached.line), length),
    }
}

/// A blank, a comment, a token or a lexical fault.
fn lexed_at(text: &[u8], at: usize, reached: Reached) -> Stretch
    requires inside { at < length text.now }
    requires small { length text.now + 2 < 2 ^ 32 }
    requires reached { IsReached text.now at reached }
    requires no_line { IsFalse (begins_directive text.now at) }
    ensures { Holds text.now at result }
{
    match piece_at(&text[at..], at as u32) {
        Piece::Gap(length) => Stretch::Blank(length),
        Piece::Token(kind, length) => {
            let end = at + length;
            let token = Token {
                kind,
                start: at as u32,
                end: end as u32,
            };
            Stretch::Part(Part::Token(token, reached.spot()), length)
        }
        Piece::Fault(fault) => Stretch::Last(fault_at(text, at, reached, fault)),
    }
}

/// A lexical fault with its place.
fn fault_at(text: &[u8], at: usize, reached: Reached, fault: LexFault) -> Part
    requires small { length text.now + 2 < 2 ^ 32 }
    requires reached { IsReached text.now at reached }
    requires begins { Begins (drop at text.now) at fault }
    requires inside { at ≤ length text.now }
    ensures { result ≡ Part.Fault fault (spot_at text.now (fault_place fault)) }
{
    let spot = reached.passed(text, at, fault_place(fault)).spot();
    Part::Fault(fault, spot)
}

/// Where a lexical fault stands.
fn fault_place(fault: LexFault) -> usize
    ensures { result ≡ fault_place fault }
{
    match fault {
        LexFault::OutOfMemory => 0,
        LexFault::BadByte(at)
        | LexFault::OpenComment(at)
        | LexFault::OpenText(at)
        | LexFault::TooWide(at)
        | LexFault::LongName(at, _) => at as usize,
    }
}
