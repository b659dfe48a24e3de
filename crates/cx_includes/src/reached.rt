ghost use Rattle.std.specs.Prelude.{◌≡◌, ◌+◌, ◌<◌, ◌≤◌, ◌^◌, ◌==◌, ◌&&◌, ◌||◌, if◌then◌else◌, length};
ghost use Rattle.cx_lexer.specs.Bytes.{newline};
ghost use Rattle.cx_includes.specs.Directive.{is_line_blank};
ghost use Rattle.cx_includes.specs.Stretch.{IsReached};

use crate::part::Spot;

/// How far a file was read: the place for a reader, and whether the line has nothing but blanks so far.
#[derive(Clone, Copy)]
pub struct Reached {
    pub line: u32,
    pub column: u32,
    pub blank: bool,
}

impl Reached {
    /// The beginning of a file.
    pub const START: Reached = Reached {
        line: 1,
        column: 1,
        blank: true,
    };

    /// The place for a reader.
    pub fn spot(self) -> Spot
        ensures line { result.line ≡ self.line }
        ensures column { result.column ≡ self.column }
    {
        Spot {
            line: self.line,
            column: self.column,
        }
    }

    /// Behind one more byte.
    fn behind(self, byte: u8) -> Reached
        requires line { self.line + 1 < 2 ^ 32 }
        requires column { self.column + 1 < 2 ^ 32 }
        ensures line { result.line ≡ (if byte == newline then self.line + 1 else self.line) }
        ensures column { result.column ≡ (if byte == newline then 1 else self.column + 1) }
        ensures blank { result.blank ≡ ((self.blank && is_line_blank byte) || byte == newline) }
    {
        if byte == b'\n' {
            Reached {
                line: self.line + 1,
                column: 1,
                blank: true,
            }
        } else {
            Reached {
                line: self.line,
                column: self.column + 1,
                blank: self.blank && is_line_blank(byte),
            }
        }
    }

    /// Behind the bytes of a text from one place to another.
    pub fn passed(self, text: &[u8], from: usize, to: usize) -> Reached
        requires ordered { from ≤ to }
        requires within { to ≤ length text.now }
        requires small { length text.now + 2 < 2 ^ 32 }
        requires reached { IsReached text.now from self }
        ensures { IsReached text.now to result }
    {
        let mut reached = self;
        for at in from..to {
            reached = reached.behind(text[at]);
        }
        reached
    }
}

/// A blank within a line.
pub fn is_line_blank(byte: u8) -> bool
    ensures { result ≡ is_line_blank byte }
{
    byte == b' ' || byte == b'\t' || byte == b'\r'
}
