ghost use Rattle.std.specs.Prelude.{◌≡◌, ◌+◌, ◌<◌, ◌≤◌, ◌^◌, length, slice_get, option_copied, Some, IfSome, map};
ghost use Rattle.cx_includes.specs.Place.{spot_at};

use crate::part::Spot;
use crate::reached::Reached;
use cx_outside::{Items, Text};
use cx_syntax::Token;

/// A token of a unit, with its file and its place there. This project's own.
#[derive(Clone, Copy, Debug, PartialEq, Eq)]
pub struct Placed {
    /// The token, whose places count from its file's first byte.
    pub token: Token,
    /// The index of its file.
    pub file: u32,
    /// The line of its first byte, from 1.
    pub line: u32,
    /// The byte in that line, from 1.
    pub column: u32,
}

/// A file that was taken for a unit. This project's own.
#[derive(Debug, Drop)]
pub struct SourceFile {
    /// Its name, as it was asked for.
    pub name: Text,
    /// Its bytes.
    pub text: Text,
}

/// The tokens of a unit in their order, each with its place, and the files that they stand in, the unit's own first.
/// This project's own; [cpp.include] is what it stands for.
#[derive(Debug, Drop)]
pub struct Assembled {
    files: Items<SourceFile>,
    placed: Items<Placed>,
    /// How many tokens stand before the first `#include <contracts>`, if there is one.
    pub contracts: Option<u32>,
    /// How many tokens stand before the first `#include <cstdio>`, if there is one.
    pub cstdio: Option<u32>,
    ghost small: { length placed < 2 ^ 32 },
}

impl Assembled {
    /// The files and the tokens that were taken for a unit.
    pub(crate) fn new(
        files: Items<SourceFile>,
        placed: Items<Placed>,
        contracts: Option<u32>,
        cstdio: Option<u32>,
    ) -> Self
        requires { length placed < 2 ^ 32 }
        ensures files { result.files ≡ files }
        ensures placed { result.placed ≡ placed }
        ensures contracts { result.contracts ≡ contracts }
        ensures cstdio { result.cstdio ≡ cstdio }
    {
        Assembled {
            files,
            placed,
            contracts,
            cstdio,
        }
    }

    /// The tokens, in the order of the text.
    pub fn items(&self) -> &[Placed]
        ensures { result.now ≡ self.now.placed }
    {
        self.placed.items()
    }

    /// How many files were taken, each counted once.
    pub fn file_count(&self) -> usize
        ensures { result ≡ length self.now.files }
    {
        self.files.items().len()
    }

    /// The name of a file. `file` is below the number of files. Takes no memory.
    pub fn file_name(&self, file: u32) -> &[u8]
        requires { file < length self.now.files }
        ensures { IfSome (slice_get self.now.files file) (λ source. result.now ≡ source.name) }
    {
        self.files.items()[file as usize].name.bytes()
    }

    /// The bytes of a file. `file` is below the number of files. Takes no memory.
    pub fn file_text(&self, file: u32) -> &[u8]
        requires { file < length self.now.files }
        ensures { IfSome (slice_get self.now.files file) (λ source. result.now ≡ source.text) }
    {
        self.files.items()[file as usize].text.bytes()
    }

    /// The place behind the last byte of a file. `file` is below the number of files. Takes no memory.
    pub fn end_spot(&self, file: u32) -> Spot
        requires file { file < length self.now.files }
        requires short { IfSome (slice_get self.now.files file) (λ source. length source.text + 2 < 2 ^ 32) }
        ensures { IfSome (slice_get self.now.files file) (λ source. result ≡ spot_at source.text (length source.text)) }
    {
        let text = self.file_text(file);
        Reached::START.passed(text, 0, text.len()).spot()
    }
}
