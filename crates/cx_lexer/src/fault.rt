ghost use Rattle.std.specs.Prelude.{◌≡◌};
ghost use Rattle.cx_lexer.specs.declared.fault.LexFault.TheVariants.{OutOfMemory};

use cx_syntax::NoMemory;
use thiserror::Error;

/// The faults of a text that has no list of tokens, and want of memory. Places count from the text's first byte. The
/// causes are this project's own: they are where C++ would read the text otherwise, or not at all.
#[derive(Clone, Copy, Debug, PartialEq, Eq, Error)]
pub enum LexFault {
    #[error("out of memory")]
    OutOfMemory,
    /// Here stands a byte that begins no token, a comment that C++ would end or go on with at a line splice, or what a
    /// number right before it would go on with.
    #[error("X1 at byte {0}")]
    BadByte(u32),
    /// Here begins a comment that has no end.
    #[error("X2 at byte {0}")]
    OpenComment(u32),
    /// Here stands the opening quote of a character or a text that isn't ended in its form.
    #[error("X3 at byte {0}")]
    OpenText(u32),
    /// Here begins a number that no type of its form holds.
    #[error("X4 at byte {0}")]
    TooWide(u32),
    /// Here begins a name that is too long, with so many bytes.
    #[error("a name of {1} bytes at byte {0}")]
    LongName(u32, u32),
}

impl From<NoMemory> for LexFault {
    ghost from_gives = { λ _ e. e ≡ OutOfMemory };

    fn from(_: NoMemory) -> Self {
        LexFault::OutOfMemory
    }
}
