ghost use Rattle.std.specs.Prelude.{◌≡◌};
ghost use Rattle.cx_fields.specs.declared.fault.ReadFault.TheVariants.{OutOfMemory};
ghost use Rattle.cx_fields.specs.Reading.{why_number};

use cx_outside::NoMemory;
use thiserror::Error;

/// Where and why bytes are no file of their format: the first fault from the left. (This project's own.)
#[derive(Clone, Copy, Debug, PartialEq, Eq)]
pub struct BytesFault {
    /// The start of the field, counted from the first byte.
    pub at: u32,
    /// What is wrong there.
    pub why: Why,
}

/// What is wrong with a field. (This project's own.)
#[derive(Clone, Copy, Debug, PartialEq, Eq)]
pub enum Why {
    /// The file doesn't begin with the word of its format.
    Magic,
    /// The version isn't the one that is known.
    Version,
    /// The field is cut.
    Cut,
    /// A limit is passed.
    Limit,
    /// The row of the field doesn't allow this number.
    Range,
    /// The index is out of its table.
    Index,
    /// Here bytes follow the last field.
    Trailing,
}

impl Why {
    /// The number of the reason in the file formats, 1 to 7. Takes no memory. (This project's own.)
    pub fn number(self) -> u8
        ensures { result ≡ why_number self }
    {
        match self {
            Why::Magic => 1,
            Why::Version => 2,
            Why::Cut => 3,
            Why::Limit => 4,
            Why::Range => 5,
            Why::Index => 6,
            Why::Trailing => 7,
        }
    }
}

/// Why bytes gave no value. (This project's own.)
#[derive(Clone, Copy, Debug, PartialEq, Eq, Error)]
pub enum ReadFault {
    /// There was no memory.
    #[error("no memory")]
    OutOfMemory,
    /// The bytes are no file of their format.
    #[error("fault {} at byte {}", .0.why.number(), .0.at)]
    Bad(BytesFault),
}

impl From<NoMemory> for ReadFault {
    ghost from_gives = { λ _ fault. fault ≡ OutOfMemory };

    fn from(_: NoMemory) -> Self {
        ReadFault::OutOfMemory
    }
}
