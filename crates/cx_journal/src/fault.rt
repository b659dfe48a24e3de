ghost use Rattle.std.specs.Prelude.{◌≡◌};
ghost use Rattle.cx_journal.specs.declared.fault.JournalFault.TheVariants as faults;

use cx_outside::NoMemory;
use thiserror::Error;

/// Why there is no text of a journal. This project's own.
#[derive(Clone, Copy, Debug, PartialEq, Eq, Error)]
pub enum JournalFault {
    /// Memory for it is lacking.
    #[error("no memory")]
    OutOfMemory,
    /// It has so many bytes, more than it may have.
    #[error("the journal has {0} bytes")]
    TooLong(u64),
}

impl From<NoMemory> for JournalFault {
    ghost from_gives = { λ _ fault. fault ≡ faults.OutOfMemory };

    fn from(_: NoMemory) -> Self {
        JournalFault::OutOfMemory
    }
}
