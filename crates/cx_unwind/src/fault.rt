ghost use Rattle.std.specs.Prelude.{◌≡◌};
ghost use Rattle.cx_unwind.specs.declared.fault.BuildFault.TheVariants as faults;

use cx_outside::NoMemory;
use thiserror::Error;

/// Why there is no table of some regions. (This project's own.)
#[derive(Clone, Copy, Debug, Error, PartialEq, Eq)]
pub enum BuildFault {
    /// There was no memory.
    #[error("no memory")]
    OutOfMemory,
    /// The region of this index is the first that overlaps an earlier one and doesn't enclose it.
    #[error("region {0} crosses an earlier one")]
    Crossing(u32),
}

impl From<NoMemory> for BuildFault {
    ghost from_gives = { λ _ fault. fault ≡ faults.OutOfMemory };

    fn from(_: NoMemory) -> Self {
        BuildFault::OutOfMemory
    }
}
