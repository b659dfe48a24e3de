ghost use Rattle.std.specs.Prelude.{◌≡◌};
ghost use Rattle.cx_faults.specs.declared.fault.ListFault.TheVariants as faults;

use cx_outside::NoMemory;

/// Where a fault stands: a file of the list by its index, and the line and the byte in that line, both from 1. (This
/// project's own.)
#[derive(Clone, Copy, Debug, PartialEq, Eq)]
pub struct FaultPlace {
    pub file: u32,
    pub line: u32,
    pub column: u32,
}

/// Why an assembled list is refused before any rule is asked. (This project's own.)
#[derive(Clone, Copy, Debug, PartialEq, Eq)]
pub enum ListFault {
    /// Want of memory.
    OutOfMemory,
    /// So many tokens are open at one place, which are more than a unit may have.
    OpenTokens(u32),
    /// The list isn't grammatical: the place of the first token with which no program can go on, or the end of the
    /// unit's own file.
    Syntax(FaultPlace),
}

impl From<NoMemory> for ListFault {
    ghost from_gives = { λ _ fault. fault ≡ faults.OutOfMemory };

    fn from(_: NoMemory) -> Self {
        ListFault::OutOfMemory
    }
}
