ghost use Rattle.std.specs.Prelude.{◌≡◌};
ghost use Rattle.cx_plan.specs.declared.fault.PlanFault.TheVariants.{OutOfMemory};

use cx_outside::NoMemory;
use thiserror::Error;

/// Why a text is no plan, or a plan fits no units: want of memory, or the number of the first line concerned, from 1.
/// (This project's own.)
#[derive(Clone, Copy, Debug, PartialEq, Eq, Error)]
pub enum PlanFault {
    /// There was no memory.
    #[error("no memory")]
    OutOfMemory,
    /// The line isn't in the grammar, or says something of what an earlier line has said.
    #[error("line {0}")]
    BadPlanLine(u32),
    /// The line names an assertion that its unit doesn't have.
    #[error("no such assertion, line {0}")]
    UnknownAssertion(u32),
    /// The line names a unit that isn't there.
    #[error("no such unit, line {0}")]
    UnknownUnit(u32),
}

impl From<NoMemory> for PlanFault {
    ghost from_gives = { λ _ fault. fault ≡ OutOfMemory };

    fn from(_: NoMemory) -> Self {
        PlanFault::OutOfMemory
    }
}
