use crate::{Address, ObjectType, Report};
use cx_code::{Ending, Party, Semantic, Verdict};
use cx_outside::Text;

/// A live object of a scope: a whole object by its number, or a field of an object under construction, by its class.
/// (This project's own.)
#[derive(Clone, Copy)]
pub enum Living {
    Whole(u64, ObjectType),
    Field(Address, u32),
}

/// A thrown exception [except.throw], by the number of its exception object and its type.
#[derive(Clone, Copy)]
pub struct Exception {
    pub object: u64,
    pub of: ObjectType,
}

/// An evaluation of an assertion, as it begins [basic.contract.eval].
#[derive(Drop)]
pub struct Evaluation {
    pub assertion: Text,
    pub party: Party,
    pub semantic: Semantic,
}

/// What a run does that can be seen from outside. Types go by their names. (This project's own.)
#[derive(Clone, Copy)]
pub enum Event<'p> {
    Out(u8),
    Input(u8),
    InputEnd,
    Begin(&'p Evaluation),
    Verdict(Verdict),
    Handler(Report<'p>),
    Throw(&'p [u8]),
    Catch(&'p [u8]),
    Destroyed(&'p [u8], Address),
}

/// How a run ends, or why nothing more is said of it. (This project's own.)
#[derive(Clone, Copy)]
pub enum Answer {
    Ended(Ending),
    /// The budget is spent.
    Going,
    /// The next evaluation isn't told.
    Waiting,
    /// The next evaluation that is told is none that the block permits.
    NotARun,
}

/// Why a part of a run gives no value. (This project's own.)
#[derive(Clone, Copy)]
pub enum Halt {
    Thrown(Exception),
    /// Nothing more is said of the run.
    Over(Answer),
    /// No memory, a number that is too large, or calls that are nested too deep for the native stack: nothing is claimed.
    Want,
}

impl From<std::alloc::AllocError> for Halt {
    ghost use Rattle.std.specs.Prelude.{◌≡◌};
    ghost use Rattle.cx_plain_state.specs.declared.answer.Halt.TheVariants.{Want};

    ghost from_gives = { λ _ halt. halt ≡ Want };

    fn from(_: std::alloc::AllocError) -> Self {
        Halt::Want
    }
}

impl<T: Drop> From<std::alloc::AllocFailed<T>> for Halt {
    ghost use Rattle.std.specs.Prelude.{◌≡◌};
    ghost use Rattle.cx_plain_state.specs.declared.answer.Halt.TheVariants.{Want};

    ghost from_gives = { λ _ halt. halt ≡ Want };

    fn from(_: std::alloc::AllocFailed<T>) -> Self {
        Halt::Want
    }
}
