pub mod assertions;
pub mod blocks;
pub mod budgets;
pub mod depth;
pub mod exceptions;
pub mod expressions;
pub mod handlers;
pub mod objects;
pub mod pointers;

use crate::programs::Worked;

/// A program with what it is run on, and the run that this is to be.
#[derive(Clone, Copy)]
pub struct Row {
    pub of: Worked,
    /// The evaluations that are told, a line for each; those of the run itself, where there is none.
    pub begins: Option<&'static str>,
    pub input: &'static [u8],
    pub budget: u64,
    /// A line for each event, and one for the answer.
    pub told: &'static str,
}

/// The budget of 10,000,000 steps.
pub const LARGE: u64 = 64 * 10_000_001;

/// What most rows have: no input, and the budget of 99 steps.
pub const PLAIN: Row = Row {
    of: Worked::Holding,
    begins: None,
    input: b"",
    budget: 64 * 100,
    told: "",
};
