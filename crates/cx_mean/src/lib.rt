//! What a program means, computed: the steps of the machine of cx_plain over a stack of its own. It is slow and simple,
//! for tests alone.
#![tactic(auto)]

mod begin;
mod run;
mod step;

pub use cx_mean_parts::program::{CallerChecks, Class, Function, PlannedAssertion, Program};
pub use run::{Meaning, Want, mean_of};
