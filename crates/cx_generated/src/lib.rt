//! Units and their plan, made from a number: a large input for the compiler, the linker and the machine.
#![tactic(auto)]

mod plan;
mod put;
mod summary;
mod unit;

pub use plan::{plan_name, plan_text};
pub use summary::summary_line;
pub use unit::{unit_name, unit_text};
