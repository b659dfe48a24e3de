//! A plan: which evaluation semantic each assertion of each unit has, which assertions callers check, and how often.
#![tactic(auto)]

mod choice;
mod fault;
pub mod laws;
mod line;
mod naming;
mod plan;
mod reading;
mod subject;

pub use choice::{chosen, unit_choice};
pub use fault::PlanFault;
pub use naming::{names, names_of};
pub use plan::{Directive, Plan, PlanLine};
pub use reading::read_plan;
