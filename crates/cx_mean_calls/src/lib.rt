//! The steps of calls and of checks.
#![tactic(auto)]

mod acting;
mod asked;
mod call_frame;
mod calls;
mod checks;
mod row;

pub use call_frame::{call_given, call_thrown};
pub use calls::call_task;
pub use checks::check_task;
