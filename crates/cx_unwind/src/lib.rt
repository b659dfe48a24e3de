//! Tables that find the regions of a function that cover a place, the innermost first.
#![tactic(auto)]

mod fault;
mod paint;
mod table;

pub use fault::BuildFault;
pub use table::{Table, build, find};
