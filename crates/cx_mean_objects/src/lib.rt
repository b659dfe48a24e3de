//! The steps of objects: made, copied, zeroed by fields, ended and destroyed.
#![tactic(auto)]

mod ending;
mod field;
mod object;

pub use object::{object_given, object_task, object_thrown};
