//! How a machine follows the meaning of a program: what is said of a part of a run, and the law that a whole run which is
//! followed so is one that the program permits.
#![tactic(auto)]

mod laws;

pub use laws::{followed_calls_of_main_are_permitted, followed_runs_are_permitted};
