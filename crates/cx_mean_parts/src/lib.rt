//! What the steps of the plain machine stand on: the program with its plan, what is still to do, what waits, and the
//! parts that several kinds of steps share.
#![tactic(auto)]

pub mod entering;
pub mod frames;
pub mod lifetime;
pub mod lookup;
pub mod machine;
pub mod program;
pub mod task;
pub mod types;
pub mod values;
pub mod waiting;
