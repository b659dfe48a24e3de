//! Which code stands for a typed program, and that the machine follows the program there.
#![tactic(auto)]

mod laws;

pub use laws::{
    checks_are_followed, expressions_are_followed, images_of_main_are_faithful,
    operands_are_followed,
};
