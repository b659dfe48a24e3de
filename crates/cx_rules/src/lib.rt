//! Which rule of a valid image is broken first.
#![tactic(auto)]

mod code;
mod function;
mod instruction;
mod region;
mod spans;
mod tables;
mod thrown;
mod whole;

pub use code::code_rule;
pub use function::function_rule;
pub use instruction::instruction_rule;
pub use region::region_rule;
pub use tables::tables_rule;
pub use whole::{Broken, verify};
