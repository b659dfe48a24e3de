//! The frame of a call, and what each instruction does to it.
#![tactic(auto)]

mod comparisons;
mod exception;
mod frame;
mod jumps;
mod notes;
mod numbers;
mod objects;
mod operands;
mod stack;

pub use exception::{Exception, Exceptions};
pub use frame::{Acted, Frame, Stop, take_address, take_number, take_object};
pub use operands::Operands;
