//! The steps of expressions, operands and arguments.
#![tactic(auto)]

mod argument_frame;
mod expression;
mod leaf;
mod operand;
mod operand_frame;
mod operation;
mod zero;

pub use argument_frame::{argument_given, argument_thrown};
pub use operand::expression_task;
pub use operand_frame::operand_given;
