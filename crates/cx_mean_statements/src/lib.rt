//! The steps of statements, handlers, and of what is left.
#![tactic(auto)]

mod following_frame;
mod full_expression;
mod handling;
mod leaving;
mod loops;
mod statement;

pub use following_frame::following_given;
pub use leaving::{leaving_given, leaving_thrown};
pub use statement::{statement_given, statement_task, statement_thrown};
