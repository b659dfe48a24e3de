//! The image of a unit of `main` alone: it stands for the unit's typed program, whose assertions all have one semantic.
#![tactic(auto)]

mod body;
mod checks;
mod code;
mod emitter;
mod expression;
mod image;
mod instruction;
mod lowering;
mod most;
mod operators;
mod statement;
mod tables;

pub use lowering::lower;
