//! The table of the grammar, which a parser with a stack goes by.
#![tactic(auto)]

mod expression;
mod function;
mod item;
mod member;
pub mod sorts;
mod stack;
mod statement;
pub mod symbol;
pub mod table;
mod types;
