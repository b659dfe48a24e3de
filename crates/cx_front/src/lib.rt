//! From an assembled list to the unit of the typed program: the part of the grammar that is built so far, by the one tree
//! of the whole grammar.
#![tactic(auto)]

mod assertion;
mod choice;
mod comment;
mod declaration;
mod discarded;
mod expression;
mod front;
mod laws;
mod leaf;
mod literal;
mod main_function;
mod names;
mod operand;
mod operators;
mod returned;
mod statement;
mod token;
mod typed;
mod types;
mod unit;

pub use front::unit_of;
pub use laws::units_are_built;
