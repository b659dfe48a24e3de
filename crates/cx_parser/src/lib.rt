//! The parser of a unit: a machine with a stack that goes by the table of the grammar.
#![tactic(auto)]

pub mod laws;
mod recognizer;

pub use recognizer::{ParseFault, recognize};
