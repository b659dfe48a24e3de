//! The values of the parser's second stack, and how each sort of them is put there and taken off.
#![tactic(auto)]

pub mod pop;
mod value;

pub use value::{PlacedMark, PlacedName, PlacedPunct, PlacedWord, Pointers, Value};
