//! The place of a syntax fault over the tokens of a unit.
#![tactic(auto)]

mod laws;

pub use laws::place_of_tokens;
