//! The states that a run of a valid image stays in, where no step lacks what it takes.
#![tactic(auto)]

pub mod laws;
