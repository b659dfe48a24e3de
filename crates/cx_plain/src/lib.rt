//! A machine with a stack of its own for the meaning of programs: the ground of a plain program that computes it.
#![tactic(auto)]

pub mod laws;
