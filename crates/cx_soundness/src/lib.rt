//! Which programs are typed, and that a typed program never comes to undefined behaviour that no well made program has.
#![tactic(auto)]

pub mod laws;
