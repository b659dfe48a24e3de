//! That a unit has an answer whatever its files hold: laws of lists, of their faults and of the units that are built.
#![tactic(auto)]

pub mod laws;
