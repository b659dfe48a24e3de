//! Worked programs as trees, each run by the plain program of the meaning: its journal and its ending are worked out by
//! hand.
#![tactic(auto)]

#[cfg(test)]
mod build;
#[cfg(test)]
mod programs;
#[cfg(test)]
mod rows;
#[cfg(test)]
mod state;
#[cfg(test)]
mod tests;
#[cfg(test)]
mod told;
