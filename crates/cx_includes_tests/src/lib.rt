//! Units of several files: their assembled lists and first faults, worked out by hand.
#![tactic(auto)]

#[cfg(test)]
mod tests;
