//! Images as bytes, read and judged: the first rule that each breaks, worked out by hand.
#![tactic(auto)]

#[cfg(test)]
mod rows;
#[cfg(test)]
mod tests;
