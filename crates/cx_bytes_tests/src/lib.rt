//! Images and objects as bytes: what is read and what is refused, with the place and the reason, worked out by hand.
#![tactic(auto)]

#[cfg(test)]
mod bytes;
#[cfg(test)]
mod rows;
#[cfg(test)]
mod tests;
