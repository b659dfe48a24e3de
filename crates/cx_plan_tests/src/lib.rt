//! Plans, and units that are made from a number: what is read, chosen and written, worked out by hand.
#![tactic(auto)]

#[cfg(test)]
mod made;
#[cfg(test)]
mod plans;
