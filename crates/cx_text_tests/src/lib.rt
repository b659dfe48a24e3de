//! Units as text: their tokens, marks and trees, and the places of their faults, worked out by hand from the language.
#![tactic(auto)]

#[cfg(test)]
mod lexing;
#[cfg(test)]
mod lists;
#[cfg(test)]
mod marking;
#[cfg(test)]
mod parsing;
#[cfg(test)]
mod recognizing;
