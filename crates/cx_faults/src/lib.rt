//! The first fault of an assembled list of tokens: too many open tokens, or the place where it isn't grammatical.
#![tactic(auto)]

mod fault;
mod first;
mod marked;
mod place;
mod spelled;

pub use fault::{FaultPlace, ListFault};
pub use first::first_fault;
pub use marked::marks;
