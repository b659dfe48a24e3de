//! Which places of a function are reached, from where and with how many operands.
#![tactic(auto)]

mod arriving;
pub mod effect;
mod item;
pub mod laws;
mod rule;
mod search;

pub use arriving::{Arrival, Depths};
pub use item::Item;
pub use rule::Rule;
pub use search::arrivals;
