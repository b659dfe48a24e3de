//! The types of the language profile, as values.
#![tactic(auto)]

mod value_type;

pub use value_type::{Base, Scalar, ValueType};
