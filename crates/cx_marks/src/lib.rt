//! The marks of a unit: what the grammar asks of each of its tokens, with class names told apart from other names.
#![tactic(auto)]

mod laws;
mod scan;
mod spelled;
mod words;

pub use laws::{class_names, marks_stay, numbers};
pub use scan::marks_of;
pub use spelled::Spelled;
