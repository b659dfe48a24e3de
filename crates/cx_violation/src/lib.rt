//! What a contract-violation handler is told of a violation, and the line that the default handler writes.
#![tactic(auto)]

mod access;
mod default_line;
mod make;
mod names;

pub use access::{comment, kind, mode, place, semantic};
pub use default_line::line;
pub use make::violation_of;
