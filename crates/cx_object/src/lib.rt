//! The bytes of objects.
#![tactic(auto)]

mod decoding;
mod encoding;
mod entries;
mod laws;

pub use decoding::{ObjectFault, decode};
pub use encoding::encode;
pub use laws::{bytes_spell_one_object, what_is_read_is_spelled, what_is_spelled_is_read};
