//! What the words of the command line ask for, read by clap.
#![tactic(auto)]

mod command;
mod distinct;
mod given;
mod laws;
mod value;
mod verbs;
mod words;

pub use laws::plain_words_are_read;
pub use verbs::Verb;
pub use words::{Request, read_words};
