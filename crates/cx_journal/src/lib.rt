//! The text of the journal of a run: a line for each event, and a last one for the ending.
#![tactic(auto)]

mod ending;
mod event;
mod fault;
mod length;
mod text;

pub use ending::put_ending_text;
pub use fault::JournalFault;
pub use text::journal_text;
