//! The one call that the program makes: it compiles a unit, writes the image and runs it.
#![tactic(auto)]

mod answer;
mod closing;
mod exec;
mod journal;
mod top;
mod unit_run;
mod words;

pub use answer::{Answer, NO_MEMORY_STATUS, Refusal, Report, Rule, Stream, USAGE_STATUS};
pub use top::cx;
