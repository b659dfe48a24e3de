//! The tokens of a unit: those of its file and of the files that it includes, each with its place.
#![tactic(auto)]

mod assembled;
mod assembly;
mod counts;
mod depth;
mod directive;
mod names;
mod part;
mod reached;
mod reading;
mod shape;
mod source;
mod stack;
mod stretch;
mod taking;

pub use assembled::{Assembled, Placed, SourceFile};
pub use assembly::{AssembleFault, assemble, one_assembly};
pub use depth::open_tokens;
pub use part::{Directive, Part, Span, Spot};
