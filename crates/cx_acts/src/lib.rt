//! The acts of the parser: each makes of the values on top of the second stack what a production of the grammar makes of its parts.
#![tactic(auto)]

pub mod arguments;
mod dispatch;
pub mod expressions;
pub mod functions;
pub mod globals;
pub mod handlers;
pub mod initialisers;
pub mod items;
pub mod locals;
pub mod members;
pub mod specifiers;
pub mod statements;
pub mod types;

pub use dispatch::perform;
