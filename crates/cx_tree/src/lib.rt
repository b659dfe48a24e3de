//! The parser of a unit that gives its tree: the parser's machine with both of its stacks.
#![tactic(auto)]

mod tree;

pub use tree::parse;
