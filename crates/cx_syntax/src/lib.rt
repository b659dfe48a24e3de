//! The syntax of the language: tokens after [lex.token], marks, and the trees of the grammar.
#![tactic(auto)]

mod items;
pub mod mark;
mod no_memory;
mod token;
pub mod tree;

pub use items::Items;
pub use mark::{Mark, Punct, Word};
pub use no_memory::NoMemory;
pub use token::{Token, TokenKind};
