//! The tokens of a text, after [lex].
#![tactic(auto)]

mod bytes;
mod comment;
mod fault;
mod name;
mod number;
mod piece;
mod punct;
mod quoted;
mod seen;
mod table;
mod tokens;

pub use comment::{begins_line_comment, is_spliced_line, line_length};
pub use fault::LexFault;
pub use piece::{Piece, piece_at};
pub use tokens::{Tokens, lex, one_reading, text_of};
