//! The trees of the grammar: one variant a production, with its parts in order and the place of each token.
//!
//! A place is the index of a token in the unit's list, from 0. A name is its number and its place. The first place of
//! an expression is that of its first token. Contracts see the plain trees of specs/Tree through specs/View.

mod expression;
mod function;
mod item;
mod member;
mod statement;
mod types;

pub use expression::{Another, Args, Expr, Several};
pub use function::{AnotherParam, OptionalName, Param, ParamRow, Params, Spec, Suffix, Tail};
pub use item::{Constant, GlobalInit, Item, UnitTree};
pub use member::{AnotherInit, InitRow, Inits, Making, Member, MemberInit};
pub use statement::{Block, Catching, Handler, Handlers, Init, Local, Stmt};
pub use types::{Base, Star, TypeTree};
