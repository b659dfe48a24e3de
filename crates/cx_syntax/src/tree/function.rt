//! The trees of a function's parts, after [dcl.fct] and [dcl.contract.func].

use crate::Mark;
use crate::tree::{Block, Expr, TypeTree};

/// The name of a parameter, if it has one.
#[derive(Clone, Copy, Debug, PartialEq, Eq)]
pub enum OptionalName {
    Unnamed,
    Named { name: u32, at: u32 },
}

/// A parameter of a function or of a handler.
#[derive(Drop)]
pub struct Param {
    pub of: TypeTree,
    pub name: OptionalName,
}

/// A further parameter, with the comma before it.
#[derive(Drop)]
pub struct AnotherParam {
    pub comma: u32,
    pub param: Param,
}

/// One or more parameters with commas.
#[derive(Drop)]
pub struct ParamRow {
    pub first: Param,
    pub more: Vec<AnotherParam>,
}

/// Parameters in parentheses.
#[derive(Drop)]
pub enum Params {
    Empty { at: u32, close: u32 },
    Row { at: u32, row: ParamRow, close: u32 },
}

/// A function contract specifier, with the mark of the name `pre` or `post`, which is at `at`.
#[derive(Drop)]
pub enum Spec {
    /// `pre`.
    Before {
        mark: Mark,
        at: u32,
        open_at: u32,
        predicate: Expr,
        close: u32,
    },
    /// `post`.
    After {
        mark: Mark,
        at: u32,
        open_at: u32,
        predicate: Expr,
        close: u32,
    },
    /// `post` with a result name.
    AfterNamed {
        mark: Mark,
        at: u32,
        open_at: u32,
        name: u32,
        name_at: u32,
        colon: u32,
        predicate: Expr,
        close: u32,
    },
}

/// The place of `noexcept`, and the function contract specifiers.
#[derive(Drop)]
pub struct Suffix {
    pub noexcept: Option<u32>,
    pub specs: Vec<Spec>,
}

/// The end of a function: a `;` or its body.
#[derive(Drop)]
pub enum Tail {
    Declared { at: u32 },
    Defined(Block),
}
