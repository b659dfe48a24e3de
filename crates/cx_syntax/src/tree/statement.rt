//! The trees of statements, after [stmt].

use crate::tree::{Expr, Param, Several, TypeTree};

/// The initialiser of a local variable.
#[derive(Drop)]
pub enum Init {
    Nothing,
    /// `=` and an expression.
    Equals { at: u32, value: Expr },
    /// Expressions in parentheses.
    Parens { at: u32, list: Several, close: u32 },
}

/// A local variable.
#[derive(Drop)]
pub struct Local {
    pub of: TypeTree,
    pub name: u32,
    pub name_at: u32,
    pub init: Init,
}

/// What a handler catches.
#[derive(Drop)]
pub enum Catching {
    /// `...`.
    Any { at: u32 },
    Typed(Param),
}

/// Statements in braces.
#[cycle(statement)]
#[derive(Drop)]
pub struct Block {
    pub at: u32,
    pub statements: Vec<Stmt>,
    pub close: u32,
}

/// A statement. `at` is the place of its word.
#[cycle(statement)]
#[derive(Drop)]
pub enum Stmt {
    Compound(Block),
    Empty {
        at: u32,
    },
    Evaluate {
        value: Expr,
        semicolon: u32,
    },
    Declare {
        local: Local,
        semicolon: u32,
    },
    /// `if` without `else`.
    Branch {
        at: u32,
        open_at: u32,
        condition: Expr,
        close: u32,
        body: Box<Stmt>,
    },
    /// `if` with `else`.
    Branches {
        at: u32,
        open_at: u32,
        condition: Expr,
        close: u32,
        body: Box<Stmt>,
        other: u32,
        other_body: Box<Stmt>,
    },
    While {
        at: u32,
        open_at: u32,
        condition: Expr,
        close: u32,
        body: Box<Stmt>,
    },
    /// `first` is an empty statement, an expression statement or a declaration.
    For {
        at: u32,
        open_at: u32,
        first: Box<Stmt>,
        condition: Option<Expr>,
        semicolon: u32,
        step: Option<Expr>,
        close: u32,
        body: Box<Stmt>,
    },
    Return {
        at: u32,
        value: Option<Expr>,
        semicolon: u32,
    },
    Break {
        at: u32,
        semicolon: u32,
    },
    Continue {
        at: u32,
        semicolon: u32,
    },
    Throw {
        at: u32,
        value: Option<Expr>,
        semicolon: u32,
    },
    Try {
        at: u32,
        body: Block,
        handlers: Handlers,
    },
    /// `contract_assert`.
    Assert {
        at: u32,
        open_at: u32,
        predicate: Expr,
        close: u32,
        semicolon: u32,
    },
}

/// A handler of a `try` block.
#[cycle(statement)]
#[derive(Drop)]
pub struct Handler {
    pub at: u32,
    pub open_at: u32,
    pub catching: Catching,
    pub close: u32,
    pub body: Block,
}

/// One or more handlers.
#[cycle(statement)]
#[derive(Drop)]
pub struct Handlers {
    pub first: Box<Handler>,
    pub more: Vec<Handler>,
}
