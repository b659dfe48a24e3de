//! The trees of expressions, after [expr].

ghost use Rattle.std.specs.Prelude.{◌≡◌};

use crate::tree::TypeTree;
use crate::{Mark, Punct, Word};

/// An expression. `operator` is the place of its operator, and `at` that of its first token.
#[cycle(expression)]
#[derive(Drop)]
pub enum Expr {
    /// A literal that is one token, `true`, `false`, `nullptr`, `this` or a name that isn't a class name.
    Leaf {
        at: u32,
        mark: Mark,
    },
    Paren {
        at: u32,
        inner: Box<Expr>,
        close: u32,
    },
    /// A class name and arguments.
    Temporary {
        at: u32,
        name: u32,
        arguments: Args,
    },
    /// `bool`, `char`, `int` or `unsigned`, and an operand in parentheses.
    WordCast {
        at: u32,
        word: Word,
        open_at: u32,
        operand: Box<Expr>,
        close: u32,
    },
    StaticCast {
        at: u32,
        less: u32,
        to: Box<TypeTree>,
        greater: u32,
        open_at: u32,
        operand: Box<Expr>,
        close: u32,
    },
    /// `std :: NAME`.
    Standard {
        at: u32,
        scope: u32,
        name: u32,
        name_at: u32,
    },
    /// `std :: contracts :: NAME :: NAME`, with the mark of the name `contracts`.
    Library {
        at: u32,
        scope: u32,
        mark: Mark,
        contracts: u32,
        second: u32,
        type_name: u32,
        type_at: u32,
        third: u32,
        name: u32,
        name_at: u32,
    },
    /// By `.` or `->`.
    Member {
        at: u32,
        object: Box<Expr>,
        punct: Punct,
        operator: u32,
        name: u32,
        name_at: u32,
    },
    Call {
        at: u32,
        callee: Box<Expr>,
        arguments: Args,
    },
    /// `++` or `--` after its operand.
    Stepped {
        at: u32,
        operand: Box<Expr>,
        punct: Punct,
        operator: u32,
    },
    Unary {
        at: u32,
        punct: Punct,
        operand: Box<Expr>,
    },
    Binary {
        at: u32,
        left: Box<Expr>,
        punct: Punct,
        operator: u32,
        right: Box<Expr>,
    },
    /// `?:`.
    Choose {
        at: u32,
        condition: Box<Expr>,
        question: u32,
        chosen: Box<Expr>,
        colon: u32,
        other: Box<Expr>,
    },
    Assign {
        at: u32,
        left: Box<Expr>,
        punct: Punct,
        operator: u32,
        right: Box<Expr>,
    },
}

/// Arguments in parentheses.
#[cycle(expression)]
#[derive(Drop)]
pub enum Args {
    Empty { at: u32, close: u32 },
    List { at: u32, list: Several, close: u32 },
}

/// One or more expressions with commas.
#[cycle(expression)]
#[derive(Drop)]
pub struct Several {
    pub first: Box<Expr>,
    pub more: Vec<Another>,
}

/// A further expression, with the comma before it.
#[cycle(expression)]
#[derive(Drop)]
pub struct Another {
    pub comma: u32,
    pub value: Expr,
}

impl Expr {
    ghost use Rattle.cx_syntax.specs.Shaped.{at_of};
    ghost use Rattle.cx_syntax.specs.View.{expr_of};

    /// The place of its first token.
    pub fn at(&self) -> u32
        ensures { result ≡ at_of (expr_of self.now) }
    {
        match self {
            Expr::Leaf { at, .. } => *at,
            Expr::Paren { at, .. } => *at,
            Expr::Temporary { at, .. } => *at,
            Expr::WordCast { at, .. } => *at,
            Expr::StaticCast { at, .. } => *at,
            Expr::Standard { at, .. } => *at,
            Expr::Library { at, .. } => *at,
            Expr::Member { at, .. } => *at,
            Expr::Call { at, .. } => *at,
            Expr::Stepped { at, .. } => *at,
            Expr::Unary { at, .. } => *at,
            Expr::Binary { at, .. } => *at,
            Expr::Choose { at, .. } => *at,
            Expr::Assign { at, .. } => *at,
        }
    }
}
