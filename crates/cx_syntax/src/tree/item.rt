//! The trees of a unit and its items, after [dcl.dcl] and [class].

use crate::tree::{Block, Inits, Member, Params, Suffix, Tail, TypeTree};
use crate::{Mark, Word};

/// The value of a global.
#[derive(Clone, Copy, Debug, PartialEq, Eq)]
pub enum Constant {
    /// A literal that is one token, `true`, `false` or `nullptr`.
    Plain { at: u32, mark: Mark },
    /// A `-` and a number.
    Negative { at: u32, number: u32 },
}

/// The initialiser of a global.
#[derive(Clone, Copy, Debug, PartialEq, Eq)]
pub enum GlobalInit {
    Nothing,
    /// `=` and a value.
    Value { at: u32, constant: Constant },
}

/// A declaration or definition at the level of the unit. `inlined` is the place of `inline`.
#[derive(Drop)]
pub enum Item {
    /// A class without its members; `at` is the place of `class` or `struct`.
    ClassNamed {
        at: u32,
        word: Word,
        name: u32,
        name_at: u32,
        semicolon: u32,
    },
    ClassDefined {
        at: u32,
        word: Word,
        name: u32,
        name_at: u32,
        open_at: u32,
        members: Vec<Member>,
        close: u32,
        semicolon: u32,
    },
    /// An `extern` global.
    External {
        at: u32,
        of: TypeTree,
        name: u32,
        name_at: u32,
        semicolon: u32,
    },
    Global {
        of: TypeTree,
        name: u32,
        name_at: u32,
        init: GlobalInit,
        semicolon: u32,
    },
    Function {
        inlined: Option<u32>,
        of: TypeTree,
        name: u32,
        name_at: u32,
        params: Params,
        suffix: Suffix,
        tail: Tail,
    },
    /// A member function that is defined outside its class.
    OuterMethod {
        inlined: Option<u32>,
        of: TypeTree,
        class: u32,
        class_at: u32,
        scope: u32,
        name: u32,
        name_at: u32,
        params: Params,
        constant: Option<u32>,
        suffix: Suffix,
        body: Block,
    },
    OuterConstructor {
        inlined: Option<u32>,
        class: u32,
        class_at: u32,
        scope: u32,
        name: u32,
        name_at: u32,
        params: Params,
        suffix: Suffix,
        inits: Inits,
        body: Block,
    },
    OuterDestructor {
        inlined: Option<u32>,
        class: u32,
        class_at: u32,
        scope: u32,
        tilde: u32,
        name: u32,
        name_at: u32,
        open_at: u32,
        close: u32,
        suffix: Suffix,
        body: Block,
    },
}

/// A unit: its items in order.
#[derive(Drop)]
pub struct UnitTree {
    pub items: Vec<Item>,
}
