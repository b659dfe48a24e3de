//! The trees of a class's members, after [class.mem] and [class.base.init].

use crate::Word;
use crate::tree::{Args, Block, Params, Suffix, Tail, TypeTree};

/// The initialiser of a field in a constructor.
#[derive(Drop)]
pub struct MemberInit {
    pub name: u32,
    pub at: u32,
    pub arguments: Args,
}

/// A further initialiser, with the comma before it.
#[derive(Drop)]
pub struct AnotherInit {
    pub comma: u32,
    pub init: MemberInit,
}

/// One or more initialisers with commas.
#[derive(Drop)]
pub struct InitRow {
    pub first: MemberInit,
    pub more: Vec<AnotherInit>,
}

/// The initialiser list of a constructor, with the place of its `:`.
#[derive(Drop)]
pub enum Inits {
    Nothing,
    Row { at: u32, row: InitRow },
}

/// The end of a constructor in its class: a `;`, or its initialiser list and body.
#[derive(Drop)]
pub enum Making {
    Unmade { at: u32 },
    Made { inits: Inits, body: Block },
}

/// A member of a class, or an access specifier. Places of words that may be absent come first.
#[derive(Drop)]
pub enum Member {
    /// `public :` or `private :`.
    Access {
        at: u32,
        word: Word,
        colon: u32,
    },
    Field {
        of: TypeTree,
        name: u32,
        name_at: u32,
        semicolon: u32,
    },
    Method {
        virtual_at: Option<u32>,
        of: TypeTree,
        name: u32,
        name_at: u32,
        params: Params,
        constant: Option<u32>,
        suffix: Suffix,
        tail: Tail,
    },
    Constructor {
        explicit_at: Option<u32>,
        name: u32,
        name_at: u32,
        params: Params,
        suffix: Suffix,
        making: Making,
    },
    Destructor {
        virtual_at: Option<u32>,
        tilde: u32,
        name: u32,
        name_at: u32,
        open_at: u32,
        close: u32,
        suffix: Suffix,
        tail: Tail,
    },
}
