//! The trees of types, after [dcl.type].

use crate::{Mark, Word};

/// The base of a type, which `const`, `*` and `&` stand around.
#[derive(Clone, Copy, Debug, PartialEq, Eq)]
pub enum Base {
    /// `void`, `bool`, `char`, `int` or `unsigned`.
    Word {
        word: Word,
        at: u32,
    },
    /// `unsigned int`.
    UnsignedInt {
        at: u32,
        second: u32,
    },
    /// `long long`.
    LongLong {
        at: u32,
        second: u32,
    },
    /// `unsigned long long`.
    UnsignedLongLong {
        at: u32,
        second: u32,
        third: u32,
    },
    Class {
        name: u32,
        at: u32,
    },
    /// `std :: contracts :: NAME`, with the mark of the name `contracts`.
    Library {
        at: u32,
        scope: u32,
        mark: Mark,
        contracts: u32,
        second: u32,
        name: u32,
        name_at: u32,
    },
}

/// A `*` and the place of the `const` after it.
#[derive(Clone, Copy, Debug, PartialEq, Eq)]
pub struct Star {
    pub at: u32,
    pub constant: Option<u32>,
}

/// A type: the place of a `const` in front, the base, at most eight `*` from left to right, and the place of a `&`.
#[derive(Debug, Drop)]
pub struct TypeTree {
    pub constant: Option<u32>,
    pub base: Base,
    pub stars: Vec<Star>,
    pub reference: Option<u32>,
}
