/// A scalar type [basic.types.general] other than a pointer to something, and two types of this project's own that
/// no variable has.
#[derive(Clone, Copy, Debug, PartialEq, Eq)]
pub enum Scalar {
    Bool,
    Char,
    Int,
    Unsigned,
    LongLong,
    UnsignedLongLong,
    /// `std::contracts::assertion_kind` [contracts.syn].
    AssertionKind,
    /// `std::contracts::evaluation_semantic` [contracts.syn].
    EvaluationSemantic,
    /// `std::contracts::detection_mode` [contracts.syn].
    DetectionMode,
    /// The type of `nullptr` [basic.fundamental].
    Null,
    /// The type of a text literal, and of `comment()` of a violation.
    Literal,
    /// The type of `location()` of a violation.
    Location,
}

/// What a type is without its pointers, its reference and its `const`.
#[derive(Clone, Copy, Debug, PartialEq, Eq)]
pub enum Base {
    Scalar(Scalar),
    /// An index in the unit's table of classes.
    Class(u32),
    /// A pointer to a function, by the index of the function's type in the unit's table of them.
    Function(u32),
    /// `std::contracts::contract_violation` [support.contract.violation].
    Violation,
    Void,
}

/// A type [basic.types]: a base with `const` or not, then `pointers` many `*`, then `&` or not.
/// Bit i of `pointer_consts` is the `const` after the i-th `*`, counted from 0 at the base.
#[derive(Clone, Copy, Debug, PartialEq, Eq)]
pub struct ValueType {
    pub base: Base,
    pub constant: bool,
    pub pointers: u8,
    pub pointer_consts: u8,
    pub reference: bool,
}
