use cx_code::{DetectionMode, Semantic};
use cx_core::Assertion;
use cx_types::{Scalar, ValueType};

/// The type of an object, `const` aside. (This project's own.)
#[derive(Clone, Copy)]
pub enum ObjectType {
    Scalar(Scalar),
    /// A pointer, by the type of what it points to.
    Pointer(ValueType),
    /// A pointer to a function, by the number of the function's type.
    FunctionPointer(u32),
    /// A class by its number.
    Class(u32),
}

/// The number of an object and the place of a leaf in it. (This project's own.)
#[derive(Clone, Copy)]
pub struct Address {
    pub object: u64,
    pub leaf: u64,
}

/// What a violation handler is told [support.contract.violation]: of which assertion, how the violation was detected,
/// and under which semantic.
#[derive(Clone, Copy)]
pub struct Report<'p> {
    pub assertion: &'p Assertion,
    pub mode: DetectionMode,
    pub semantic: Semantic,
}

/// What an expression gives, or a leaf holds. A violation is what the parameter of its handler refers to. (This
/// project's own.)
#[derive(Clone, Copy)]
pub enum Value<'p> {
    Number(i128),
    Address(Address),
    Null,
    /// A function by its number, which a pointer to it holds.
    Function(u32),
    Violation(Report<'p>),
}
