use crate::{Expression, Initializer, Operand};
use cx_types::ValueType;

/// A statement [stmt]: each variant is a production of the grammar.
#[cycle(statement)]
#[derive(Drop)]
pub enum Statement {
    Empty,
    /// A discarded-value expression, which is read unless it is an lvalue.
    Expression(Operand),
    /// A variable that isn't a reference, in its slot.
    Variable(u32, ValueType, Initializer),
    Reference(u32, Expression),
    Block(Vec<Statement>),
    If(Operand, Box<Statement>, Box<Statement>),
    While(Operand, Box<Statement>),
    /// What comes first, the condition, the step and the body.
    For(Box<Statement>, Option<Operand>, Box<Statement>, Box<Statement>),
    Break,
    Continue,
    Return,
    ReturnValue(Operand),
    ReturnReference(Expression),
    /// A result of class type.
    ReturnObject(Initializer),
    /// The index of the assertion in the unit's table, and its predicate.
    ContractAssert(u32, Operand),
    Throw(ValueType, Initializer),
    Rethrow,
    Try(Vec<Statement>, Vec<Handler>),
}

/// A handler of a `try` block [except.handle].
#[cycle(statement)]
#[derive(Drop)]
pub struct Handler {
    /// The type that it catches, without `const` and reference; none for `...`.
    pub catches: Option<ValueType>,
    pub parameter: CatchParameter,
    pub body: Vec<Statement>,
}

/// The parameter of a handler, in its slot. One that isn't a reference is an object, also without a name.
#[derive(Drop)]
pub enum CatchParameter {
    /// A reference without a name, or `...`.
    Unnamed,
    /// A reference to the exception object.
    Reference(u32),
    /// An object of its own, with a name or without one, initialised from the exception object.
    Object(u32, bool, Initializer),
}
