use crate::{BinaryOperator, IntegerType, Query, UnaryOperator};
use cx_outside::Text;
use cx_types::ValueType;

/// A literal, an enumerator or the first value of a global.
#[derive(Clone, Copy, Debug, PartialEq, Eq)]
pub enum Constant {
    Number(i128),
    Nullptr,
}

/// What a call through a pointer gives that isn't a class object, by the pointer's type.
#[derive(Clone, Copy, Debug, PartialEq, Eq)]
pub enum PointedResult {
    Void,
    Scalar,
    Reference,
}

/// An expression [expr], its names resolved and its conversions explicit: each variant is a production of the grammar.
///
/// An lvalue and a class object give their place, any other expression its value. Slots number the parameters of a
/// function, from 0 and `this` first, and its variables; functions, classes and globals go by their index in the unit.
/// Unary `+`, `&` and parentheses leave nothing behind; `p->m` is `(*p).m`, and a member named alone `(*this).m`.
#[cycle(expression)]
#[derive(Drop)]
pub enum Expression {
    Literal(Constant),
    /// A variable or parameter that isn't global, by its slot.
    Variable(u32),
    Global(u32),
    This,
    /// The name of a function that isn't what is called.
    FunctionName(u32),
    /// The result name of a postcondition [dcl.contract.res].
    ResultName,
    /// The exception object, as the initialiser of a catch parameter [except.handle].
    ExceptionObject,
    Unary(UnaryOperator, IntegerType, Box<Operand>),
    Binary(BinaryOperator, IntegerType, Box<Operand>, Box<Operand>),
    LogicalAnd(Box<Operand>, Box<Operand>),
    LogicalOr(Box<Operand>, Box<Operand>),
    Conditional(Box<Operand>, Box<Operand>, Box<Operand>),
    /// To an integer type or `bool`; the conversion is the operand's.
    Cast(Box<Operand>),
    Assign(Box<Expression>, Box<Operand>),
    /// The operator, the type in which it computes, the type of the left operand, and both operands.
    CompoundAssign(BinaryOperator, IntegerType, IntegerType, Box<Expression>, Box<Operand>),
    /// `++` and `--` before an operand of the type, by the operator that they are short for.
    PrefixStep(BinaryOperator, IntegerType, Box<Expression>),
    /// The same after it.
    PostfixStep(BinaryOperator, IntegerType, Box<Expression>),
    Indirection(Box<Operand>),
    /// The field that begins at this leaf of an object; at leaf 0 also the object of a member call.
    Member(u32, Box<Expression>),
    /// A call of a function, with the object of a member call as its first argument.
    Call(u32, Vec<Argument>),
    /// A call of the function that a pointer holds.
    CallThrough(PointedResult, Box<Operand>, Vec<Argument>),
    Temporary(ValueType, Box<Initializer>),
    /// The object of the class that a call through a pointer gives, as a temporary.
    TemporaryThrough(u32, Box<Operand>, Vec<Argument>),
    Putchar(Box<Operand>),
    Getchar,
    Puts(Text),
    /// `puts(v.comment())`.
    PutsComment(Box<Expression>),
    Query(Query, Box<Expression>),
}

/// An expression under a standard conversion sequence [conv]: it is read as an object of the type `read`, where there
/// is one, and the value is then converted to `to`, where there is one.
#[cycle(expression)]
#[derive(Drop)]
pub struct Operand {
    pub read: Option<ValueType>,
    pub to: Option<IntegerType>,
    pub of: Expression,
}

/// How an object is initialised [dcl.init].
#[cycle(expression)]
#[derive(Drop)]
pub enum Initializer {
    Value(Operand),
    /// By a constructor, implicit or not.
    Construct(u32, Vec<Argument>),
    /// Value-initialisation: an object of the class is zero-initialised first.
    ZeroFirst(u32, Box<Initializer>),
    /// The object is the result object of a call.
    ResultOf(u32, Vec<Argument>),
    /// The same of a call through a pointer.
    ResultThrough(Box<Operand>, Vec<Argument>),
}

/// An argument: bound to a reference, or the initialiser of a parameter of the type.
#[cycle(expression)]
#[derive(Drop)]
pub enum Argument {
    ByReference(Expression),
    ByValue(ValueType, Initializer),
}
