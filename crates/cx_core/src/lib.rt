//! The typed program, and what it means.
#![tactic(auto)]

mod choice;
mod expression;
pub mod laws;
mod number;
mod statement;
mod unit;

pub use choice::{Calls, Choice};
pub use expression::{Argument, Constant, Expression, Initializer, Operand, PointedResult};
pub use number::{BinaryOperator, IntegerType, Query, UnaryOperator};
pub use statement::{CatchParameter, Handler, Statement};
pub use unit::{
    Assertion, Body, CallPlace, CallSite, Class, ClassDefinition, CoreUnit, Field,
    FieldInitializer, Function, FunctionType, Global, LeafKind, ResultKind, Specifier,
};
