use cx_core::{Expression, IntegerType};
use cx_types::ValueType;

/// An expression: how its value is read, where it is an lvalue, its type, and its tree.
#[derive(Drop)]
pub struct TypedExpression {
    pub read: Option<ValueType>,
    pub gives: IntegerType,
    pub of: Expression,
}
