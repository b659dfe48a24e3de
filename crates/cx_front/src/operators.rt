ghost use Rattle.std.specs.Prelude.{◌≡◌, IfOk, option_map};
ghost use Rattle.cx_typed.specs.Typed.{binary_type, unary_type};
ghost use Rattle.cx_front.specs.Core.{typed_of};
ghost use Rattle.cx_front.specs.Front.{binary_operator, both, unary_operator, with_both, with_operand, with_operands};

use crate::operand::as_type;
use crate::typed::TypedExpression;
use cx_core::{BinaryOperator, Expression, IntegerType, UnaryOperator};
use cx_outside::NoMemory;
use cx_syntax::Punct;
use std::alloc::Global;

/// The operator that a punctuator is before its operand, if it is one that is built.
pub fn unary_operator(punct: Punct) -> Option<UnaryOperator>
    ensures { result ≡ unary_operator punct }
{
    match punct {
        Punct::Minus => Some(UnaryOperator::Minus),
        Punct::Not => Some(UnaryOperator::Not),
        Punct::Tilde => Some(UnaryOperator::Complement),
        _ => None,
    }
}

/// The operator that a punctuator is between two operands, if it is one that is built.
pub fn binary_operator(punct: Punct) -> Option<BinaryOperator>
    ensures { result ≡ binary_operator punct }
{
    match punct {
        Punct::Star => Some(BinaryOperator::Multiply),
        Punct::Slash => Some(BinaryOperator::Divide),
        Punct::Percent => Some(BinaryOperator::Remainder),
        Punct::Plus => Some(BinaryOperator::Add),
        Punct::Minus => Some(BinaryOperator::Subtract),
        Punct::ShiftLeft => Some(BinaryOperator::ShiftLeft),
        Punct::ShiftRight => Some(BinaryOperator::ShiftRight),
        Punct::Less => Some(BinaryOperator::Less),
        Punct::Greater => Some(BinaryOperator::Greater),
        Punct::LessEqual => Some(BinaryOperator::LessEqual),
        Punct::GreaterEqual => Some(BinaryOperator::GreaterEqual),
        Punct::Equal => Some(BinaryOperator::Equal),
        Punct::NotEqual => Some(BinaryOperator::NotEqual),
        Punct::And => Some(BinaryOperator::BitAnd),
        Punct::Xor => Some(BinaryOperator::BitXor),
        Punct::Or => Some(BinaryOperator::BitOr),
        _ => None,
    }
}

/// The type in which an operator before its operand computes, which is the type of its result [expr.unary.op].
fn unary_type(operator: UnaryOperator) -> IntegerType
    ensures { result ≡ unary_type operator }
{
    match operator {
        UnaryOperator::Minus => IntegerType::Int,
        UnaryOperator::Not => IntegerType::Bool,
        UnaryOperator::Complement => IntegerType::Int,
    }
}

/// The type of the result of an operator between two operands: `bool` for a comparison [expr.rel], [expr.eq], else `int`.
fn binary_type(operator: BinaryOperator) -> IntegerType
    ensures { result ≡ binary_type operator }
{
    match operator {
        BinaryOperator::Less
        | BinaryOperator::Greater
        | BinaryOperator::LessEqual
        | BinaryOperator::GreaterEqual
        | BinaryOperator::Equal
        | BinaryOperator::NotEqual => IntegerType::Bool,
        _ => IntegerType::Int,
    }
}

/// An operator before its operand, where both are there.
pub fn with_operand(
    alloc: Global,
    operator: Option<UnaryOperator>,
    operand: Option<TypedExpression>,
) -> Result<Option<TypedExpression>, NoMemory>
    ensures { IfOk result (λ told. option_map typed_of told ≡ both with_operand operator (option_map typed_of operand)) }
{
    match operator {
        Some(operator) => match operand {
            Some(operand) => {
                let computed = unary_type(operator);
                let operand = Box::new(alloc, as_type(computed, operand))?;
                Ok(Some(TypedExpression {
                    read: None,
                    gives: computed,
                    of: Expression::Unary(operator, computed, operand),
                }))
            }
            None => Ok(None),
        },
        None => Ok(None),
    }
}

/// An operator between two operands, where all three are there.
pub fn with_operands(
    alloc: Global,
    operator: Option<BinaryOperator>,
    left: Option<TypedExpression>,
    right: Option<TypedExpression>,
) -> Result<Option<TypedExpression>, NoMemory>
    ensures { IfOk result (λ told. option_map typed_of told ≡ with_operands operator (option_map typed_of left) (option_map typed_of right)) }
{
    match operator {
        Some(operator) => match left {
            Some(left) => match right {
                Some(right) => Ok(Some(with_both(alloc, operator, left, right)?)),
                None => Ok(None),
            },
            None => Ok(None),
        },
        None => Ok(None),
    }
}

/// An operator between two operands.
fn with_both(
    alloc: Global,
    operator: BinaryOperator,
    left: TypedExpression,
    right: TypedExpression,
) -> Result<TypedExpression, NoMemory>
    ensures { IfOk result (λ told. typed_of told ≡ with_both operator (typed_of left) (typed_of right)) }
{
    let left = Box::new(alloc, as_type(IntegerType::Int, left))?;
    let right = Box::new(alloc, as_type(IntegerType::Int, right))?;
    Ok(TypedExpression {
        read: None,
        gives: binary_type(operator),
        of: Expression::Binary(operator, IntegerType::Int, left, right),
    })
}
