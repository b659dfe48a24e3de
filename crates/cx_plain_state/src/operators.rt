ghost use Rattle.std.specs.Prelude.{◌≡◌};
ghost use Rattle.cx_core.specs.Operators.{integer_of, fits_integer, fits, value_number, same_address, same_pointer, pointers_compared, operands_fit};
ghost use Rattle.cx_plain_state.specs.Seen.{value_of, address_of, type_of};
ghost use Rattle.cx_plain_state.specs.Ran.{undefined_halt};

use crate::arithmetic::{binary_number, unary_number};
use crate::number::{converted_number, in_range, promoted, truth_number};
use crate::{Address, Answer, Halt, ObjectType, State, Value};
use cx_code::{Ending, Kind};
use cx_core::{BinaryOperator, IntegerType, UnaryOperator};
use cx_types::Scalar;

/// That the run is undefined from here on, by this kind of undefined behaviour. (This project's own.)
pub fn undefined(kind: Kind) -> Halt
    ensures { result ≡ undefined_halt kind }
{
    Halt::Over(Answer::Ended(Ending::Undefined(kind)))
}

fn integer_of(scalar: Scalar) -> Option<IntegerType>
    ensures { result ≡ integer_of scalar }
{
    match scalar {
        Scalar::Bool => Some(IntegerType::Bool),
        Scalar::Char => Some(IntegerType::Char),
        Scalar::Int => Some(IntegerType::Int),
        Scalar::Unsigned => Some(IntegerType::Unsigned),
        Scalar::LongLong => Some(IntegerType::LongLong),
        Scalar::UnsignedLongLong => Some(IntegerType::UnsignedLongLong),
        _ => None,
    }
}

fn fits_integer(of: Option<IntegerType>, n: i128) -> bool
    ensures { result ≡ fits_integer of n }
{
    match of {
        None => true,
        Some(of) => in_range(of, n),
    }
}

/// Whether an object of the type may hold the value.
pub(crate) fn fits(of: ObjectType, value: Value<'_>) -> bool
    ensures { result ≡ fits (type_of of) (value_of value.entry) }
{
    match (of, value) {
        (ObjectType::Scalar(scalar), Value::Number(n)) => fits_integer(integer_of(scalar), n),
        (ObjectType::Pointer(_), Value::Address(_)) => true,
        (ObjectType::Pointer(_), Value::Null) => true,
        (ObjectType::FunctionPointer(_), Value::Function(_)) => true,
        (ObjectType::FunctionPointer(_), Value::Null) => true,
        _ => false,
    }
}

/// A value as a number of the type; a pointer converts to `bool` alone.
pub(crate) fn value_number(of: IntegerType, value: Value<'_>) -> Option<i128>
    ensures { result ≡ value_number of (value_of value.entry) }
{
    match (value, of) {
        (Value::Number(n), _) => Some(converted_number(of, n)),
        (Value::Address(_), IntegerType::Bool) => Some(truth_number(true)),
        (Value::Null, IntegerType::Bool) => Some(truth_number(false)),
        (Value::Function(_), IntegerType::Bool) => Some(truth_number(true)),
        _ => None,
    }
}

fn same_address(a: Address, b: Address) -> bool
    ensures { result ≡ same_address (address_of a) (address_of b) }
{
    a.object == b.object && a.leaf == b.leaf
}

/// Whether two pointers are equal [expr.eq]; none where one is no pointer.
pub(crate) fn same_pointer(x: Value<'_>, y: Value<'_>) -> Option<bool>
    ensures { result ≡ same_pointer (value_of x.entry) (value_of y.entry) }
{
    match (x, y) {
        (Value::Address(a), Value::Address(b)) => Some(same_address(a, b)),
        (Value::Address(_), Value::Null) => Some(false),
        (Value::Null, Value::Address(_)) => Some(false),
        (Value::Null, Value::Null) => Some(true),
        (Value::Function(f), Value::Function(g)) => Some(f == g),
        (Value::Function(_), Value::Null) => Some(false),
        (Value::Null, Value::Function(_)) => Some(false),
        _ => None,
    }
}

pub(crate) fn pointers_compared(operator: BinaryOperator, same: bool) -> Option<i128>
    ensures { result ≡ pointers_compared operator same }
{
    match operator {
        BinaryOperator::Equal => Some(truth_number(same)),
        BinaryOperator::NotEqual => Some(truth_number(!same)),
        _ => None,
    }
}

/// Whether the operands of an operator are of the types that it takes.
pub(crate) fn operands_fit(operator: BinaryOperator, of: IntegerType, x: i128, y: i128) -> bool
    ensures { result ≡ operands_fit operator of x y }
{
    match operator {
        BinaryOperator::ShiftLeft | BinaryOperator::ShiftRight => in_range(of, x),
        BinaryOperator::Less
        | BinaryOperator::Greater
        | BinaryOperator::LessEqual
        | BinaryOperator::GreaterEqual
        | BinaryOperator::Equal
        | BinaryOperator::NotEqual => true,
        _ => in_range(of, x) && in_range(of, y),
    }
}
