ghost use Rattle.std.specs.Prelude.{◌≡◌};
ghost use Rattle.cx_core.specs.Operators.{integer_of};
ghost use Rattle.cx_lower.specs.Code.{type_number, computes, compares, convert, unary_instruction, binary_instruction};

use cx_code::Instruction;
use cx_core::{BinaryOperator, IntegerType, UnaryOperator};
use cx_types::Scalar;

/// The conversion of a number to a type.
pub fn convert(to: IntegerType) -> Instruction
    ensures { result ≡ convert to }
{
    computes(34, to)
}

/// What an operator does to an operand of the type that it computes in.
pub fn unary_instruction(operator: UnaryOperator, of: IntegerType) -> Instruction
    ensures { result ≡ unary_instruction operator of }
{
    match operator {
        UnaryOperator::Minus => computes(15, of),
        UnaryOperator::Not => computes(16, of),
        UnaryOperator::Complement => computes(17, of),
    }
}

/// What an operator does to two operands of the type that it computes in.
pub fn binary_instruction(operator: BinaryOperator, of: IntegerType) -> Instruction
    ensures { result ≡ binary_instruction operator of }
{
    match operator {
        BinaryOperator::Multiply => computes(20, of),
        BinaryOperator::Divide => computes(21, of),
        BinaryOperator::Remainder => computes(22, of),
        BinaryOperator::Add => computes(18, of),
        BinaryOperator::Subtract => computes(19, of),
        BinaryOperator::ShiftLeft => computes(23, of),
        BinaryOperator::ShiftRight => computes(24, of),
        BinaryOperator::Less => compares(30),
        BinaryOperator::Greater => compares(32),
        BinaryOperator::LessEqual => compares(31),
        BinaryOperator::GreaterEqual => compares(33),
        BinaryOperator::Equal => compares(28),
        BinaryOperator::NotEqual => compares(29),
        BinaryOperator::BitAnd => computes(25, of),
        BinaryOperator::BitXor => computes(27, of),
        BinaryOperator::BitOr => computes(26, of),
    }
}

/// The integer type of an object, where it is a number.
pub fn integer_of(scalar: Scalar) -> Option<IntegerType>
    ensures { result ≡ integer_of scalar }
{
    match scalar {
        Scalar::Bool => Some(IntegerType::Bool),
        Scalar::Char => Some(IntegerType::Char),
        Scalar::Int => Some(IntegerType::Int),
        Scalar::Unsigned => Some(IntegerType::Unsigned),
        Scalar::LongLong => Some(IntegerType::LongLong),
        Scalar::UnsignedLongLong => Some(IntegerType::UnsignedLongLong),
        _ => None,
    }
}

/// The instruction with this number, of numbers of a type.
fn computes(code: u8, numbers: IntegerType) -> Instruction
    ensures { result ≡ computes code numbers }
{
    Instruction {
        code,
        a: type_number(numbers),
        b: 0,
    }
}

/// The comparison with this number, which is of any two numbers.
fn compares(code: u8) -> Instruction
    ensures { result ≡ compares code }
{
    Instruction { code, a: 0, b: 0 }
}

/// The number of a type in an instruction.
fn type_number(numbers: IntegerType) -> u32
    ensures { result ≡ type_number numbers }
{
    match numbers {
        IntegerType::Bool => 1,
        IntegerType::Char => 2,
        IntegerType::Int => 3,
        IntegerType::Unsigned => 4,
        IntegerType::LongLong => 5,
        IntegerType::UnsignedLongLong => 6,
    }
}
