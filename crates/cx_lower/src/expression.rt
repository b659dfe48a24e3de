//! The code of expressions and operands.
ghost use Rattle.std.specs.Prelude.{◌≡◌, ◌<◌, ◌^◌, Some, [], ◌∷◌, ◌++◌, OnOk};
ghost use Rattle.cx_core.specs.Tree.{literal};
ghost use Rattle.cx_core.specs.View.{base_type, constant, expr_of, operand_of, object_type_or_none};
ghost use Rattle.cx_lower.specs.Literals.{ExprFits, OperandFits};
ghost use Rattle.cx_lower.specs.Code.{push, conversion_code, load_code, read_code, expr_code, operand_code, truth_code};

use crate::code::Code;
use crate::instruction::{get, load, push};
use crate::operators::{binary_instruction, convert, integer_of, unary_instruction};
use cx_core::{Constant, Expression, IntegerType, Operand};
use cx_outside::NoMemory;
use cx_types::{Base, ValueType};

/// An expression, which gives a number or a place. Others than those that are built have no code.
#[cycle(expressions)]
#[tactic(auto, unfolding(crate::specs::Code::expr_code, crate::specs::Code::operand_code, crate::specs::Literals::ExprFits, crate::specs::Literals::OperandFits))]
pub fn put_expression(code: &mut Code, e: &Expression) -> Result<(), NoMemory>
    ensures { ExprFits (expr_of e.now) → OnOk result (code.new ≡ code.old ++ expr_code (expr_of e.now)) }
{
    match e {
        Expression::Literal(c) => put_literal(code, *c),
        Expression::Variable(slot) => code.push(get(*slot)),
        Expression::Unary(operator, of, a) => {
            put_operand(code, a)?;
            code.push(unary_instruction(*operator, *of))
        }
        Expression::Binary(operator, of, a, b) => {
            put_operand(code, a)?;
            put_operand(code, b)?;
            code.push(binary_instruction(*operator, *of))
        }
        _ => Ok(()),
    }
}

/// An expression, what reads it, and its conversion.
#[cycle(expressions)]
#[tactic(auto, unfolding(crate::specs::Code::expr_code, crate::specs::Code::operand_code, crate::specs::Literals::ExprFits, crate::specs::Literals::OperandFits))]
pub fn put_operand(code: &mut Code, a: &Operand) -> Result<(), NoMemory>
    ensures { OperandFits (operand_of a.now) → OnOk result (code.new ≡ code.old ++ operand_code (operand_of a.now)) }
{
    put_expression(code, &a.of)?;
    put_read(code, a.read)?;
    put_conversion(code, a.to)
}

/// The truth of an operand, which is zero for false.
pub fn put_truth(code: &mut Code, a: &Operand) -> Result<(), NoMemory>
    ensures { OperandFits (operand_of a.now) → OnOk result (code.new ≡ code.old ++ truth_code (operand_of a.now)) }
{
    put_operand(code, a)?;
    code.push(convert(IntegerType::Bool))
}

/// A number that is not negative. `nullptr` has no code.
#[tactic(auto, unfolding(crate::specs::Code::expr_code, crate::specs::Code::operand_code, crate::specs::Literals::ExprFits, crate::specs::Literals::OperandFits))]
fn put_literal(code: &mut Code, c: Constant) -> Result<(), NoMemory>
    ensures { ExprFits (literal (constant c)) → OnOk result (code.new ≡ code.old ++ expr_code (literal (constant c))) }
{
    match c {
        Constant::Number(n) if n >= 0 => put_number(code, n as u128),
        _ => Ok(()),
    }
}

/// A number that an instruction holds. Another one has no code.
fn put_number(code: &mut Code, n: u128) -> Result<(), NoMemory>
    ensures { n < 2 ^ 32 → OnOk result (code.new ≡ code.old ++ push n ∷ []) }
{
    match u32::try_from(n) {
        Ok(n) => code.push(push(n)),
        Err(_) => Ok(()),
    }
}

/// An operand that is read as an object of a type.
fn put_read(code: &mut Code, read: Option<ValueType>) -> Result<(), NoMemory>
    ensures { OnOk result (code.new ≡ code.old ++ read_code (object_type_or_none read)) }
{
    match read {
        Some(of) if of.pointers == 0 => put_base_read(code, of.base),
        _ => Ok(()),
    }
}

fn put_base_read(code: &mut Code, base: Base) -> Result<(), NoMemory>
    ensures { OnOk result (code.new ≡ code.old ++ read_code (Some (base_type base))) }
{
    match base {
        Base::Scalar(scalar) => put_load(code, integer_of(scalar)),
        _ => Ok(()),
    }
}

/// A number of the greatest type may stand in an object less 2^64, and is converted.
fn put_load(code: &mut Code, of: Option<IntegerType>) -> Result<(), NoMemory>
    ensures { OnOk result (code.new ≡ code.old ++ load_code of) }
{
    match of {
        None => Ok(()),
        Some(IntegerType::UnsignedLongLong) => {
            code.push(load())?;
            code.push(convert(IntegerType::UnsignedLongLong))
        }
        Some(_) => code.push(load()),
    }
}

fn put_conversion(code: &mut Code, to: Option<IntegerType>) -> Result<(), NoMemory>
    ensures { OnOk result (code.new ≡ code.old ++ conversion_code to) }
{
    match to {
        None => Ok(()),
        Some(to) => code.push(convert(to)),
    }
}
