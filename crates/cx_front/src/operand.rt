ghost use Rattle.std.specs.Prelude.{◌≡◌, None};
ghost use Rattle.cx_core.specs.View.{expr_of, operand_of};
ghost use Rattle.cx_core.specs.Tree.{operand};
ghost use Rattle.cx_front.specs.Core.{typed_of};
ghost use Rattle.cx_front.specs.Front.{as_condition, as_type, conversion};

use crate::typed::TypedExpression;
use cx_core::{Expression, IntegerType, Operand};

/// An expression where a value of a type is wanted: it is read where it is an lvalue, and converted where it is of
/// another type [conv].
pub fn as_type(to: IntegerType, e: TypedExpression) -> Operand
    ensures { operand_of result ≡ as_type to (typed_of e) }
{
    Operand {
        read: e.read,
        to: conversion(e.gives, to),
        of: e.of,
    }
}

/// An expression whose truth is asked. Its conversion to `bool` is that of the statement [conv.bool].
pub fn as_condition(e: TypedExpression) -> Operand
    ensures { operand_of result ≡ as_condition (typed_of e) }
{
    Operand {
        read: e.read,
        to: None,
        of: e.of,
    }
}

/// An expression that is neither read nor converted.
pub fn unread(e: Expression) -> Operand
    ensures { operand_of result ≡ operand None None (expr_of e) }
{
    Operand {
        read: None,
        to: None,
        of: e,
    }
}

/// To what type a value of a type is converted, where it isn't of that type already.
fn conversion(from: IntegerType, to: IntegerType) -> Option<IntegerType>
    ensures { result ≡ conversion from to }
{
    match (from, to) {
        (IntegerType::Int, IntegerType::Int) => None,
        (IntegerType::Bool, IntegerType::Bool) => None,
        (IntegerType::Char, IntegerType::Char) => None,
        _ => Some(to),
    }
}
