ghost use Rattle.std.specs.Prelude.{◌≡◌, IfOk, option_map};
ghost use Rattle.std.specs.List.{All};
ghost use Rattle.cx_includes.specs.Assembled.{IsWithin};
ghost use Rattle.cx_syntax.specs.View.{expr_of};
ghost use Rattle.cx_core.specs.View.{stmt_of};
ghost use Rattle.cx_front.specs.Core.{typed_of};
ghost use Rattle.cx_front.specs.Front.{return_of};
ghost use Rattle.cx_front.specs.Made.{returned_in};

use crate::expression::expr_in;
use crate::names::Variable;
use crate::operand::as_type;
use crate::typed::TypedExpression;
use cx_core::{IntegerType, Statement};
use cx_includes::Assembled;
use cx_outside::NoMemory;
use cx_syntax::tree::Expr;
use std::alloc::Global;

/// `return` with a value of `main` [stmt.return], if it has one and that is built.
pub fn returned_in(
    alloc: Global,
    list: &Assembled,
    names: &[Variable],
    value: &Option<Expr>,
) -> Result<Option<Statement>, NoMemory>
    requires { All (IsWithin list.now.files) list.now.placed }
    ensures { IfOk result (λ told. option_map stmt_of told ≡ returned_in list.now names.now (option_map expr_of value.now)) }
{
    match value {
        Some(value) => {
            let value = expr_in(alloc, list, names, value)?;
            Ok(return_of(value))
        }
        None => Ok(None),
    }
}

/// `return` of a value, where it is there.
fn return_of(value: Option<TypedExpression>) -> Option<Statement>
    ensures { option_map stmt_of result ≡ option_map return_of (option_map typed_of value) }
{
    match value {
        Some(value) => Some(Statement::ReturnValue(as_type(IntegerType::Int, value))),
        None => None,
    }
}
