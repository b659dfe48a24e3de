ghost use Rattle.std.specs.Prelude.{◌≡◌, IfOk, Option, Some, option_map};
ghost use Rattle.cx_core.specs.View.{stmt_of};
ghost use Rattle.cx_core.specs.Tree.{empty};
ghost use Rattle.cx_front.specs.Core.{typed_of};
ghost use Rattle.cx_front.specs.Front.{both, if_of, while_of};

use crate::operand::as_condition;
use crate::typed::TypedExpression;
use cx_core::Statement;
use cx_outside::NoMemory;
use std::alloc::Global;

/// `if` without `else`, where its condition is there [stmt.if].
pub fn if_alone(
    alloc: Global,
    condition: Option<TypedExpression>,
    body: Statement,
) -> Result<Option<Statement>, NoMemory>
    ensures { IfOk result (λ told. option_map stmt_of told ≡ if_of (option_map typed_of condition) (Some (stmt_of body)) (Some empty)) }
{
    if_else(alloc, condition, body, Statement::Empty)
}

/// `if` with `else`, where its condition is there [stmt.if].
pub fn if_else(
    alloc: Global,
    condition: Option<TypedExpression>,
    body: Statement,
    other: Statement,
) -> Result<Option<Statement>, NoMemory>
    ensures { IfOk result (λ told. option_map stmt_of told ≡ if_of (option_map typed_of condition) (Some (stmt_of body)) (Some (stmt_of other))) }
{
    match condition {
        Some(condition) => {
            let body = Box::new(alloc, body)?;
            let other = Box::new(alloc, other)?;
            Ok(Some(Statement::If(as_condition(condition), body, other)))
        }
        None => Ok(None),
    }
}

/// `while`, where its condition is there [stmt.while].
pub fn while_loop(
    alloc: Global,
    condition: Option<TypedExpression>,
    body: Statement,
) -> Result<Option<Statement>, NoMemory>
    ensures { IfOk result (λ told. option_map stmt_of told ≡ both while_of (option_map typed_of condition) (Some (stmt_of body))) }
{
    match condition {
        Some(condition) => {
            let body = Box::new(alloc, body)?;
            Ok(Some(Statement::While(as_condition(condition), body)))
        }
        None => Ok(None),
    }
}
