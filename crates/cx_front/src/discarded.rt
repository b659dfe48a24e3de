ghost use Rattle.std.specs.Prelude.{◌≡◌, ℕ, IfOk, option_map};
ghost use Rattle.std.specs.List.{All};
ghost use Rattle.cx_includes.specs.Assembled.{IsWithin};
ghost use Rattle.cx_syntax.specs.View.{args_of, expr_of, several_of};
ghost use Rattle.cx_syntax.specs.Tree.{args};
ghost use Rattle.cx_core.specs.View.{stmt_of};
ghost use Rattle.cx_front.specs.Core.{typed_of};
ghost use Rattle.cx_front.specs.Front.{argument_in, assigned, both, discarded_in, expr_in, is_after, is_assign, is_putchar, only_if, target_in, written};

use crate::expression::expr_in;
use crate::names::{Slot, Variable, found};
use crate::operand::{as_type, unread};
use crate::token::word_at;
use crate::typed::TypedExpression;
use cx_core::{Expression, IntegerType, Statement};
use cx_includes::Assembled;
use cx_outside::NoMemory;
use cx_syntax::tree::{Args, Expr, Several};
use cx_syntax::{Mark, Punct};
use std::alloc::Global;

/// The statement of an expression whose value is discarded [stmt.expr], if it is an assignment to a variable or a call of
/// `putchar`.
pub fn discarded_in(
    alloc: Global,
    list: &Assembled,
    names: &[Variable],
    tree: &Expr,
) -> Result<Option<Statement>, NoMemory>
    requires { All (IsWithin list.now.files) list.now.placed }
    ensures { IfOk result (λ told. option_map stmt_of told ≡ discarded_in list.now names.now (expr_of tree.now)) }
{
    match tree {
        Expr::Assign {
            left,
            punct,
            right,
            ..
        } => assignment_in(alloc, list, names, left, *punct, right),
        Expr::Call {
            callee,
            arguments,
            ..
        } => call_in(alloc, list, names, callee, arguments),
        Expr::Leaf { .. } => Ok(None),
        Expr::Paren { .. } => Ok(None),
        Expr::Temporary { .. } => Ok(None),
        Expr::WordCast { .. } => Ok(None),
        Expr::StaticCast { .. } => Ok(None),
        Expr::Standard { .. } => Ok(None),
        Expr::Library { .. } => Ok(None),
        Expr::Member { .. } => Ok(None),
        Expr::Stepped { .. } => Ok(None),
        Expr::Unary { .. } => Ok(None),
        Expr::Binary { .. } => Ok(None),
        Expr::Choose { .. } => Ok(None),
    }
}

/// An expression with an assignment operator, if that is `=` and both sides are built.
fn assignment_in(
    alloc: Global,
    list: &Assembled,
    names: &[Variable],
    left: &Expr,
    punct: Punct,
    right: &Expr,
) -> Result<Option<Statement>, NoMemory>
    requires { All (IsWithin list.now.files) list.now.placed }
    ensures { IfOk result (λ told. option_map stmt_of told ≡ only_if (is_assign punct) (both assigned (target_in names.now (expr_of left.now)) (expr_in list.now names.now (expr_of right.now)))) }
{
    if is_assign(punct) {
        assigned_in(alloc, list, names, left, right)
    } else {
        Ok(None)
    }
}

/// A call, if it is of `putchar` and its argument is built.
fn call_in(
    alloc: Global,
    list: &Assembled,
    names: &[Variable],
    callee: &Expr,
    arguments: &Args,
) -> Result<Option<Statement>, NoMemory>
    requires { All (IsWithin list.now.files) list.now.placed }
    ensures { IfOk result (λ told. option_map stmt_of told ≡ only_if (is_putchar list.now (expr_of callee.now)) (option_map written (argument_in list.now names.now (args_of arguments.now)))) }
{
    if is_putchar(list, callee) {
        written_in(alloc, list, names, arguments)
    } else {
        Ok(None)
    }
}

/// Whether a punctuator is `=`.
fn is_assign(punct: Punct) -> bool
    ensures { result ≡ is_assign punct }
{
    match punct {
        Punct::Assign => true,
        _ => false,
    }
}

/// An assignment, if its left side is a variable and its right side is built.
fn assigned_in(
    alloc: Global,
    list: &Assembled,
    names: &[Variable],
    left: &Expr,
    right: &Expr,
) -> Result<Option<Statement>, NoMemory>
    requires { All (IsWithin list.now.files) list.now.placed }
    ensures { IfOk result (λ told. option_map stmt_of told ≡ both assigned (target_in names.now (expr_of left.now)) (expr_in list.now names.now (expr_of right.now))) }
{
    let target = target_in(names, left)?;
    let value = expr_in(alloc, list, names, right)?;
    assigned(alloc, target, value)
}

/// A call of `putchar`, if its argument is built.
fn written_in(
    alloc: Global,
    list: &Assembled,
    names: &[Variable],
    arguments: &Args,
) -> Result<Option<Statement>, NoMemory>
    requires { All (IsWithin list.now.files) list.now.placed }
    ensures { IfOk result (λ told. option_map stmt_of told ≡ option_map written (argument_in list.now names.now (args_of arguments.now))) }
{
    let value = argument_in(alloc, list, names, arguments)?;
    written(alloc, value)
}

/// The variable that an expression names, if it is a name of one.
fn target_in(names: &[Variable], tree: &Expr) -> Result<Option<Slot>, NoMemory>
    ensures { IfOk result (λ told. told ≡ target_in names.now (expr_of tree.now)) }
{
    match tree {
        Expr::Leaf { mark, .. } => match *mark {
            Mark::Name(name) => found(name, names),
            Mark::Class(_) => Ok(None),
            Mark::Std => Ok(None),
            Mark::Word(_) => Ok(None),
            Mark::Number => Ok(None),
            Mark::Char => Ok(None),
            Mark::Text => Ok(None),
            Mark::Punct(_) => Ok(None),
        },
        Expr::Paren { .. } => Ok(None),
        Expr::Temporary { .. } => Ok(None),
        Expr::WordCast { .. } => Ok(None),
        Expr::StaticCast { .. } => Ok(None),
        Expr::Standard { .. } => Ok(None),
        Expr::Library { .. } => Ok(None),
        Expr::Member { .. } => Ok(None),
        Expr::Call { .. } => Ok(None),
        Expr::Stepped { .. } => Ok(None),
        Expr::Unary { .. } => Ok(None),
        Expr::Binary { .. } => Ok(None),
        Expr::Choose { .. } => Ok(None),
        Expr::Assign { .. } => Ok(None),
    }
}

/// An assignment to a variable, where both sides are there [expr.assign].
fn assigned(
    alloc: Global,
    target: Option<Slot>,
    value: Option<TypedExpression>,
) -> Result<Option<Statement>, NoMemory>
    ensures { IfOk result (λ told. option_map stmt_of told ≡ both assigned target (option_map typed_of value)) }
{
    match target {
        Some(target) => match value {
            Some(value) => {
                let place = Box::new(alloc, Expression::Variable(target.slot))?;
                let value = Box::new(alloc, as_type(target.of, value))?;
                Ok(Some(Statement::Expression(unread(Expression::Assign(place, value)))))
            }
            None => Ok(None),
        },
        None => Ok(None),
    }
}

/// Whether an expression is the name `putchar` behind `#include <cstdio>`. No variable has that name.
fn is_putchar(list: &Assembled, tree: &Expr) -> bool
    requires { All (IsWithin list.now.files) list.now.placed }
    ensures { result ≡ is_putchar list.now (expr_of tree.now) }
{
    match tree {
        Expr::Leaf { at, mark } => match *mark {
            Mark::Name(_) => {
                is_after(list.cstdio, *at) && word_at(list, *at) == b"putchar".as_slice()
            }
            Mark::Class(_) => false,
            Mark::Std => false,
            Mark::Word(_) => false,
            Mark::Number => false,
            Mark::Char => false,
            Mark::Text => false,
            Mark::Punct(_) => false,
        },
        Expr::Paren { .. } => false,
        Expr::Temporary { .. } => false,
        Expr::WordCast { .. } => false,
        Expr::StaticCast { .. } => false,
        Expr::Standard { .. } => false,
        Expr::Library { .. } => false,
        Expr::Member { .. } => false,
        Expr::Call { .. } => false,
        Expr::Stepped { .. } => false,
        Expr::Unary { .. } => false,
        Expr::Binary { .. } => false,
        Expr::Choose { .. } => false,
        Expr::Assign { .. } => false,
    }
}

/// Whether a place is behind the header, by how many tokens stand before that.
fn is_after(header: Option<u32>, at: u32) -> bool
    ensures { result ≡ is_after header at }
{
    match header {
        Some(first) => first <= at,
        None => false,
    }
}

/// The argument of a call, if there is one alone and it is built.
fn argument_in(
    alloc: Global,
    list: &Assembled,
    names: &[Variable],
    arguments: &Args,
) -> Result<Option<TypedExpression>, NoMemory>
    requires { All (IsWithin list.now.files) list.now.placed }
    ensures { IfOk result (λ told. option_map typed_of told ≡ argument_in list.now names.now (args_of arguments.now)) }
{
    match arguments {
        Args::Empty { .. } => Ok(None),
        Args::List { list: several, .. } => only_of(alloc, list, names, several),
    }
}

/// The expression of a row of arguments, if there is one alone and it is built.
fn only_of(
    alloc: Global,
    list: &Assembled,
    names: &[Variable],
    several: &Several,
) -> Result<Option<TypedExpression>, NoMemory>
    requires { All (IsWithin list.now.files) list.now.placed }
    ensures { IfOk result (λ told. (i j : ℕ) → option_map typed_of told ≡ argument_in list.now names.now (args i (several_of several.now) j)) }
{
    match several.more.as_slice() {
        [] => expr_in(alloc, list, names, &several.first),
        [_, ..] => Ok(None),
    }
}

/// A call of `putchar`, where its argument is there.
fn written(alloc: Global, value: Option<TypedExpression>) -> Result<Option<Statement>, NoMemory>
    ensures { IfOk result (λ told. option_map stmt_of told ≡ option_map written (option_map typed_of value)) }
{
    match value {
        Some(value) => {
            let value = Box::new(alloc, as_type(IntegerType::Int, value))?;
            Ok(Some(Statement::Expression(unread(Expression::Putchar(value)))))
        }
        None => Ok(None),
    }
}
