//! Copies of the trees that units have so far: a unit lends its trees, and a program owns its own.
use cx_core::{Expression, Initializer, Operand, Statement};
use cx_outside::NoMemory;
use std::alloc::{AllocFailed, Global};

/// Why there is no copy: a form that no unit has so far, or want of memory.
#[derive(Clone, Copy, Debug)]
pub enum NoCopy {
    Form,
    OutOfMemory,
}

impl From<NoMemory> for NoCopy {
    fn from(_: NoMemory) -> Self {
        NoCopy::OutOfMemory
    }
}

impl<T: Drop> From<AllocFailed<T>> for NoCopy {
    fn from(_: AllocFailed<T>) -> Self {
        NoCopy::OutOfMemory
    }
}

/// Statements.
#[cycle(statements)]
pub fn statements(alloc: Global, list: &[Statement]) -> Result<Vec<Statement>, NoCopy> {
    let mut copies = Vec::new(alloc);
    for s in list {
        let copy = statement(alloc, s)?;
        copies.push(copy)?;
    }
    Ok(copies)
}

#[cycle(statements)]
fn statement(alloc: Global, s: &Statement) -> Result<Statement, NoCopy> {
    match s {
        Statement::Empty => Ok(Statement::Empty),
        Statement::Expression(a) => Ok(Statement::Expression(operand(alloc, a)?)),
        Statement::Variable(slot, of, Initializer::Value(a)) => {
            let value = Initializer::Value(operand(alloc, a)?);
            Ok(Statement::Variable(*slot, *of, value))
        }
        Statement::Block(b) => Ok(Statement::Block(statements(alloc, b)?)),
        Statement::If(c, a, b) => {
            let c = operand(alloc, c)?;
            let a = boxed_statement(alloc, a)?;
            let b = boxed_statement(alloc, b)?;
            Ok(Statement::If(c, a, b))
        }
        Statement::While(c, body) => {
            let c = operand(alloc, c)?;
            let body = boxed_statement(alloc, body)?;
            Ok(Statement::While(c, body))
        }
        Statement::ReturnValue(a) => Ok(Statement::ReturnValue(operand(alloc, a)?)),
        Statement::ContractAssert(index, predicate) => {
            let predicate = operand(alloc, predicate)?;
            Ok(Statement::ContractAssert(*index, predicate))
        }
        _ => Err(NoCopy::Form),
    }
}

#[cycle(statements)]
fn boxed_statement(alloc: Global, s: &Statement) -> Result<Box<Statement>, NoCopy> {
    let copy = statement(alloc, s)?;
    let copy = Box::new(alloc, copy)?;
    Ok(copy)
}

#[cycle(expressions)]
fn expression(alloc: Global, e: &Expression) -> Result<Expression, NoCopy> {
    match e {
        Expression::Literal(c) => Ok(Expression::Literal(*c)),
        Expression::Variable(slot) => Ok(Expression::Variable(*slot)),
        Expression::Unary(operator, of, a) => {
            let a = boxed_operand(alloc, a)?;
            Ok(Expression::Unary(*operator, *of, a))
        }
        Expression::Binary(operator, of, a, b) => {
            let a = boxed_operand(alloc, a)?;
            let b = boxed_operand(alloc, b)?;
            Ok(Expression::Binary(*operator, *of, a, b))
        }
        Expression::Assign(place, a) => {
            let place = boxed_expression(alloc, place)?;
            let a = boxed_operand(alloc, a)?;
            Ok(Expression::Assign(place, a))
        }
        Expression::Putchar(a) => Ok(Expression::Putchar(boxed_operand(alloc, a)?)),
        _ => Err(NoCopy::Form),
    }
}

#[cycle(expressions)]
fn operand(alloc: Global, a: &Operand) -> Result<Operand, NoCopy> {
    let of = expression(alloc, &a.of)?;
    Ok(Operand {
        read: a.read,
        to: a.to,
        of,
    })
}

#[cycle(expressions)]
fn boxed_operand(alloc: Global, a: &Operand) -> Result<Box<Operand>, NoCopy> {
    let copy = operand(alloc, a)?;
    let copy = Box::new(alloc, copy)?;
    Ok(copy)
}

#[cycle(expressions)]
fn boxed_expression(alloc: Global, e: &Expression) -> Result<Box<Expression>, NoCopy> {
    let copy = expression(alloc, e)?;
    let copy = Box::new(alloc, copy)?;
    Ok(copy)
}
