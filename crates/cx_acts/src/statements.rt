//! Statements, after [stmt].

ghost use Rattle.std.specs.Prelude.{◌≡◌, OnOk, Some};
ghost use Rattle.cx_table.specs.declared.symbol.Act.TheVariants.{DoEmpty, DoEvaluate, DoDeclare, DoBlock, DoCompound, DoBranch, DoBranches, DoWhile, DoFor, DoReturn, DoThrow, DoBreak, DoContinue, DoAssert, DoNoStmts, DoMoreStmts};
ghost use Rattle.cx_values.specs.Needs.{needs};
ghost use Rattle.cx_values.specs.Sorts.{Tops};
ghost use Rattle.cx_values.specs.Values.{reduce};
ghost use Rattle.cx_values.specs.View.{values_of};

use cx_syntax::tree::{Block, Stmt};
use cx_values::Value;
use cx_values::pop::{
    pop_block, pop_expression, pop_local, pop_mark, pop_maybe, pop_statement, pop_statements, push,
};
use std::alloc::{AllocError, Global};

/// Makes an empty statement of the values on top. It fails for want of memory alone; this project's own.
pub fn make_empty(stack: &mut Vec<Value>) -> Result<(), AllocError>
    requires { Tops (needs DoEmpty) (values_of stack.old.items) }
    ensures { OnOk result (reduce DoEmpty (values_of stack.old.items) ≡ Some (values_of stack.new.items)) }
{
    let at = pop_mark(stack).at;
    push(stack, Value::Statement(Stmt::Empty { at }))?;
    Ok(())
}

/// Makes an expression statement of the values on top. It fails for want of memory alone; this project's own.
pub fn make_evaluate(stack: &mut Vec<Value>) -> Result<(), AllocError>
    requires { Tops (needs DoEvaluate) (values_of stack.old.items) }
    ensures { OnOk result (reduce DoEvaluate (values_of stack.old.items) ≡ Some (values_of stack.new.items)) }
{
    let semicolon = pop_mark(stack).at;
    let value = pop_expression(stack);
    push(stack, Value::Statement(Stmt::Evaluate { value, semicolon }))?;
    Ok(())
}

/// Makes a declaration of the values on top. It fails for want of memory alone; this project's own.
pub fn make_declare(stack: &mut Vec<Value>) -> Result<(), AllocError>
    requires { Tops (needs DoDeclare) (values_of stack.old.items) }
    ensures { OnOk result (reduce DoDeclare (values_of stack.old.items) ≡ Some (values_of stack.new.items)) }
{
    let semicolon = pop_mark(stack).at;
    let local = pop_local(stack);
    push(stack, Value::Statement(Stmt::Declare { local, semicolon }))?;
    Ok(())
}

/// Makes statements in braces of the values on top. It fails for want of memory alone; this project's own.
pub fn make_block(stack: &mut Vec<Value>) -> Result<(), AllocError>
    requires { Tops (needs DoBlock) (values_of stack.old.items) }
    ensures { OnOk result (reduce DoBlock (values_of stack.old.items) ≡ Some (values_of stack.new.items)) }
{
    let close = pop_mark(stack).at;
    let statements = pop_statements(stack);
    let at = pop_mark(stack).at;
    push(
        stack,
        Value::Block(Block {
            at,
            statements,
            close,
        }),
    )?;
    Ok(())
}

/// Makes a block as a statement of the values on top. It fails for want of memory alone; this project's own.
pub fn make_compound(stack: &mut Vec<Value>) -> Result<(), AllocError>
    requires { Tops (needs DoCompound) (values_of stack.old.items) }
    ensures { OnOk result (reduce DoCompound (values_of stack.old.items) ≡ Some (values_of stack.new.items)) }
{
    let body = pop_block(stack);
    push(stack, Value::Statement(Stmt::Compound(body)))?;
    Ok(())
}

/// Makes an `if` without `else` of the values on top. It fails for want of memory alone; this project's own.
pub fn make_branch(alloc: Global, stack: &mut Vec<Value>) -> Result<(), AllocError>
    requires { Tops (needs DoBranch) (values_of stack.old.items) }
    ensures { OnOk result (reduce DoBranch (values_of stack.old.items) ≡ Some (values_of stack.new.items)) }
{
    let body = Box::new(alloc, pop_statement(stack))?;
    let close = pop_mark(stack).at;
    let condition = pop_expression(stack);
    let open_at = pop_mark(stack).at;
    let at = pop_mark(stack).at;
    push(
        stack,
        Value::Statement(Stmt::Branch {
            at,
            open_at,
            condition,
            close,
            body,
        }),
    )?;
    Ok(())
}

/// Makes an `if` with `else` of the values on top. It fails for want of memory alone; this project's own.
pub fn make_branches(alloc: Global, stack: &mut Vec<Value>) -> Result<(), AllocError>
    requires { Tops (needs DoBranches) (values_of stack.old.items) }
    ensures { OnOk result (reduce DoBranches (values_of stack.old.items) ≡ Some (values_of stack.new.items)) }
{
    let other_body = Box::new(alloc, pop_statement(stack))?;
    let other = pop_mark(stack).at;
    let body = Box::new(alloc, pop_statement(stack))?;
    let close = pop_mark(stack).at;
    let condition = pop_expression(stack);
    let open_at = pop_mark(stack).at;
    let at = pop_mark(stack).at;
    push(
        stack,
        Value::Statement(Stmt::Branches {
            at,
            open_at,
            condition,
            close,
            body,
            other,
            other_body,
        }),
    )?;
    Ok(())
}

/// Makes a `while` of the values on top. It fails for want of memory alone; this project's own.
pub fn make_while(alloc: Global, stack: &mut Vec<Value>) -> Result<(), AllocError>
    requires { Tops (needs DoWhile) (values_of stack.old.items) }
    ensures { OnOk result (reduce DoWhile (values_of stack.old.items) ≡ Some (values_of stack.new.items)) }
{
    let body = Box::new(alloc, pop_statement(stack))?;
    let close = pop_mark(stack).at;
    let condition = pop_expression(stack);
    let open_at = pop_mark(stack).at;
    let at = pop_mark(stack).at;
    push(
        stack,
        Value::Statement(Stmt::While {
            at,
            open_at,
            condition,
            close,
            body,
        }),
    )?;
    Ok(())
}

/// Makes a `for` of the values on top. It fails for want of memory alone; this project's own.
pub fn make_for(alloc: Global, stack: &mut Vec<Value>) -> Result<(), AllocError>
    requires { Tops (needs DoFor) (values_of stack.old.items) }
    ensures { OnOk result (reduce DoFor (values_of stack.old.items) ≡ Some (values_of stack.new.items)) }
{
    let body = Box::new(alloc, pop_statement(stack))?;
    let close = pop_mark(stack).at;
    let step = pop_maybe(stack);
    let semicolon = pop_mark(stack).at;
    let condition = pop_maybe(stack);
    let first = Box::new(alloc, pop_statement(stack))?;
    let open_at = pop_mark(stack).at;
    let at = pop_mark(stack).at;
    push(
        stack,
        Value::Statement(Stmt::For {
            at,
            open_at,
            first,
            condition,
            semicolon,
            step,
            close,
            body,
        }),
    )?;
    Ok(())
}

/// Makes a `return` of the values on top. It fails for want of memory alone; this project's own.
pub fn make_return(stack: &mut Vec<Value>) -> Result<(), AllocError>
    requires { Tops (needs DoReturn) (values_of stack.old.items) }
    ensures { OnOk result (reduce DoReturn (values_of stack.old.items) ≡ Some (values_of stack.new.items)) }
{
    let semicolon = pop_mark(stack).at;
    let value = pop_maybe(stack);
    let at = pop_mark(stack).at;
    push(
        stack,
        Value::Statement(Stmt::Return {
            at,
            value,
            semicolon,
        }),
    )?;
    Ok(())
}

/// Makes a `throw` of the values on top. It fails for want of memory alone; this project's own.
pub fn make_throw(stack: &mut Vec<Value>) -> Result<(), AllocError>
    requires { Tops (needs DoThrow) (values_of stack.old.items) }
    ensures { OnOk result (reduce DoThrow (values_of stack.old.items) ≡ Some (values_of stack.new.items)) }
{
    let semicolon = pop_mark(stack).at;
    let value = pop_maybe(stack);
    let at = pop_mark(stack).at;
    push(
        stack,
        Value::Statement(Stmt::Throw {
            at,
            value,
            semicolon,
        }),
    )?;
    Ok(())
}

/// Makes a `break` of the values on top. It fails for want of memory alone; this project's own.
pub fn make_break(stack: &mut Vec<Value>) -> Result<(), AllocError>
    requires { Tops (needs DoBreak) (values_of stack.old.items) }
    ensures { OnOk result (reduce DoBreak (values_of stack.old.items) ≡ Some (values_of stack.new.items)) }
{
    let semicolon = pop_mark(stack).at;
    let at = pop_mark(stack).at;
    push(stack, Value::Statement(Stmt::Break { at, semicolon }))?;
    Ok(())
}

/// Makes a `continue` of the values on top. It fails for want of memory alone; this project's own.
pub fn make_continue(stack: &mut Vec<Value>) -> Result<(), AllocError>
    requires { Tops (needs DoContinue) (values_of stack.old.items) }
    ensures { OnOk result (reduce DoContinue (values_of stack.old.items) ≡ Some (values_of stack.new.items)) }
{
    let semicolon = pop_mark(stack).at;
    let at = pop_mark(stack).at;
    push(stack, Value::Statement(Stmt::Continue { at, semicolon }))?;
    Ok(())
}

/// Makes a `contract_assert` of the values on top. It fails for want of memory alone; this project's own.
pub fn make_assert(stack: &mut Vec<Value>) -> Result<(), AllocError>
    requires { Tops (needs DoAssert) (values_of stack.old.items) }
    ensures { OnOk result (reduce DoAssert (values_of stack.old.items) ≡ Some (values_of stack.new.items)) }
{
    let semicolon = pop_mark(stack).at;
    let close = pop_mark(stack).at;
    let predicate = pop_expression(stack);
    let open_at = pop_mark(stack).at;
    let at = pop_mark(stack).at;
    push(
        stack,
        Value::Statement(Stmt::Assert {
            at,
            open_at,
            predicate,
            close,
            semicolon,
        }),
    )?;
    Ok(())
}

/// Makes no statements of the values on top. It fails for want of memory alone; this project's own.
pub fn make_no_stmts(alloc: Global, stack: &mut Vec<Value>) -> Result<(), AllocError>
    requires { Tops (needs DoNoStmts) (values_of stack.old.items) }
    ensures { OnOk result (reduce DoNoStmts (values_of stack.old.items) ≡ Some (values_of stack.new.items)) }
{
    push(stack, Value::Statements(Vec::new(alloc)))?;
    Ok(())
}

/// Makes statements with a further one of the values on top. It fails for want of memory alone; this project's own.
pub fn make_more_stmts(stack: &mut Vec<Value>) -> Result<(), AllocError>
    requires { Tops (needs DoMoreStmts) (values_of stack.old.items) }
    ensures { OnOk result (reduce DoMoreStmts (values_of stack.old.items) ≡ Some (values_of stack.new.items)) }
{
    let statement = pop_statement(stack);
    let mut statements = pop_statements(stack);
    statements.push(statement)?;
    push(stack, Value::Statements(statements))?;
    Ok(())
}
