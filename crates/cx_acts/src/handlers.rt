//! `try` blocks and handlers, after [except].

ghost use Rattle.std.specs.Prelude.{◌≡◌, OnOk, Some};
ghost use Rattle.cx_table.specs.declared.symbol.Act.TheVariants.{DoTry, DoHandler, DoOneHandler, DoMoreHandlers, DoAnyCatch, DoTypedCatch};
ghost use Rattle.cx_values.specs.Needs.{needs};
ghost use Rattle.cx_values.specs.Sorts.{Tops};
ghost use Rattle.cx_values.specs.Values.{reduce};
ghost use Rattle.cx_values.specs.View.{values_of};

use cx_syntax::tree::{Catching, Handler, Handlers, Stmt};
use cx_values::Value;
use cx_values::pop::{
    pop_block, pop_catching, pop_handler, pop_handlers, pop_mark, pop_param, push,
};
use std::alloc::{AllocError, Global};

/// Makes a `try` block of the values on top. It fails for want of memory alone; this project's own.
pub fn make_try(stack: &mut Vec<Value>) -> Result<(), AllocError>
    requires { Tops (needs DoTry) (values_of stack.old.items) }
    ensures { OnOk result (reduce DoTry (values_of stack.old.items) ≡ Some (values_of stack.new.items)) }
{
    let handlers = pop_handlers(stack);
    let body = pop_block(stack);
    let at = pop_mark(stack).at;
    push(stack, Value::Statement(Stmt::Try { at, body, handlers }))?;
    Ok(())
}

/// Makes a handler of the values on top. It fails for want of memory alone; this project's own.
pub fn make_handler(stack: &mut Vec<Value>) -> Result<(), AllocError>
    requires { Tops (needs DoHandler) (values_of stack.old.items) }
    ensures { OnOk result (reduce DoHandler (values_of stack.old.items) ≡ Some (values_of stack.new.items)) }
{
    let body = pop_block(stack);
    let close = pop_mark(stack).at;
    let catching = pop_catching(stack);
    let open_at = pop_mark(stack).at;
    let at = pop_mark(stack).at;
    push(
        stack,
        Value::Handler(Handler {
            at,
            open_at,
            catching,
            close,
            body,
        }),
    )?;
    Ok(())
}

/// Makes one handler of the values on top. It fails for want of memory alone; this project's own.
pub fn make_one_handler(alloc: Global, stack: &mut Vec<Value>) -> Result<(), AllocError>
    requires { Tops (needs DoOneHandler) (values_of stack.old.items) }
    ensures { OnOk result (reduce DoOneHandler (values_of stack.old.items) ≡ Some (values_of stack.new.items)) }
{
    let first = Box::new(alloc, pop_handler(stack))?;
    push(
        stack,
        Value::Handlers(Handlers {
            first,
            more: Vec::new(alloc),
        }),
    )?;
    Ok(())
}

/// Makes handlers with a further one of the values on top. It fails for want of memory alone; this project's own.
pub fn make_more_handlers(stack: &mut Vec<Value>) -> Result<(), AllocError>
    requires { Tops (needs DoMoreHandlers) (values_of stack.old.items) }
    ensures { OnOk result (reduce DoMoreHandlers (values_of stack.old.items) ≡ Some (values_of stack.new.items)) }
{
    let handler = pop_handler(stack);
    let mut handlers = pop_handlers(stack);
    handlers.more.push(handler)?;
    push(stack, Value::Handlers(handlers))?;
    Ok(())
}

/// Makes that a handler catches anything of the values on top. It fails for want of memory alone; this project's own.
pub fn make_any_catch(stack: &mut Vec<Value>) -> Result<(), AllocError>
    requires { Tops (needs DoAnyCatch) (values_of stack.old.items) }
    ensures { OnOk result (reduce DoAnyCatch (values_of stack.old.items) ≡ Some (values_of stack.new.items)) }
{
    let at = pop_mark(stack).at;
    push(stack, Value::Catching(Catching::Any { at }))?;
    Ok(())
}

/// Makes that a handler catches a type of the values on top. It fails for want of memory alone; this project's own.
pub fn make_typed_catch(stack: &mut Vec<Value>) -> Result<(), AllocError>
    requires { Tops (needs DoTypedCatch) (values_of stack.old.items) }
    ensures { OnOk result (reduce DoTypedCatch (values_of stack.old.items) ≡ Some (values_of stack.new.items)) }
{
    let param = pop_param(stack);
    push(stack, Value::Catching(Catching::Typed(param)))?;
    Ok(())
}
