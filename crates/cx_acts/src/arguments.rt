//! Arguments, after [expr.call].

ghost use Rattle.std.specs.Prelude.{◌≡◌, OnOk, Some};
ghost use Rattle.cx_table.specs.declared.symbol.Act.TheVariants.{DoNoArgs, DoArgs, DoOne, DoAlso};
ghost use Rattle.cx_values.specs.Needs.{needs};
ghost use Rattle.cx_values.specs.Sorts.{Tops};
ghost use Rattle.cx_values.specs.Values.{reduce};
ghost use Rattle.cx_values.specs.View.{values_of};

use cx_syntax::tree::{Another, Args, Several};
use cx_values::Value;
use cx_values::pop::{pop_expression, pop_list, pop_mark, push};
use std::alloc::{AllocError, Global};

/// Makes empty arguments of the values on top. It fails for want of memory alone; this project's own.
pub fn make_no_args(stack: &mut Vec<Value>) -> Result<(), AllocError>
    requires { Tops (needs DoNoArgs) (values_of stack.old.items) }
    ensures { OnOk result (reduce DoNoArgs (values_of stack.old.items) ≡ Some (values_of stack.new.items)) }
{
    let close = pop_mark(stack).at;
    let at = pop_mark(stack).at;
    push(stack, Value::Arguments(Args::Empty { at, close }))?;
    Ok(())
}

/// Makes arguments of the values on top. It fails for want of memory alone; this project's own.
pub fn make_args(stack: &mut Vec<Value>) -> Result<(), AllocError>
    requires { Tops (needs DoArgs) (values_of stack.old.items) }
    ensures { OnOk result (reduce DoArgs (values_of stack.old.items) ≡ Some (values_of stack.new.items)) }
{
    let close = pop_mark(stack).at;
    let list = pop_list(stack);
    let at = pop_mark(stack).at;
    push(stack, Value::Arguments(Args::List { at, list, close }))?;
    Ok(())
}

/// Makes a list of one expression of the values on top. It fails for want of memory alone; this project's own.
pub fn make_one(alloc: Global, stack: &mut Vec<Value>) -> Result<(), AllocError>
    requires { Tops (needs DoOne) (values_of stack.old.items) }
    ensures { OnOk result (reduce DoOne (values_of stack.old.items) ≡ Some (values_of stack.new.items)) }
{
    let first = Box::new(alloc, pop_expression(stack))?;
    push(
        stack,
        Value::List(Several {
            first,
            more: Vec::new(alloc),
        }),
    )?;
    Ok(())
}

/// Makes a list with a further expression of the values on top. It fails for want of memory alone; this project's own.
pub fn make_also(stack: &mut Vec<Value>) -> Result<(), AllocError>
    requires { Tops (needs DoAlso) (values_of stack.old.items) }
    ensures { OnOk result (reduce DoAlso (values_of stack.old.items) ≡ Some (values_of stack.new.items)) }
{
    let value = pop_expression(stack);
    let comma = pop_mark(stack).at;
    let mut list = pop_list(stack);
    list.more.push(Another { comma, value })?;
    push(stack, Value::List(list))?;
    Ok(())
}
