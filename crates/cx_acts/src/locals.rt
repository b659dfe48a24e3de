//! Local variables and expressions that may be absent, after [dcl.init] and [stmt.expr].

ghost use Rattle.std.specs.Prelude.{◌≡◌, OnOk, Some};
ghost use Rattle.cx_table.specs.declared.symbol.Act.TheVariants.{DoBare, DoEquals, DoParens, DoLocal, DoAbsent, DoPresent};
ghost use Rattle.cx_values.specs.Needs.{needs};
ghost use Rattle.cx_values.specs.Sorts.{Tops};
ghost use Rattle.cx_values.specs.Values.{reduce};
ghost use Rattle.cx_values.specs.View.{values_of};

use cx_syntax::tree::{Init, Local};
use cx_values::Value;
use cx_values::pop::{pop_expression, pop_init, pop_list, pop_mark, pop_name, pop_type, push};
use std::alloc::AllocError;

/// Makes no initialiser of the values on top. It fails for want of memory alone; this project's own.
pub fn make_bare(stack: &mut Vec<Value>) -> Result<(), AllocError>
    requires { Tops (needs DoBare) (values_of stack.old.items) }
    ensures { OnOk result (reduce DoBare (values_of stack.old.items) ≡ Some (values_of stack.new.items)) }
{
    push(stack, Value::Init(Init::Nothing))?;
    Ok(())
}

/// Makes an initialiser with `=` of the values on top. It fails for want of memory alone; this project's own.
pub fn make_equals(stack: &mut Vec<Value>) -> Result<(), AllocError>
    requires { Tops (needs DoEquals) (values_of stack.old.items) }
    ensures { OnOk result (reduce DoEquals (values_of stack.old.items) ≡ Some (values_of stack.new.items)) }
{
    let value = pop_expression(stack);
    let at = pop_mark(stack).at;
    push(stack, Value::Init(Init::Equals { at, value }))?;
    Ok(())
}

/// Makes an initialiser in parentheses of the values on top. It fails for want of memory alone; this project's own.
pub fn make_parens(stack: &mut Vec<Value>) -> Result<(), AllocError>
    requires { Tops (needs DoParens) (values_of stack.old.items) }
    ensures { OnOk result (reduce DoParens (values_of stack.old.items) ≡ Some (values_of stack.new.items)) }
{
    let close = pop_mark(stack).at;
    let list = pop_list(stack);
    let at = pop_mark(stack).at;
    push(stack, Value::Init(Init::Parens { at, list, close }))?;
    Ok(())
}

/// Makes a local variable of the values on top. It fails for want of memory alone; this project's own.
pub fn make_local(stack: &mut Vec<Value>) -> Result<(), AllocError>
    requires { Tops (needs DoLocal) (values_of stack.old.items) }
    ensures { OnOk result (reduce DoLocal (values_of stack.old.items) ≡ Some (values_of stack.new.items)) }
{
    let init = pop_init(stack);
    let name = pop_name(stack);
    let of = pop_type(stack);
    push(
        stack,
        Value::Local(Local {
            of,
            name: name.name,
            name_at: name.at,
            init,
        }),
    )?;
    Ok(())
}

/// Makes an expression that is absent of the values on top. It fails for want of memory alone; this project's own.
pub fn make_absent(stack: &mut Vec<Value>) -> Result<(), AllocError>
    requires { Tops (needs DoAbsent) (values_of stack.old.items) }
    ensures { OnOk result (reduce DoAbsent (values_of stack.old.items) ≡ Some (values_of stack.new.items)) }
{
    push(stack, Value::Maybe(None))?;
    Ok(())
}

/// Makes an expression that may be absent, and is there of the values on top. It fails for want of memory alone; this project's own.
pub fn make_present(stack: &mut Vec<Value>) -> Result<(), AllocError>
    requires { Tops (needs DoPresent) (values_of stack.old.items) }
    ensures { OnOk result (reduce DoPresent (values_of stack.old.items) ≡ Some (values_of stack.new.items)) }
{
    let value = pop_expression(stack);
    push(stack, Value::Maybe(Some(value)))?;
    Ok(())
}
