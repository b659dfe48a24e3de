//! A function's parts, after [dcl.fct].

ghost use Rattle.std.specs.Prelude.{◌≡◌, OnOk, Some};
ghost use Rattle.cx_table.specs.declared.symbol.Act.TheVariants.{DoUnnamed, DoNamed, DoParam, DoOneParam, DoMoreParams, DoNoParams, DoParams, DoSuffix, DoDeclared, DoDefined};
ghost use Rattle.cx_values.specs.Needs.{needs};
ghost use Rattle.cx_values.specs.Sorts.{Tops};
ghost use Rattle.cx_values.specs.Values.{reduce};
ghost use Rattle.cx_values.specs.View.{values_of};

use cx_syntax::tree::{AnotherParam, OptionalName, Param, ParamRow, Params, Suffix, Tail};
use cx_values::Value;
use cx_values::pop::{
    pop_block, pop_flag, pop_mark, pop_name, pop_optional_name, pop_param, pop_row, pop_specs,
    pop_type, push,
};
use std::alloc::{AllocError, Global};

/// Makes no name of a parameter of the values on top. It fails for want of memory alone; this project's own.
pub fn make_unnamed(stack: &mut Vec<Value>) -> Result<(), AllocError>
    requires { Tops (needs DoUnnamed) (values_of stack.old.items) }
    ensures { OnOk result (reduce DoUnnamed (values_of stack.old.items) ≡ Some (values_of stack.new.items)) }
{
    push(stack, Value::Name(OptionalName::Unnamed))?;
    Ok(())
}

/// Makes the name of a parameter of the values on top. It fails for want of memory alone; this project's own.
pub fn make_named(stack: &mut Vec<Value>) -> Result<(), AllocError>
    requires { Tops (needs DoNamed) (values_of stack.old.items) }
    ensures { OnOk result (reduce DoNamed (values_of stack.old.items) ≡ Some (values_of stack.new.items)) }
{
    let name = pop_name(stack);
    push(
        stack,
        Value::Name(OptionalName::Named {
            name: name.name,
            at: name.at,
        }),
    )?;
    Ok(())
}

/// Makes a parameter of the values on top. It fails for want of memory alone; this project's own.
pub fn make_param(stack: &mut Vec<Value>) -> Result<(), AllocError>
    requires { Tops (needs DoParam) (values_of stack.old.items) }
    ensures { OnOk result (reduce DoParam (values_of stack.old.items) ≡ Some (values_of stack.new.items)) }
{
    let name = pop_optional_name(stack);
    let of = pop_type(stack);
    push(stack, Value::Param(Param { of, name }))?;
    Ok(())
}

/// Makes a row of one parameter of the values on top. It fails for want of memory alone; this project's own.
pub fn make_one_param(alloc: Global, stack: &mut Vec<Value>) -> Result<(), AllocError>
    requires { Tops (needs DoOneParam) (values_of stack.old.items) }
    ensures { OnOk result (reduce DoOneParam (values_of stack.old.items) ≡ Some (values_of stack.new.items)) }
{
    let first = pop_param(stack);
    push(
        stack,
        Value::ParamRow(ParamRow {
            first,
            more: Vec::new(alloc),
        }),
    )?;
    Ok(())
}

/// Makes a row with a further parameter of the values on top. It fails for want of memory alone; this project's own.
pub fn make_more_params(stack: &mut Vec<Value>) -> Result<(), AllocError>
    requires { Tops (needs DoMoreParams) (values_of stack.old.items) }
    ensures { OnOk result (reduce DoMoreParams (values_of stack.old.items) ≡ Some (values_of stack.new.items)) }
{
    let param = pop_param(stack);
    let comma = pop_mark(stack).at;
    let mut row = pop_row(stack);
    row.more.push(AnotherParam { comma, param })?;
    push(stack, Value::ParamRow(row))?;
    Ok(())
}

/// Makes empty parameters of the values on top. It fails for want of memory alone; this project's own.
pub fn make_no_params(stack: &mut Vec<Value>) -> Result<(), AllocError>
    requires { Tops (needs DoNoParams) (values_of stack.old.items) }
    ensures { OnOk result (reduce DoNoParams (values_of stack.old.items) ≡ Some (values_of stack.new.items)) }
{
    let close = pop_mark(stack).at;
    let at = pop_mark(stack).at;
    push(stack, Value::Params(Params::Empty { at, close }))?;
    Ok(())
}

/// Makes parameters in parentheses of the values on top. It fails for want of memory alone; this project's own.
pub fn make_params(stack: &mut Vec<Value>) -> Result<(), AllocError>
    requires { Tops (needs DoParams) (values_of stack.old.items) }
    ensures { OnOk result (reduce DoParams (values_of stack.old.items) ≡ Some (values_of stack.new.items)) }
{
    let close = pop_mark(stack).at;
    let row = pop_row(stack);
    let at = pop_mark(stack).at;
    push(stack, Value::Params(Params::Row { at, row, close }))?;
    Ok(())
}

/// Makes what follows parameters of the values on top. It fails for want of memory alone; this project's own.
pub fn make_suffix(stack: &mut Vec<Value>) -> Result<(), AllocError>
    requires { Tops (needs DoSuffix) (values_of stack.old.items) }
    ensures { OnOk result (reduce DoSuffix (values_of stack.old.items) ≡ Some (values_of stack.new.items)) }
{
    let specs = pop_specs(stack);
    let noexcept = pop_flag(stack);
    push(stack, Value::Suffix(Suffix { noexcept, specs }))?;
    Ok(())
}

/// Makes a `;` in the place of a body of the values on top. It fails for want of memory alone; this project's own.
pub fn make_declared(stack: &mut Vec<Value>) -> Result<(), AllocError>
    requires { Tops (needs DoDeclared) (values_of stack.old.items) }
    ensures { OnOk result (reduce DoDeclared (values_of stack.old.items) ≡ Some (values_of stack.new.items)) }
{
    let at = pop_mark(stack).at;
    push(stack, Value::Tail(Tail::Declared { at }))?;
    Ok(())
}

/// Makes a body of the values on top. It fails for want of memory alone; this project's own.
pub fn make_defined(stack: &mut Vec<Value>) -> Result<(), AllocError>
    requires { Tops (needs DoDefined) (values_of stack.old.items) }
    ensures { OnOk result (reduce DoDefined (values_of stack.old.items) ≡ Some (values_of stack.new.items)) }
{
    let body = pop_block(stack);
    push(stack, Value::Tail(Tail::Defined(body)))?;
    Ok(())
}
