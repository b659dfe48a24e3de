//! Function contract specifiers, after [dcl.contract.func].

ghost use Rattle.std.specs.Prelude.{◌≡◌, OnOk, Some};
ghost use Rattle.cx_table.specs.declared.symbol.Act.TheVariants.{DoNoSpecs, DoMoreSpecs, DoPre, DoPost, DoPostNamed};
ghost use Rattle.cx_values.specs.Needs.{needs};
ghost use Rattle.cx_values.specs.Sorts.{Tops};
ghost use Rattle.cx_values.specs.Values.{reduce};
ghost use Rattle.cx_values.specs.View.{values_of};

use cx_syntax::tree::Spec;
use cx_values::Value;
use cx_values::pop::{pop_expression, pop_mark, pop_name, pop_spec, pop_specs, push};
use std::alloc::{AllocError, Global};

/// Makes no specifiers of the values on top. It fails for want of memory alone; this project's own.
pub fn make_no_specs(alloc: Global, stack: &mut Vec<Value>) -> Result<(), AllocError>
    requires { Tops (needs DoNoSpecs) (values_of stack.old.items) }
    ensures { OnOk result (reduce DoNoSpecs (values_of stack.old.items) ≡ Some (values_of stack.new.items)) }
{
    push(stack, Value::Specs(Vec::new(alloc)))?;
    Ok(())
}

/// Makes specifiers with a further one of the values on top. It fails for want of memory alone; this project's own.
pub fn make_more_specs(stack: &mut Vec<Value>) -> Result<(), AllocError>
    requires { Tops (needs DoMoreSpecs) (values_of stack.old.items) }
    ensures { OnOk result (reduce DoMoreSpecs (values_of stack.old.items) ≡ Some (values_of stack.new.items)) }
{
    let spec = pop_spec(stack);
    let mut specs = pop_specs(stack);
    specs.push(spec)?;
    push(stack, Value::Specs(specs))?;
    Ok(())
}

/// Makes a precondition of the values on top. It fails for want of memory alone; this project's own.
pub fn make_pre(stack: &mut Vec<Value>) -> Result<(), AllocError>
    requires { Tops (needs DoPre) (values_of stack.old.items) }
    ensures { OnOk result (reduce DoPre (values_of stack.old.items) ≡ Some (values_of stack.new.items)) }
{
    let close = pop_mark(stack).at;
    let predicate = pop_expression(stack);
    let open_at = pop_mark(stack).at;
    let word = pop_mark(stack);
    push(
        stack,
        Value::Spec(Spec::Before {
            mark: word.mark,
            at: word.at,
            open_at,
            predicate,
            close,
        }),
    )?;
    Ok(())
}

/// Makes a postcondition without a result name of the values on top. It fails for want of memory alone; this project's own.
pub fn make_post(stack: &mut Vec<Value>) -> Result<(), AllocError>
    requires { Tops (needs DoPost) (values_of stack.old.items) }
    ensures { OnOk result (reduce DoPost (values_of stack.old.items) ≡ Some (values_of stack.new.items)) }
{
    let close = pop_mark(stack).at;
    let predicate = pop_expression(stack);
    let open_at = pop_mark(stack).at;
    let word = pop_mark(stack);
    push(
        stack,
        Value::Spec(Spec::After {
            mark: word.mark,
            at: word.at,
            open_at,
            predicate,
            close,
        }),
    )?;
    Ok(())
}

/// Makes a postcondition with a result name of the values on top. It fails for want of memory alone; this project's own.
pub fn make_post_named(stack: &mut Vec<Value>) -> Result<(), AllocError>
    requires { Tops (needs DoPostNamed) (values_of stack.old.items) }
    ensures { OnOk result (reduce DoPostNamed (values_of stack.old.items) ≡ Some (values_of stack.new.items)) }
{
    let close = pop_mark(stack).at;
    let predicate = pop_expression(stack);
    let colon = pop_mark(stack).at;
    let name = pop_name(stack);
    let open_at = pop_mark(stack).at;
    let word = pop_mark(stack);
    push(
        stack,
        Value::Spec(Spec::AfterNamed {
            mark: word.mark,
            at: word.at,
            open_at,
            name: name.name,
            name_at: name.at,
            colon,
            predicate,
            close,
        }),
    )?;
    Ok(())
}
