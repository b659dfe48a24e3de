//! Functions and the items of a unit, after [dcl.fct.def] and [basic.link].

ghost use Rattle.std.specs.Prelude.{◌≡◌, OnOk, Some};
ghost use Rattle.cx_table.specs.declared.symbol.Act.TheVariants.{DoFunction, DoOuterMethod, DoOuterConstructor, DoOuterDestructor, DoNoItems, DoMoreItems};
ghost use Rattle.cx_values.specs.Needs.{needs};
ghost use Rattle.cx_values.specs.Sorts.{Tops};
ghost use Rattle.cx_values.specs.Values.{reduce};
ghost use Rattle.cx_values.specs.View.{values_of};

use cx_syntax::tree::{Item, UnitTree};
use cx_values::Value;
use cx_values::pop::{
    pop_block, pop_class, pop_flag, pop_inits, pop_item, pop_mark, pop_name, pop_params,
    pop_suffix, pop_tail, pop_type, pop_unit, push,
};
use std::alloc::{AllocError, Global};

/// Makes a function of the values on top. It fails for want of memory alone; this project's own.
pub fn make_function(stack: &mut Vec<Value>) -> Result<(), AllocError>
    requires { Tops (needs DoFunction) (values_of stack.old.items) }
    ensures { OnOk result (reduce DoFunction (values_of stack.old.items) ≡ Some (values_of stack.new.items)) }
{
    let tail = pop_tail(stack);
    let suffix = pop_suffix(stack);
    let params = pop_params(stack);
    let name = pop_name(stack);
    let of = pop_type(stack);
    let inlined = pop_flag(stack);
    push(
        stack,
        Value::Item(Item::Function {
            inlined,
            of,
            name: name.name,
            name_at: name.at,
            params,
            suffix,
            tail,
        }),
    )?;
    Ok(())
}

/// Makes a member function outside its class of the values on top. It fails for want of memory alone; this project's own.
pub fn make_outer_method(stack: &mut Vec<Value>) -> Result<(), AllocError>
    requires { Tops (needs DoOuterMethod) (values_of stack.old.items) }
    ensures { OnOk result (reduce DoOuterMethod (values_of stack.old.items) ≡ Some (values_of stack.new.items)) }
{
    let body = pop_block(stack);
    let suffix = pop_suffix(stack);
    let constant = pop_flag(stack);
    let params = pop_params(stack);
    let name = pop_name(stack);
    let scope = pop_mark(stack).at;
    let class = pop_class(stack);
    let of = pop_type(stack);
    let inlined = pop_flag(stack);
    push(
        stack,
        Value::Item(Item::OuterMethod {
            inlined,
            of,
            class: class.name,
            class_at: class.at,
            scope,
            name: name.name,
            name_at: name.at,
            params,
            constant,
            suffix,
            body,
        }),
    )?;
    Ok(())
}

/// Makes a constructor outside its class of the values on top. It fails for want of memory alone; this project's own.
pub fn make_outer_constructor(stack: &mut Vec<Value>) -> Result<(), AllocError>
    requires { Tops (needs DoOuterConstructor) (values_of stack.old.items) }
    ensures { OnOk result (reduce DoOuterConstructor (values_of stack.old.items) ≡ Some (values_of stack.new.items)) }
{
    let body = pop_block(stack);
    let inits = pop_inits(stack);
    let suffix = pop_suffix(stack);
    let params = pop_params(stack);
    let name = pop_class(stack);
    let scope = pop_mark(stack).at;
    let class = pop_class(stack);
    let inlined = pop_flag(stack);
    push(
        stack,
        Value::Item(Item::OuterConstructor {
            inlined,
            class: class.name,
            class_at: class.at,
            scope,
            name: name.name,
            name_at: name.at,
            params,
            suffix,
            inits,
            body,
        }),
    )?;
    Ok(())
}

/// Makes a destructor outside its class of the values on top. It fails for want of memory alone; this project's own.
pub fn make_outer_destructor(stack: &mut Vec<Value>) -> Result<(), AllocError>
    requires { Tops (needs DoOuterDestructor) (values_of stack.old.items) }
    ensures { OnOk result (reduce DoOuterDestructor (values_of stack.old.items) ≡ Some (values_of stack.new.items)) }
{
    let body = pop_block(stack);
    let suffix = pop_suffix(stack);
    let close = pop_mark(stack).at;
    let open_at = pop_mark(stack).at;
    let name = pop_class(stack);
    let tilde = pop_mark(stack).at;
    let scope = pop_mark(stack).at;
    let class = pop_class(stack);
    let inlined = pop_flag(stack);
    push(
        stack,
        Value::Item(Item::OuterDestructor {
            inlined,
            class: class.name,
            class_at: class.at,
            scope,
            tilde,
            name: name.name,
            name_at: name.at,
            open_at,
            close,
            suffix,
            body,
        }),
    )?;
    Ok(())
}

/// Makes no items of the values on top. It fails for want of memory alone; this project's own.
pub fn make_no_items(alloc: Global, stack: &mut Vec<Value>) -> Result<(), AllocError>
    requires { Tops (needs DoNoItems) (values_of stack.old.items) }
    ensures { OnOk result (reduce DoNoItems (values_of stack.old.items) ≡ Some (values_of stack.new.items)) }
{
    push(
        stack,
        Value::Unit(UnitTree {
            items: Vec::new(alloc),
        }),
    )?;
    Ok(())
}

/// Makes a unit with a further item of the values on top. It fails for want of memory alone; this project's own.
pub fn make_more_items(stack: &mut Vec<Value>) -> Result<(), AllocError>
    requires { Tops (needs DoMoreItems) (values_of stack.old.items) }
    ensures { OnOk result (reduce DoMoreItems (values_of stack.old.items) ≡ Some (values_of stack.new.items)) }
{
    let item = pop_item(stack);
    let mut unit = pop_unit(stack);
    unit.items.push(item)?;
    push(stack, Value::Unit(unit))?;
    Ok(())
}
