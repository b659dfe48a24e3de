//! A constructor's initialisers and end, after [class.base.init].

ghost use Rattle.std.specs.Prelude.{◌≡◌, OnOk, Some};
ghost use Rattle.cx_table.specs.declared.symbol.Act.TheVariants.{DoUnmade, DoMade, DoNoInits, DoInits, DoMemberInit, DoOneInit, DoMoreInits};
ghost use Rattle.cx_values.specs.Needs.{needs};
ghost use Rattle.cx_values.specs.Sorts.{Tops};
ghost use Rattle.cx_values.specs.Values.{reduce};
ghost use Rattle.cx_values.specs.View.{values_of};

use cx_syntax::tree::{AnotherInit, InitRow, Inits, Making, MemberInit};
use cx_values::Value;
use cx_values::pop::{
    pop_arguments, pop_block, pop_init_row, pop_inits, pop_mark, pop_member_init, pop_name, push,
};
use std::alloc::{AllocError, Global};

/// Makes a `;` in the place of a constructor's body of the values on top. It fails for want of memory alone; this project's own.
pub fn make_unmade(stack: &mut Vec<Value>) -> Result<(), AllocError>
    requires { Tops (needs DoUnmade) (values_of stack.old.items) }
    ensures { OnOk result (reduce DoUnmade (values_of stack.old.items) ≡ Some (values_of stack.new.items)) }
{
    let at = pop_mark(stack).at;
    push(stack, Value::Making(Making::Unmade { at }))?;
    Ok(())
}

/// Makes a constructor's initialiser list and body of the values on top. It fails for want of memory alone; this project's own.
pub fn make_made(stack: &mut Vec<Value>) -> Result<(), AllocError>
    requires { Tops (needs DoMade) (values_of stack.old.items) }
    ensures { OnOk result (reduce DoMade (values_of stack.old.items) ≡ Some (values_of stack.new.items)) }
{
    let body = pop_block(stack);
    let inits = pop_inits(stack);
    push(stack, Value::Making(Making::Made { inits, body }))?;
    Ok(())
}

/// Makes no initialiser list of the values on top. It fails for want of memory alone; this project's own.
pub fn make_no_inits(stack: &mut Vec<Value>) -> Result<(), AllocError>
    requires { Tops (needs DoNoInits) (values_of stack.old.items) }
    ensures { OnOk result (reduce DoNoInits (values_of stack.old.items) ≡ Some (values_of stack.new.items)) }
{
    push(stack, Value::Inits(Inits::Nothing))?;
    Ok(())
}

/// Makes an initialiser list of the values on top. It fails for want of memory alone; this project's own.
pub fn make_inits(stack: &mut Vec<Value>) -> Result<(), AllocError>
    requires { Tops (needs DoInits) (values_of stack.old.items) }
    ensures { OnOk result (reduce DoInits (values_of stack.old.items) ≡ Some (values_of stack.new.items)) }
{
    let row = pop_init_row(stack);
    let at = pop_mark(stack).at;
    push(stack, Value::Inits(Inits::Row { at, row }))?;
    Ok(())
}

/// Makes the initialiser of a field of the values on top. It fails for want of memory alone; this project's own.
pub fn make_member_init(stack: &mut Vec<Value>) -> Result<(), AllocError>
    requires { Tops (needs DoMemberInit) (values_of stack.old.items) }
    ensures { OnOk result (reduce DoMemberInit (values_of stack.old.items) ≡ Some (values_of stack.new.items)) }
{
    let arguments = pop_arguments(stack);
    let name = pop_name(stack);
    push(
        stack,
        Value::MemberInit(MemberInit {
            name: name.name,
            at: name.at,
            arguments,
        }),
    )?;
    Ok(())
}

/// Makes a row of one initialiser of the values on top. It fails for want of memory alone; this project's own.
pub fn make_one_init(alloc: Global, stack: &mut Vec<Value>) -> Result<(), AllocError>
    requires { Tops (needs DoOneInit) (values_of stack.old.items) }
    ensures { OnOk result (reduce DoOneInit (values_of stack.old.items) ≡ Some (values_of stack.new.items)) }
{
    let first = pop_member_init(stack);
    push(
        stack,
        Value::InitRow(InitRow {
            first,
            more: Vec::new(alloc),
        }),
    )?;
    Ok(())
}

/// Makes a row with a further initialiser of the values on top. It fails for want of memory alone; this project's own.
pub fn make_more_inits(stack: &mut Vec<Value>) -> Result<(), AllocError>
    requires { Tops (needs DoMoreInits) (values_of stack.old.items) }
    ensures { OnOk result (reduce DoMoreInits (values_of stack.old.items) ≡ Some (values_of stack.new.items)) }
{
    let init = pop_member_init(stack);
    let comma = pop_mark(stack).at;
    let mut row = pop_init_row(stack);
    row.more.push(AnotherInit { comma, init })?;
    push(stack, Value::InitRow(row))?;
    Ok(())
}
