//! Globals and classes, after [dcl.pre] and [class.pre].

ghost use Rattle.std.specs.Prelude.{◌≡◌, OnOk, Some};
ghost use Rattle.cx_table.specs.declared.symbol.Act.TheVariants.{DoPlainConstant, DoNegative, DoWithout, DoWithValue, DoClassNamed, DoClassDefined, DoExternal, DoGlobal};
ghost use Rattle.cx_values.specs.Needs.{needs};
ghost use Rattle.cx_values.specs.Sorts.{Tops};
ghost use Rattle.cx_values.specs.Values.{reduce};
ghost use Rattle.cx_values.specs.View.{values_of};

use cx_syntax::tree::{Constant, GlobalInit, Item};
use cx_values::Value;
use cx_values::pop::{
    pop_class, pop_constant, pop_global_init, pop_mark, pop_members, pop_name, pop_no_flag,
    pop_type, pop_word, push,
};
use std::alloc::AllocError;

/// Makes a value that is one token of the values on top. It fails for want of memory alone; this project's own.
pub fn make_plain_constant(stack: &mut Vec<Value>) -> Result<(), AllocError>
    requires { Tops (needs DoPlainConstant) (values_of stack.old.items) }
    ensures { OnOk result (reduce DoPlainConstant (values_of stack.old.items) ≡ Some (values_of stack.new.items)) }
{
    let token = pop_mark(stack);
    push(
        stack,
        Value::Constant(Constant::Plain {
            at: token.at,
            mark: token.mark,
        }),
    )?;
    Ok(())
}

/// Makes a `-` and a number of the values on top. It fails for want of memory alone; this project's own.
pub fn make_negative(stack: &mut Vec<Value>) -> Result<(), AllocError>
    requires { Tops (needs DoNegative) (values_of stack.old.items) }
    ensures { OnOk result (reduce DoNegative (values_of stack.old.items) ≡ Some (values_of stack.new.items)) }
{
    let number = pop_mark(stack).at;
    let at = pop_mark(stack).at;
    push(stack, Value::Constant(Constant::Negative { at, number }))?;
    Ok(())
}

/// Makes a global without a value of the values on top. It fails for want of memory alone; this project's own.
pub fn make_without(stack: &mut Vec<Value>) -> Result<(), AllocError>
    requires { Tops (needs DoWithout) (values_of stack.old.items) }
    ensures { OnOk result (reduce DoWithout (values_of stack.old.items) ≡ Some (values_of stack.new.items)) }
{
    push(stack, Value::GlobalInit(GlobalInit::Nothing))?;
    Ok(())
}

/// Makes the value of a global of the values on top. It fails for want of memory alone; this project's own.
pub fn make_with_value(stack: &mut Vec<Value>) -> Result<(), AllocError>
    requires { Tops (needs DoWithValue) (values_of stack.old.items) }
    ensures { OnOk result (reduce DoWithValue (values_of stack.old.items) ≡ Some (values_of stack.new.items)) }
{
    let constant = pop_constant(stack);
    let at = pop_mark(stack).at;
    push(stack, Value::GlobalInit(GlobalInit::Value { at, constant }))?;
    Ok(())
}

/// Makes a class without its members of the values on top. It fails for want of memory alone; this project's own.
pub fn make_class_named(stack: &mut Vec<Value>) -> Result<(), AllocError>
    requires { Tops (needs DoClassNamed) (values_of stack.old.items) }
    ensures { OnOk result (reduce DoClassNamed (values_of stack.old.items) ≡ Some (values_of stack.new.items)) }
{
    let semicolon = pop_mark(stack).at;
    let name = pop_class(stack);
    let word = pop_word(stack);
    push(
        stack,
        Value::Item(Item::ClassNamed {
            at: word.at,
            word: word.word,
            name: name.name,
            name_at: name.at,
            semicolon,
        }),
    )?;
    Ok(())
}

/// Makes a class with its members of the values on top. It fails for want of memory alone; this project's own.
pub fn make_class_defined(stack: &mut Vec<Value>) -> Result<(), AllocError>
    requires { Tops (needs DoClassDefined) (values_of stack.old.items) }
    ensures { OnOk result (reduce DoClassDefined (values_of stack.old.items) ≡ Some (values_of stack.new.items)) }
{
    let semicolon = pop_mark(stack).at;
    let close = pop_mark(stack).at;
    let members = pop_members(stack);
    let open_at = pop_mark(stack).at;
    let name = pop_class(stack);
    let word = pop_word(stack);
    push(
        stack,
        Value::Item(Item::ClassDefined {
            at: word.at,
            word: word.word,
            name: name.name,
            name_at: name.at,
            open_at,
            members,
            close,
            semicolon,
        }),
    )?;
    Ok(())
}

/// Makes an `extern` global of the values on top. It fails for want of memory alone; this project's own.
pub fn make_external(stack: &mut Vec<Value>) -> Result<(), AllocError>
    requires { Tops (needs DoExternal) (values_of stack.old.items) }
    ensures { OnOk result (reduce DoExternal (values_of stack.old.items) ≡ Some (values_of stack.new.items)) }
{
    let semicolon = pop_mark(stack).at;
    let name = pop_name(stack);
    let of = pop_type(stack);
    let at = pop_mark(stack).at;
    push(
        stack,
        Value::Item(Item::External {
            at,
            of,
            name: name.name,
            name_at: name.at,
            semicolon,
        }),
    )?;
    Ok(())
}

/// Makes a global of the values on top. It fails for want of memory alone; this project's own.
pub fn make_global(stack: &mut Vec<Value>) -> Result<(), AllocError>
    requires { Tops (needs DoGlobal) (values_of stack.old.items) }
    ensures { OnOk result (reduce DoGlobal (values_of stack.old.items) ≡ Some (values_of stack.new.items)) }
{
    let semicolon = pop_mark(stack).at;
    let init = pop_global_init(stack);
    let name = pop_name(stack);
    let of = pop_type(stack);
    pop_no_flag(stack);
    push(
        stack,
        Value::Item(Item::Global {
            of,
            name: name.name,
            name_at: name.at,
            init,
            semicolon,
        }),
    )?;
    Ok(())
}
