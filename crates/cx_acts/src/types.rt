//! Types, after [dcl.type].

ghost use Rattle.std.specs.Prelude.{◌≡◌, OnOk, Some};
ghost use Rattle.cx_table.specs.declared.symbol.Act.TheVariants.{DoWordBase, DoUnsignedInt, DoLongLong, DoUnsignedLongLong, DoClassBase, DoLibraryBase, DoPointers, DoPlain, DoStar, DoType, DoFlag, DoNoFlag};
ghost use Rattle.cx_values.specs.Needs.{needs};
ghost use Rattle.cx_values.specs.Sorts.{Tops};
ghost use Rattle.cx_values.specs.Values.{reduce};
ghost use Rattle.cx_values.specs.View.{values_of};

use cx_syntax::tree::{Base, Star, TypeTree};
use cx_values::pop::{
    pop_base, pop_class, pop_flag, pop_mark, pop_name, pop_pointers, pop_word, push,
};
use cx_values::{Pointers, Value};
use std::alloc::{AllocError, Global};

/// Makes a word as a base of the values on top. It fails for want of memory alone; this project's own.
pub fn make_word_base(stack: &mut Vec<Value>) -> Result<(), AllocError>
    requires { Tops (needs DoWordBase) (values_of stack.old.items) }
    ensures { OnOk result (reduce DoWordBase (values_of stack.old.items) ≡ Some (values_of stack.new.items)) }
{
    let word = pop_word(stack);
    push(
        stack,
        Value::Base(Base::Word {
            word: word.word,
            at: word.at,
        }),
    )?;
    Ok(())
}

/// Makes `unsigned int` of the values on top. It fails for want of memory alone; this project's own.
pub fn make_unsigned_int(stack: &mut Vec<Value>) -> Result<(), AllocError>
    requires { Tops (needs DoUnsignedInt) (values_of stack.old.items) }
    ensures { OnOk result (reduce DoUnsignedInt (values_of stack.old.items) ≡ Some (values_of stack.new.items)) }
{
    let second = pop_mark(stack).at;
    let at = pop_mark(stack).at;
    push(stack, Value::Base(Base::UnsignedInt { at, second }))?;
    Ok(())
}

/// Makes `long long` of the values on top. It fails for want of memory alone; this project's own.
pub fn make_long_long(stack: &mut Vec<Value>) -> Result<(), AllocError>
    requires { Tops (needs DoLongLong) (values_of stack.old.items) }
    ensures { OnOk result (reduce DoLongLong (values_of stack.old.items) ≡ Some (values_of stack.new.items)) }
{
    let second = pop_mark(stack).at;
    let at = pop_mark(stack).at;
    push(stack, Value::Base(Base::LongLong { at, second }))?;
    Ok(())
}

/// Makes `unsigned long long` of the values on top. It fails for want of memory alone; this project's own.
pub fn make_unsigned_long_long(stack: &mut Vec<Value>) -> Result<(), AllocError>
    requires { Tops (needs DoUnsignedLongLong) (values_of stack.old.items) }
    ensures { OnOk result (reduce DoUnsignedLongLong (values_of stack.old.items) ≡ Some (values_of stack.new.items)) }
{
    let third = pop_mark(stack).at;
    let second = pop_mark(stack).at;
    let at = pop_mark(stack).at;
    push(
        stack,
        Value::Base(Base::UnsignedLongLong { at, second, third }),
    )?;
    Ok(())
}

/// Makes a class name as a base of the values on top. It fails for want of memory alone; this project's own.
pub fn make_class_base(stack: &mut Vec<Value>) -> Result<(), AllocError>
    requires { Tops (needs DoClassBase) (values_of stack.old.items) }
    ensures { OnOk result (reduce DoClassBase (values_of stack.old.items) ≡ Some (values_of stack.new.items)) }
{
    let name = pop_class(stack);
    push(
        stack,
        Value::Base(Base::Class {
            name: name.name,
            at: name.at,
        }),
    )?;
    Ok(())
}

/// Makes a type of `std :: contracts` as a base of the values on top. It fails for want of memory alone; this project's own.
pub fn make_library_base(stack: &mut Vec<Value>) -> Result<(), AllocError>
    requires { Tops (needs DoLibraryBase) (values_of stack.old.items) }
    ensures { OnOk result (reduce DoLibraryBase (values_of stack.old.items) ≡ Some (values_of stack.new.items)) }
{
    let name = pop_name(stack);
    let second = pop_mark(stack).at;
    let contracts = pop_mark(stack);
    let scope = pop_mark(stack).at;
    let at = pop_mark(stack).at;
    push(
        stack,
        Value::Base(Base::Library {
            at,
            scope,
            mark: contracts.mark,
            contracts: contracts.at,
            second,
            name: name.name,
            name_at: name.at,
        }),
    )?;
    Ok(())
}

/// Makes a base with a `const` in front, or with none of the values on top. It fails for want of memory alone; this project's own.
pub fn make_pointers(alloc: Global, stack: &mut Vec<Value>) -> Result<(), AllocError>
    requires { Tops (needs DoPointers) (values_of stack.old.items) }
    ensures { OnOk result (reduce DoPointers (values_of stack.old.items) ≡ Some (values_of stack.new.items)) }
{
    let base = pop_base(stack);
    let constant = pop_flag(stack);
    push(
        stack,
        Value::Pointers(Pointers {
            constant,
            base,
            stars: Vec::new(alloc),
        }),
    )?;
    Ok(())
}

/// Makes a base without a `const` in front of the values on top. It fails for want of memory alone; this project's own.
pub fn make_plain(alloc: Global, stack: &mut Vec<Value>) -> Result<(), AllocError>
    requires { Tops (needs DoPlain) (values_of stack.old.items) }
    ensures { OnOk result (reduce DoPlain (values_of stack.old.items) ≡ Some (values_of stack.new.items)) }
{
    let base = pop_base(stack);
    push(
        stack,
        Value::Pointers(Pointers {
            constant: None,
            base,
            stars: Vec::new(alloc),
        }),
    )?;
    Ok(())
}

/// Makes a further `*` and the `const` after it of the values on top. It fails for want of memory alone; this project's own.
pub fn make_star(stack: &mut Vec<Value>) -> Result<(), AllocError>
    requires { Tops (needs DoStar) (values_of stack.old.items) }
    ensures { OnOk result (reduce DoStar (values_of stack.old.items) ≡ Some (values_of stack.new.items)) }
{
    let constant = pop_flag(stack);
    let at = pop_mark(stack).at;
    let mut pointers = pop_pointers(stack);
    pointers.stars.push(Star { at, constant })?;
    push(stack, Value::Pointers(pointers))?;
    Ok(())
}

/// Makes a type of the values on top. It fails for want of memory alone; this project's own.
pub fn make_type(stack: &mut Vec<Value>) -> Result<(), AllocError>
    requires { Tops (needs DoType) (values_of stack.old.items) }
    ensures { OnOk result (reduce DoType (values_of stack.old.items) ≡ Some (values_of stack.new.items)) }
{
    let reference = pop_flag(stack);
    let Pointers {
        constant,
        base,
        stars,
    } = pop_pointers(stack);
    push(
        stack,
        Value::Type(TypeTree {
            constant,
            base,
            stars,
            reference,
        }),
    )?;
    Ok(())
}

/// Makes a word or sign that may be absent, and is there of the values on top. It fails for want of memory alone; this project's own.
pub fn make_flag(stack: &mut Vec<Value>) -> Result<(), AllocError>
    requires { Tops (needs DoFlag) (values_of stack.old.items) }
    ensures { OnOk result (reduce DoFlag (values_of stack.old.items) ≡ Some (values_of stack.new.items)) }
{
    let token = pop_mark(stack);
    push(stack, Value::Flag(Some(token.at)))?;
    Ok(())
}

/// Makes a word or sign that is absent of the values on top. It fails for want of memory alone; this project's own.
pub fn make_no_flag(stack: &mut Vec<Value>) -> Result<(), AllocError>
    requires { Tops (needs DoNoFlag) (values_of stack.old.items) }
    ensures { OnOk result (reduce DoNoFlag (values_of stack.old.items) ≡ Some (values_of stack.new.items)) }
{
    push(stack, Value::Flag(None))?;
    Ok(())
}
