//! A class's members, after [class.mem].

ghost use Rattle.std.specs.Prelude.{◌≡◌, OnOk, Some};
ghost use Rattle.cx_table.specs.declared.symbol.Act.TheVariants.{DoAccess, DoField, DoMethod, DoConstructor, DoDestructor, DoNoMembers, DoMoreMembers};
ghost use Rattle.cx_values.specs.Needs.{needs};
ghost use Rattle.cx_values.specs.Sorts.{Tops};
ghost use Rattle.cx_values.specs.Values.{reduce};
ghost use Rattle.cx_values.specs.View.{values_of};

use cx_syntax::tree::Member;
use cx_values::Value;
use cx_values::pop::{
    pop_class, pop_flag, pop_making, pop_mark, pop_member, pop_members, pop_name, pop_no_flag,
    pop_params, pop_suffix, pop_tail, pop_type, pop_word, push,
};
use std::alloc::{AllocError, Global};

/// Makes an access specifier of the values on top. It fails for want of memory alone; this project's own.
pub fn make_access(stack: &mut Vec<Value>) -> Result<(), AllocError>
    requires { Tops (needs DoAccess) (values_of stack.old.items) }
    ensures { OnOk result (reduce DoAccess (values_of stack.old.items) ≡ Some (values_of stack.new.items)) }
{
    let colon = pop_mark(stack).at;
    let word = pop_word(stack);
    push(
        stack,
        Value::Member(Member::Access {
            at: word.at,
            word: word.word,
            colon,
        }),
    )?;
    Ok(())
}

/// Makes a field of the values on top. It fails for want of memory alone; this project's own.
pub fn make_field(stack: &mut Vec<Value>) -> Result<(), AllocError>
    requires { Tops (needs DoField) (values_of stack.old.items) }
    ensures { OnOk result (reduce DoField (values_of stack.old.items) ≡ Some (values_of stack.new.items)) }
{
    let semicolon = pop_mark(stack).at;
    let name = pop_name(stack);
    let of = pop_type(stack);
    pop_no_flag(stack);
    push(
        stack,
        Value::Member(Member::Field {
            of,
            name: name.name,
            name_at: name.at,
            semicolon,
        }),
    )?;
    Ok(())
}

/// Makes a member function of the values on top. It fails for want of memory alone; this project's own.
pub fn make_method(stack: &mut Vec<Value>) -> Result<(), AllocError>
    requires { Tops (needs DoMethod) (values_of stack.old.items) }
    ensures { OnOk result (reduce DoMethod (values_of stack.old.items) ≡ Some (values_of stack.new.items)) }
{
    let tail = pop_tail(stack);
    let suffix = pop_suffix(stack);
    let constant = pop_flag(stack);
    let params = pop_params(stack);
    let name = pop_name(stack);
    let of = pop_type(stack);
    let virtual_at = pop_flag(stack);
    push(
        stack,
        Value::Member(Member::Method {
            virtual_at,
            of,
            name: name.name,
            name_at: name.at,
            params,
            constant,
            suffix,
            tail,
        }),
    )?;
    Ok(())
}

/// Makes a constructor of the values on top. It fails for want of memory alone; this project's own.
pub fn make_constructor(stack: &mut Vec<Value>) -> Result<(), AllocError>
    requires { Tops (needs DoConstructor) (values_of stack.old.items) }
    ensures { OnOk result (reduce DoConstructor (values_of stack.old.items) ≡ Some (values_of stack.new.items)) }
{
    let making = pop_making(stack);
    let suffix = pop_suffix(stack);
    let params = pop_params(stack);
    let name = pop_class(stack);
    let explicit_at = pop_flag(stack);
    push(
        stack,
        Value::Member(Member::Constructor {
            explicit_at,
            name: name.name,
            name_at: name.at,
            params,
            suffix,
            making,
        }),
    )?;
    Ok(())
}

/// Makes a destructor of the values on top. It fails for want of memory alone; this project's own.
pub fn make_destructor(stack: &mut Vec<Value>) -> Result<(), AllocError>
    requires { Tops (needs DoDestructor) (values_of stack.old.items) }
    ensures { OnOk result (reduce DoDestructor (values_of stack.old.items) ≡ Some (values_of stack.new.items)) }
{
    let tail = pop_tail(stack);
    let suffix = pop_suffix(stack);
    let close = pop_mark(stack).at;
    let open_at = pop_mark(stack).at;
    let name = pop_class(stack);
    let tilde = pop_mark(stack).at;
    let virtual_at = pop_flag(stack);
    push(
        stack,
        Value::Member(Member::Destructor {
            virtual_at,
            tilde,
            name: name.name,
            name_at: name.at,
            open_at,
            close,
            suffix,
            tail,
        }),
    )?;
    Ok(())
}

/// Makes no members of the values on top. It fails for want of memory alone; this project's own.
pub fn make_no_members(alloc: Global, stack: &mut Vec<Value>) -> Result<(), AllocError>
    requires { Tops (needs DoNoMembers) (values_of stack.old.items) }
    ensures { OnOk result (reduce DoNoMembers (values_of stack.old.items) ≡ Some (values_of stack.new.items)) }
{
    push(stack, Value::Members(Vec::new(alloc)))?;
    Ok(())
}

/// Makes members with a further one of the values on top. It fails for want of memory alone; this project's own.
pub fn make_more_members(stack: &mut Vec<Value>) -> Result<(), AllocError>
    requires { Tops (needs DoMoreMembers) (values_of stack.old.items) }
    ensures { OnOk result (reduce DoMoreMembers (values_of stack.old.items) ≡ Some (values_of stack.new.items)) }
{
    let member = pop_member(stack);
    let mut members = pop_members(stack);
    members.push(member)?;
    push(stack, Value::Members(members))?;
    Ok(())
}
