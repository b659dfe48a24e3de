//! Taking types and their parts off the stack.

ghost use Rattle.std.specs.Prelude.{◌≡◌, ◌∷◌, None};
ghost use Rattle.cx_syntax.specs.View.{base_of, stars_of, type_of};
ghost use Rattle.cx_values.specs.Sorts.{Top, a_base, a_flag, a_type, pointers, no_flag};
ghost use Rattle.cx_values.specs.Values.{base_val, flag_val, pointers_val, type_val};
ghost use Rattle.cx_values.specs.View.{values_of};

use crate::pop::pop_value;
use crate::value::{Pointers, Value};
use cx_syntax::tree::{Base, TypeTree};

/// Takes a flag off the stack: it is on top, and is the result; this project's own.
#[tactic(auto, unfolding(crate::specs::View::values_of, crate::specs::Sorts::Top))]
pub fn pop_flag(stack: &mut Vec<Value>) -> Option<u32>
    requires { Top a_flag (values_of stack.old.items) }
    ensures { values_of stack.old.items ≡ flag_val result ∷ values_of stack.new.items }
{
    match pop_value(stack) {
        Value::Flag(value) => value,
        _ => unreachable!(),
    }
}

/// Takes a flag that isn't set off the stack, where it is on top; this project's own.
#[tactic(auto, unfolding(crate::specs::View::values_of, crate::specs::Sorts::Top))]
pub fn pop_no_flag(stack: &mut Vec<Value>)
    requires { Top no_flag (values_of stack.old.items) }
    ensures { values_of stack.old.items ≡ flag_val None ∷ values_of stack.new.items }
{
    let _ = pop_flag(stack);
}

/// Takes a base of a type off the stack: it is on top, and is the result; this project's own.
#[tactic(auto, unfolding(crate::specs::View::values_of, crate::specs::Sorts::Top))]
pub fn pop_base(stack: &mut Vec<Value>) -> Base
    requires { Top a_base (values_of stack.old.items) }
    ensures { values_of stack.old.items ≡ base_val (base_of result) ∷ values_of stack.new.items }
{
    match pop_value(stack) {
        Value::Base(value) => value,
        _ => unreachable!(),
    }
}

/// Takes a type without its reference off the stack: it is on top, and is the result; this project's own.
#[tactic(auto, unfolding(crate::specs::View::values_of, crate::specs::Sorts::Top))]
pub fn pop_pointers(stack: &mut Vec<Value>) -> Pointers
    requires { Top pointers (values_of stack.old.items) }
    ensures { values_of stack.old.items ≡ pointers_val result.constant (base_of result.base) (stars_of result.stars.items) ∷ values_of stack.new.items }
{
    match pop_value(stack) {
        Value::Pointers(value) => value,
        _ => unreachable!(),
    }
}

/// Takes a type off the stack: it is on top, and is the result; this project's own.
#[tactic(auto, unfolding(crate::specs::View::values_of, crate::specs::Sorts::Top))]
pub fn pop_type(stack: &mut Vec<Value>) -> TypeTree
    requires { Top a_type (values_of stack.old.items) }
    ensures { values_of stack.old.items ≡ type_val (type_of result) ∷ values_of stack.new.items }
{
    match pop_value(stack) {
        Value::Type(value) => value,
        _ => unreachable!(),
    }
}
