//! Taking items and their parts off the stack.

ghost use Rattle.std.specs.Prelude.{◌≡◌, ◌∷◌};
ghost use Rattle.cx_syntax.specs.View.{constant_of, global_init_of, item_of, unit_of};
ghost use Rattle.cx_values.specs.Sorts.{Top, a_constant, a_global_init, a_unit, an_item};
ghost use Rattle.cx_values.specs.Values.{constant_val, global_init_val, item_val, unit_val};
ghost use Rattle.cx_values.specs.View.{values_of};

use crate::pop::pop_value;
use crate::value::Value;
use cx_syntax::tree::{Constant, GlobalInit, Item, UnitTree};

/// Takes a constant off the stack: it is on top, and is the result; this project's own.
#[tactic(auto, unfolding(crate::specs::View::values_of, crate::specs::Sorts::Top))]
pub fn pop_constant(stack: &mut Vec<Value>) -> Constant
    requires { Top a_constant (values_of stack.old.items) }
    ensures { values_of stack.old.items ≡ constant_val (constant_of result) ∷ values_of stack.new.items }
{
    match pop_value(stack) {
        Value::Constant(value) => value,
        _ => unreachable!(),
    }
}

/// Takes an initialiser of a global off the stack: it is on top, and is the result; this project's own.
#[tactic(auto, unfolding(crate::specs::View::values_of, crate::specs::Sorts::Top))]
pub fn pop_global_init(stack: &mut Vec<Value>) -> GlobalInit
    requires { Top a_global_init (values_of stack.old.items) }
    ensures { values_of stack.old.items ≡ global_init_val (global_init_of result) ∷ values_of stack.new.items }
{
    match pop_value(stack) {
        Value::GlobalInit(value) => value,
        _ => unreachable!(),
    }
}

/// Takes an item off the stack: it is on top, and is the result; this project's own.
#[tactic(auto, unfolding(crate::specs::View::values_of, crate::specs::Sorts::Top))]
pub fn pop_item(stack: &mut Vec<Value>) -> Item
    requires { Top an_item (values_of stack.old.items) }
    ensures { values_of stack.old.items ≡ item_val (item_of result) ∷ values_of stack.new.items }
{
    match pop_value(stack) {
        Value::Item(value) => value,
        _ => unreachable!(),
    }
}

/// Takes a unit off the stack: it is on top, and is the result; this project's own.
#[tactic(auto, unfolding(crate::specs::View::values_of, crate::specs::Sorts::Top))]
pub fn pop_unit(stack: &mut Vec<Value>) -> UnitTree
    requires { Top a_unit (values_of stack.old.items) }
    ensures { values_of stack.old.items ≡ unit_val (unit_of result) ∷ values_of stack.new.items }
{
    match pop_value(stack) {
        Value::Unit(value) => value,
        _ => unreachable!(),
    }
}
