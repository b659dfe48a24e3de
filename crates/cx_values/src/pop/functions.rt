//! Taking a function's parts off the stack.

ghost use Rattle.std.specs.Prelude.{◌≡◌, ◌∷◌};
ghost use Rattle.cx_syntax.specs.View.{optional_name_of, param_of, params_of, row_of, spec_of, specs_of, suffix_of, tail_of};
ghost use Rattle.cx_values.specs.Sorts.{Top, a_param, a_row, a_spec, a_suffix, a_tail, an_optional_name, params, specs};
ghost use Rattle.cx_values.specs.Values.{name_val, param_val, params_val, row_val, spec_val, specs_val, suffix_val, tail_val};
ghost use Rattle.cx_values.specs.View.{values_of};

use crate::pop::pop_value;
use crate::value::Value;
use cx_syntax::tree::{OptionalName, Param, ParamRow, Params, Spec, Suffix, Tail};

/// Takes a name that may be absent off the stack: it is on top, and is the result; this project's own.
#[tactic(auto, unfolding(crate::specs::View::values_of, crate::specs::Sorts::Top))]
pub fn pop_optional_name(stack: &mut Vec<Value>) -> OptionalName
    requires { Top an_optional_name (values_of stack.old.items) }
    ensures { values_of stack.old.items ≡ name_val (optional_name_of result) ∷ values_of stack.new.items }
{
    match pop_value(stack) {
        Value::Name(value) => value,
        _ => unreachable!(),
    }
}

/// Takes a parameter off the stack: it is on top, and is the result; this project's own.
#[tactic(auto, unfolding(crate::specs::View::values_of, crate::specs::Sorts::Top))]
pub fn pop_param(stack: &mut Vec<Value>) -> Param
    requires { Top a_param (values_of stack.old.items) }
    ensures { values_of stack.old.items ≡ param_val (param_of result) ∷ values_of stack.new.items }
{
    match pop_value(stack) {
        Value::Param(value) => value,
        _ => unreachable!(),
    }
}

/// Takes a row of parameters off the stack: it is on top, and is the result; this project's own.
#[tactic(auto, unfolding(crate::specs::View::values_of, crate::specs::Sorts::Top))]
pub fn pop_row(stack: &mut Vec<Value>) -> ParamRow
    requires { Top a_row (values_of stack.old.items) }
    ensures { values_of stack.old.items ≡ row_val (row_of result) ∷ values_of stack.new.items }
{
    match pop_value(stack) {
        Value::ParamRow(value) => value,
        _ => unreachable!(),
    }
}

/// Takes parameters in parentheses off the stack: it is on top, and is the result; this project's own.
#[tactic(auto, unfolding(crate::specs::View::values_of, crate::specs::Sorts::Top))]
pub fn pop_params(stack: &mut Vec<Value>) -> Params
    requires { Top params (values_of stack.old.items) }
    ensures { values_of stack.old.items ≡ params_val (params_of result) ∷ values_of stack.new.items }
{
    match pop_value(stack) {
        Value::Params(value) => value,
        _ => unreachable!(),
    }
}

/// Takes a function contract specifier off the stack: it is on top, and is the result; this project's own.
#[tactic(auto, unfolding(crate::specs::View::values_of, crate::specs::Sorts::Top))]
pub fn pop_spec(stack: &mut Vec<Value>) -> Spec
    requires { Top a_spec (values_of stack.old.items) }
    ensures { values_of stack.old.items ≡ spec_val (spec_of result) ∷ values_of stack.new.items }
{
    match pop_value(stack) {
        Value::Spec(value) => value,
        _ => unreachable!(),
    }
}

/// Takes function contract specifiers off the stack: it is on top, and is the result; this project's own.
#[tactic(auto, unfolding(crate::specs::View::values_of, crate::specs::Sorts::Top))]
pub fn pop_specs(stack: &mut Vec<Value>) -> Vec<Spec>
    requires { Top specs (values_of stack.old.items) }
    ensures { values_of stack.old.items ≡ specs_val (specs_of result.items) ∷ values_of stack.new.items }
{
    match pop_value(stack) {
        Value::Specs(value) => value,
        _ => unreachable!(),
    }
}

/// Takes what follows parameters off the stack: it is on top, and is the result; this project's own.
#[tactic(auto, unfolding(crate::specs::View::values_of, crate::specs::Sorts::Top))]
pub fn pop_suffix(stack: &mut Vec<Value>) -> Suffix
    requires { Top a_suffix (values_of stack.old.items) }
    ensures { values_of stack.old.items ≡ suffix_val (suffix_of result) ∷ values_of stack.new.items }
{
    match pop_value(stack) {
        Value::Suffix(value) => value,
        _ => unreachable!(),
    }
}

/// Takes the end of a function off the stack: it is on top, and is the result; this project's own.
#[tactic(auto, unfolding(crate::specs::View::values_of, crate::specs::Sorts::Top))]
pub fn pop_tail(stack: &mut Vec<Value>) -> Tail
    requires { Top a_tail (values_of stack.old.items) }
    ensures { values_of stack.old.items ≡ tail_val (tail_of result) ∷ values_of stack.new.items }
{
    match pop_value(stack) {
        Value::Tail(value) => value,
        _ => unreachable!(),
    }
}
