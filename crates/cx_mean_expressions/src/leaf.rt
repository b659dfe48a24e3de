//! Expressions without parts.
ghost use Rattle.cx_core.specs.View.{constant};
ghost use Rattle.cx_plain_state.specs.Ran.{Ran};
ghost use Rattle.cx_plain_state.specs.Seen.{state_of, value_of};
ghost use Rattle.cx_mean_parts.specs.Parts.{literal_of, variable_of, global_of, function_name_of, result_in_frame, result_name_of, exception_object_of};

use cx_code::Kind;
use cx_core::Constant;
use cx_mean_parts::values::result_in_frame;
use cx_plain_state::{Address, Halt, State, Value, undefined};

/// A literal, an enumerator or the first value of a global.
#[tactic(auto, unfolding(cx_core::specs::Outcome::either, cx_core::specs::Outcome::gives))]
pub(crate) fn literal<'p>(state: &mut State<'p>, c: Constant) -> Result<Value<'p>, Halt>
    ensures { Ran value_of (literal_of (constant c) (state_of state.old)) result (state_of state.new) }
{
    state.spend()?;
    match c {
        Constant::Number(n) => Ok(Value::Number(n)),
        Constant::Nullptr => Ok(Value::Null),
    }
}

/// A variable or parameter that isn't global, by its slot; `this` is the first parameter.
#[tactic(auto, unfolding(cx_core::specs::Outcome::either))]
pub(crate) fn variable<'p>(state: &mut State<'p>, slot: u32) -> Result<Value<'p>, Halt>
    ensures { Ran value_of (variable_of slot (state_of state.old)) result (state_of state.new) }
{
    state.spend()?;
    state.named(slot)
}

/// A global; the objects of the globals are the first.
#[tactic(auto, unfolding(cx_core::specs::Outcome::either, cx_core::specs::Outcome::gives))]
pub(crate) fn global<'p>(state: &mut State<'p>, index: u32) -> Result<Value<'p>, Halt>
    ensures { Ran value_of (global_of index (state_of state.old)) result (state_of state.new) }
{
    state.spend()?;
    let object = u64::from(index) + 1;
    Ok(Value::Address(Address { object, leaf: 0 }))
}

/// A function that is taken as a value.
#[tactic(auto, unfolding(cx_core::specs::Outcome::either, cx_core::specs::Outcome::gives))]
pub(crate) fn function_name<'p>(state: &mut State<'p>, function: u32) -> Result<Value<'p>, Halt>
    ensures { Ran value_of (function_name_of function (state_of state.old)) result (state_of state.new) }
{
    state.spend()?;
    Ok(Value::Function(function))
}

/// The result name of a postcondition.
#[tactic(auto, unfolding(cx_core::specs::Outcome::either))]
pub(crate) fn result_name<'p>(state: &mut State<'p>) -> Result<Value<'p>, Halt>
    ensures { Ran value_of (result_name_of (state_of state.old)) result (state_of state.new) }
{
    state.spend()?;
    result_in_frame(state)
}

/// The exception object that the innermost handler holds.
#[tactic(auto, unfolding(cx_plain_state::specs::Seen::state_of, cx_core::specs::Outcome::either, cx_core::specs::Outcome::gives, cx_core::specs::Outcome::ends, cx_core::specs::Outcome::current_held))]
pub(crate) fn exception_object<'p>(state: &State<'p>) -> Result<Value<'p>, Halt>
    ensures { Ran value_of (exception_object_of (state_of state.now)) result (state_of state.now) }
{
    match state.held.first() {
        Some(e) => Ok(Value::Address(Address {
            object: e.object,
            leaf: 0,
        })),
        None => Err(undefined(Kind::Mixed)),
    }
}
