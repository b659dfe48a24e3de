//! Values and places that several kinds of steps give.
ghost use Rattle.cx_plain_state.specs.Ran.{Ran};
ghost use Rattle.cx_plain_state.specs.Seen.{state_of, value_of, address_of};
ghost use Rattle.cx_mean_parts.specs.Parts.{result_in_frame};
ghost use Rattle.cx_mean_parts.specs.Steps.{GivesValue};
ghost use Rattle.std.specs.Prelude.{◌≡◌, IfOk, IfErr};
ghost use Rattle.cx_core.specs.Meaning.{object_place};
ghost use Rattle.cx_core.specs.Store.{place_in};
ghost use Rattle.cx_plain_state.specs.declared.answer.Halt.TheVariants.{Want};

use crate::waiting::{Given, Next};
use cx_code::Kind;
use cx_plain_state::{Address, Halt, State, Value, undefined};

/// The step that gives a value.
#[tactic(auto, unfolding(cx_core::specs::Outcome::gives, cx_core::specs::Outcome::throws))]
pub fn valued<'p>(value: Result<Value<'p>, Halt>) -> Result<Next<'p>, Halt>
    ensures { GivesValue value.entry result }
{
    match value {
        Ok(value) => Ok(Next::Give(Given::Value(value))),
        Err(halt) => Err(halt),
    }
}

/// The result of the active call.
#[tactic(auto, unfolding(cx_plain_state::specs::Seen::state_of, cx_core::specs::Outcome::either, cx_core::specs::Outcome::gives, cx_core::specs::Outcome::ends, cx_core::specs::Outcome::current_frame))]
pub fn result_in_frame<'p>(state: &State<'p>) -> Result<Value<'p>, Halt>
    ensures { Ran value_of (result_in_frame (state_of state.now)) result (state_of state.now) }
{
    match state.frame.result {
        Some(value) => Ok(value),
        None => Err(undefined(Kind::Mixed)),
    }
}

/// The place of an object.
pub fn object_place<'p>(object: u64) -> Value<'p>
    ensures { value_of result ≡ object_place object }
{
    Value::Address(Address { object, leaf: 0 })
}

/// The place of a leaf of an object at a place.
pub fn place_in(a: Address, leaf: u32) -> Result<Address, Halt>
    ensures place { IfOk result (λ b. address_of b ≡ place_in (address_of a) leaf) }
    ensures want { IfErr result (λ halt. halt ≡ Want) }
{
    let object = a.object;
    match a.leaf.checked_add(u64::from(leaf)) {
        Some(leaf) => Ok(Address { object, leaf }),
        None => Err(Halt::Want),
    }
}
