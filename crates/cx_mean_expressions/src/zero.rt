//! Zero-initialisation [dcl.init.general].
ghost use Rattle.cx_core.specs.Statements.{zero_object};
ghost use Rattle.cx_plain.specs.Step.{no_calls};
ghost use Rattle.cx_plain_state.specs.Ran.{Ran, unit_of};
ghost use Rattle.cx_plain_state.specs.Seen.{state_of, address_of};
ghost use Rattle.cx_mean_parts.specs.Seen.{program_of, class_of};
ghost use Rattle.cx_mean_parts.specs.Parts.{number_zeroed, pointer_zeroed, leaf_zeroed, leaves_zeroed, class_zeroed};

use cx_code::Kind;
use cx_core::LeafKind;
use cx_mean_parts::machine::Machine;
use cx_mean_parts::program::Class;
use cx_mean_parts::values::place_in;
use cx_plain_state::{Address, Halt, State, Value, undefined};

/// The number 0 is written.
#[tactic(auto, unfolding(cx_core::specs::Outcome::either))]
fn zero_number(state: &mut State<'_>, a: Address) -> Result<(), Halt>
    ensures { Ran unit_of (number_zeroed (address_of a) (state_of state.old)) result (state_of state.new) }
{
    state.spend()?;
    state.write(a, Some(Value::Number(0)))
}

/// A null pointer is written.
#[tactic(auto, unfolding(cx_core::specs::Outcome::either))]
fn zero_pointer(state: &mut State<'_>, a: Address) -> Result<(), Halt>
    ensures { Ran unit_of (pointer_zeroed (address_of a) (state_of state.old)) result (state_of state.new) }
{
    state.spend()?;
    state.write(a, Some(Value::Null))
}

#[tactic(auto, unfolding(cx_core::specs::Outcome::either, cx_core::specs::Outcome::gives))]
fn zero_leaf(state: &mut State<'_>, a: Address, kind: LeafKind) -> Result<(), Halt>
    ensures { Ran unit_of (leaf_zeroed (address_of a) kind (state_of state.old)) result (state_of state.new) }
{
    match kind {
        LeafKind::Number => zero_number(state, a),
        LeafKind::Pointer => zero_pointer(state, a),
        LeafKind::Empty => Ok(()),
    }
}

#[tactic(auto, unfolding(cx_core::specs::Outcome::either, cx_core::specs::Outcome::gives))]
fn zero_leaves(state: &mut State<'_>, a: Address, leaves: &[LeafKind]) -> Result<(), Halt>
    ensures { Ran unit_of (leaves_zeroed (address_of a) leaves.now (state_of state.old)) result (state_of state.new) }
{
    match leaves.split_first() {
        None => Ok(()),
        Some((kind, rest)) => {
            zero_leaf(state, a, *kind)?;
            let next = place_in(a, 1)?;
            zero_leaves(state, next, rest)
        }
    }
}

#[tactic(auto, unfolding(cx_core::specs::Outcome::either, cx_core::specs::Outcome::gives, cx_core::specs::Outcome::ends))]
fn zero_class<'p>(
    machine: &Machine<'p>,
    state: &mut State<'p>,
    class: &Class,
    a: Address,
) -> Result<(), Halt>
    ensures { Ran unit_of (class_zeroed (class_of class.now) (address_of a) (state_of state.old)) result (state_of state.new) }
{
    zero_leaves(state, a, class.definition.leaves.items())?;
    state.spend_all(class.definition.objects)
}

/// An object of a class is zero-initialised.
#[tactic(auto, unfolding(cx_core::specs::Outcome::either, cx_core::specs::Outcome::gives, cx_core::specs::Outcome::ends))]
pub(crate) fn zero_object<'p>(
    machine: &Machine<'p>,
    state: &mut State<'p>,
    class: u32,
    a: Address,
) -> Result<(), Halt>
    ensures { Ran unit_of (zero_object (program_of machine.now.program.now) no_calls class (address_of a) (state_of state.old)) result (state_of state.new) }
{
    match machine.class_at(class) {
        Some(definition) => zero_class(machine, state, definition, a),
        None => Err(undefined(Kind::Mixed)),
    }
}
