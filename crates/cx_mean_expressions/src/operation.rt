//! What is done with the values of operands.
ghost use Rattle.cx_core.specs.Store.{place_in};
ghost use Rattle.cx_plain.specs.Step.{applied};
ghost use Rattle.cx_plain_state.specs.Ran.{Ran};
ghost use Rattle.cx_plain_state.specs.Seen.{state_of, value_of};
ghost use Rattle.cx_mean_parts.specs.Seen.{program_of};
ghost use Rattle.cx_mean_parts.specs.Frames.{operation_of};
ghost use Rattle.cx_mean_parts.specs.Parts.{unary_applied, binary_applied, cast_applied, assign_applied, compound_assign_applied, prefix_applied, postfix_applied, indirection_applied, member_applied, result_in_place, result_applied};

use cx_core::{BinaryOperator, IntegerType, UnaryOperator};
use cx_mean_parts::machine::Machine;
use cx_mean_parts::values::place_in;
use cx_mean_parts::waiting::Operation;
use cx_plain_state::{Address, Halt, State, Value};

/// An operator with one operand that computes a number.
#[tactic(auto, unfolding(cx_core::specs::Outcome::either))]
fn unary<'p>(
    state: &mut State<'p>,
    operator: UnaryOperator,
    of: IntegerType,
    x: Value<'p>,
) -> Result<Value<'p>, Halt>
    ensures { Ran value_of (unary_applied operator of (value_of x.entry) (state_of state.old)) result (state_of state.new) }
{
    state.spend()?;
    state.unary_operated(operator, of, x)
}

/// An operator with two operands.
#[tactic(auto, unfolding(cx_core::specs::Outcome::either))]
fn binary<'p>(
    state: &mut State<'p>,
    operator: BinaryOperator,
    of: IntegerType,
    x: Value<'p>,
    y: Value<'p>,
) -> Result<Value<'p>, Halt>
    ensures { Ran value_of (binary_applied operator of (value_of x.entry) (value_of y.entry) (state_of state.old)) result (state_of state.new) }
{
    state.spend()?;
    state.operated(operator, of, x, y)
}

/// A cast; the conversion is the operand's.
#[tactic(auto, unfolding(cx_core::specs::Outcome::either, cx_core::specs::Outcome::gives))]
fn cast<'p>(state: &mut State<'p>, x: Value<'p>) -> Result<Value<'p>, Halt>
    ensures { Ran value_of (cast_applied (value_of x.entry) (state_of state.old)) result (state_of state.new) }
{
    state.spend()?;
    Ok(x)
}

/// An assignment [expr.ass].
#[tactic(auto, unfolding(cx_core::specs::Outcome::either, cx_core::specs::Outcome::gives))]
fn assign<'p>(state: &mut State<'p>, value: Value<'p>, place: Value<'p>) -> Result<Value<'p>, Halt>
    ensures { Ran value_of (assign_applied (value_of value.entry) (value_of place.entry) (state_of state.old)) result (state_of state.new) }
{
    state.spend()?;
    state.stored(place, value)?;
    Ok(place)
}

/// A compound assignment [expr.ass].
#[tactic(auto, unfolding(cx_core::specs::Outcome::either, cx_core::specs::Outcome::gives))]
fn compound_assign<'p>(
    state: &mut State<'p>,
    operator: BinaryOperator,
    computed: IntegerType,
    kept: IntegerType,
    value: Value<'p>,
    place: Value<'p>,
) -> Result<Value<'p>, Halt>
    ensures { Ran value_of (compound_assign_applied operator computed kept (value_of value.entry) (value_of place.entry) (state_of state.old)) result (state_of state.new) }
{
    state.spend()?;
    state.updated(operator, computed, kept, place, value)?;
    Ok(place)
}

/// `++` or `--` before its operand [expr.pre.incr].
#[tactic(auto, unfolding(cx_core::specs::Outcome::either, cx_core::specs::Outcome::gives))]
fn prefix_step<'p>(
    state: &mut State<'p>,
    operator: BinaryOperator,
    of: IntegerType,
    place: Value<'p>,
) -> Result<Value<'p>, Halt>
    ensures { Ran value_of (prefix_applied operator of (value_of place.entry) (state_of state.old)) result (state_of state.new) }
{
    state.spend()?;
    state.step(operator, of, place)?;
    Ok(place)
}

/// `++` or `--` after its operand [expr.post.incr].
#[tactic(auto, unfolding(cx_core::specs::Outcome::either))]
fn postfix_step<'p>(
    state: &mut State<'p>,
    operator: BinaryOperator,
    of: IntegerType,
    place: Value<'p>,
) -> Result<Value<'p>, Halt>
    ensures { Ran value_of (postfix_applied operator of (value_of place.entry) (state_of state.old)) result (state_of state.new) }
{
    state.spend()?;
    state.step(operator, of, place)
}

/// `*` [expr.unary.op].
#[tactic(auto, unfolding(cx_core::specs::Outcome::either, cx_core::specs::Outcome::gives))]
fn indirection<'p>(state: &mut State<'p>, pointer: Value<'p>) -> Result<Value<'p>, Halt>
    ensures { Ran value_of (indirection_applied (value_of pointer.entry) (state_of state.old)) result (state_of state.new) }
{
    state.spend()?;
    let a = state.place_of(pointer)?;
    Ok(Value::Address(a))
}

/// `.` [expr.ref].
#[tactic(auto, unfolding(cx_core::specs::Outcome::either, cx_core::specs::Outcome::gives))]
fn member<'p>(state: &mut State<'p>, leaf: u32, place: Value<'p>) -> Result<Value<'p>, Halt>
    ensures { Ran value_of (member_applied leaf (value_of place.entry) (state_of state.old)) result (state_of state.new) }
{
    state.spend()?;
    let a = state.place_of(place)?;
    state.read_leaf(a)?;
    let member = place_in(a, leaf)?;
    Ok(Value::Address(member))
}

/// The result is stored in a result object.
#[tactic(auto, unfolding(cx_core::specs::Outcome::either, cx_core::specs::Outcome::gives))]
fn result_in_place<'p>(
    state: &mut State<'p>,
    place: Value<'p>,
    value: Value<'p>,
) -> Result<Value<'p>, Halt>
    ensures { Ran value_of (result_in_place (value_of place.entry) (value_of value.entry) (state_of state.old)) result (state_of state.new) }
{
    let a = state.place_of(place)?;
    state.write(a, Some(value))?;
    Ok(value)
}

/// The value of `return` is stored where there is a result object.
#[tactic(auto, unfolding(cx_plain_state::specs::Seen::state_of, cx_core::specs::Outcome::either, cx_core::specs::Outcome::gives, cx_core::specs::Outcome::current_frame))]
fn store_result<'p>(
    machine: &Machine<'p>,
    state: &mut State<'p>,
    value: Value<'p>,
) -> Result<Value<'p>, Halt>
    ensures { Ran value_of (result_applied (program_of machine.now.program.now) (value_of value.entry) (state_of state.old)) result (state_of state.new) }
{
    match state.frame.result {
        None => Ok(value),
        Some(place) => result_in_place(state, place, value),
    }
}

/// What an operation makes of the value of its operand.
#[tactic(auto, unfolding(cx_core::specs::Outcome::either, cx_core::specs::Outcome::gives))]
pub(crate) fn applied<'p>(
    machine: &Machine<'p>,
    state: &mut State<'p>,
    operation: Operation<'p>,
    value: Value<'p>,
) -> Result<Value<'p>, Halt>
    ensures { Ran value_of (applied (program_of machine.now.program.now) (operation_of operation.entry) (value_of value.entry) (state_of state.old)) result (state_of state.new) }
{
    match operation {
        Operation::Unary(operator, of) => unary(state, operator, of, value),
        Operation::Binary(operator, of, left) => binary(state, operator, of, left, value),
        Operation::Cast => cast(state, value),
        Operation::Assign(right) => assign(state, right, value),
        Operation::CompoundAssign(operator, computed, kept, right) => {
            compound_assign(state, operator, computed, kept, right, value)
        }
        Operation::PrefixStep(operator, of) => prefix_step(state, operator, of, value),
        Operation::PostfixStep(operator, of) => postfix_step(state, operator, of, value),
        Operation::Indirection => indirection(state, value),
        Operation::Member(leaf) => member(state, leaf, value),
        Operation::Read(of) => state.read_as(of, value),
        Operation::Convert(to) => state.converted_to(to, value),
        Operation::Putchar => state.putchar(value),
        Operation::PutsComment => state.puts_comment(value),
        Operation::Query(query) => state.query(query, value),
        Operation::StoreResult => store_result(machine, state, value),
    }
}
