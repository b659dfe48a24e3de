//! What arguments give, and how calls with result objects end.
ghost use Rattle.std.specs.Prelude.{[], ◌∷◌};
ghost use Rattle.std.specs.Option.{option_map};
ghost use Rattle.cx_core.specs.Outcome.{end_lifetime};
ghost use Rattle.cx_plain.specs.Step.{doing, step_call_through, step_call_to, step_given, step_temporary_through, step_thrown};
ghost use Rattle.cx_plain_state.specs.Ran.{Ran, itself, values_of};
ghost use Rattle.cx_plain_state.specs.Seen.{address_of, state_of, value_of, exception_of};
ghost use Rattle.cx_mean_parts.specs.Seen.{table_of, program_of, args_of};
ghost use Rattle.cx_mean_parts.specs.Tasks.{callee_of, level_of};
ghost use Rattle.cx_mean_parts.specs.Frames.{frames_of, given_of, argument_frame_of};
ghost use Rattle.cx_core.specs.Calls.{function_held};
ghost use Rattle.cx_core.specs.View.{pointed_result};
ghost use Rattle.cx_mean_parts.specs.Parts.{result_ended, temporary_called};
ghost use Rattle.cx_mean_parts.specs.Steps.{Steps};
ghost use Rattle.cx_plain.specs.Task as tasks;

use crate::expression::call_with_object;
use cx_code::Kind;
use cx_core::{Argument, PointedResult};
use cx_mean_parts::lifetime::end_lifetime;
use cx_mean_parts::machine::Machine;
use cx_mean_parts::task::{CallTask, Callee, ExpressionTask, Keeper, Level, Task};
use cx_mean_parts::values::{object_place, valued};
use cx_mean_parts::waiting::{
    ArgumentFrame, FollowingFrame, Given, Next, ObjectFrame, OperandFrame, Waiting,
};
use cx_plain_state::{Address, Exception, Halt, ObjectType, State, Value, undefined};

/// The function that a pointer holds.
#[tactic(auto, unfolding(cx_core::specs::Outcome::gives, cx_core::specs::Outcome::ends))]
fn function_held(state: &State<'_>, pointer: Value<'_>) -> Result<u32, Halt>
    ensures { Ran itself (function_held (value_of pointer.entry) (state_of state.now)) result (state_of state.now) }
{
    match pointer {
        Value::Function(function) => Ok(function),
        Value::Null => Err(undefined(Kind::Null)),
        Value::Number(_) => Err(undefined(Kind::Mixed)),
        Value::Address(_) => Err(undefined(Kind::Mixed)),
        Value::Violation(_) => Err(undefined(Kind::Mixed)),
    }
}

/// Arguments are evaluated under one more frame.
#[tactic(auto, unfolding(cx_core::specs::Outcome::either, cx_core::specs::Outcome::gives, cx_core::specs::Outcome::ends, cx_core::specs::Outcome::throws))]
fn arguments_under<'p>(
    machine: &Machine<'p>,
    state: &State<'p>,
    level: Level,
    a: &'p [Argument],
    frame: ArgumentFrame<'p>,
) -> Result<Next<'p>, Halt>
    ensures { let p = machine.now.program.now in Steps p (doing (tasks.arguments (level_of level) (args_of a.now)) (argument_frame_of frame.entry ∷ [])) result state.now state.now }
{
    let task = Task::Expression(ExpressionTask::Arguments(level, a));
    machine.under(state, task, Waiting::Argument(frame))
}

/// A call is made from the active one.
#[tactic(auto, unfolding(cx_core::specs::Outcome::either, cx_core::specs::Outcome::gives, cx_core::specs::Outcome::ends, cx_core::specs::Outcome::throws))]
fn make_call<'p>(
    machine: &Machine<'p>,
    state: &State<'p>,
    level: Level,
    callee: Callee<'p>,
    arguments: Vec<Value<'p>>,
    place: Option<Value<'p>>,
    frames: Vec<Waiting<'p>>,
) -> Result<Next<'p>, Halt>
    ensures { let p = machine.now.program.now in Steps p (step_call_to (program_of p) (level_of level) (callee_of callee.entry) (values_of arguments.entry.items) (option_map value_of place.entry) (frames_of (table_of p) frames.entry.items)) result state.now state.now }
{
    match callee {
        Callee::ByName(function) => {
            let task = machine.call_here(state, level, function, true, arguments, place);
            machine.under_all(state, task, frames)
        }
        Callee::ByPointer(pointer) => {
            let function = function_held(state, pointer)?;
            let task = machine.call_here(state, level, function, false, arguments, place);
            machine.under_all(state, task, frames)
        }
    }
}

/// What a pointer holds is called, by what the call gives.
#[tactic(auto, unfolding(cx_core::specs::Outcome::either, cx_core::specs::Outcome::gives, cx_core::specs::Outcome::ends, cx_core::specs::Outcome::throws))]
fn called_through<'p>(
    machine: &Machine<'p>,
    state: &mut State<'p>,
    level: Level,
    kind: PointedResult,
    pointer: Value<'p>,
    a: &'p [Argument],
) -> Result<Next<'p>, Halt>
    ensures { let p = machine.now.program.now in Steps p (step_call_through (program_of p) (level_of level) (pointed_result kind) (value_of pointer.entry) (args_of a.now)) result state.old state.new }
{
    let callee = Callee::ByPointer(pointer);
    match kind {
        PointedResult::Scalar => call_with_object(machine, state, level, callee, a),
        PointedResult::Void | PointedResult::Reference => {
            machine.doing(
                state,
                Task::Call(CallTask::CallOf(level, callee, None, a, None)),
            )
        }
    }
}

/// The pointer that is called is given.
#[tactic(auto, unfolding(cx_core::specs::Outcome::either, cx_core::specs::Outcome::gives, cx_core::specs::Outcome::ends, cx_core::specs::Outcome::throws))]
fn call_through<'p>(
    machine: &Machine<'p>,
    state: &mut State<'p>,
    level: Level,
    kind: PointedResult,
    a: &'p [Argument],
    given: Given<'p>,
) -> Result<Next<'p>, Halt>
    ensures { let p = machine.now.program.now in Steps p (step_given (program_of p) (tasks.call_through (level_of level) (pointed_result kind) (args_of a.now)) (given_of given.entry)) result state.old state.new }
{
    match given {
        Given::Value(v) => called_through(machine, state, level, kind, v, a),
        _ => Err(undefined(Kind::Mixed)),
    }
}

/// The pointer whose call initialises an object is given.
#[tactic(auto, unfolding(cx_core::specs::Outcome::either, cx_core::specs::Outcome::gives, cx_core::specs::Outcome::ends, cx_core::specs::Outcome::throws))]
fn result_through<'p>(
    machine: &Machine<'p>,
    state: &State<'p>,
    level: Level,
    a: &'p [Argument],
    place: Address,
    given: Given<'p>,
) -> Result<Next<'p>, Halt>
    ensures { let p = machine.now.program.now in Steps p (step_given (program_of p) (tasks.result_through (level_of level) (args_of a.now) (address_of place)) (given_of given.entry)) result state.now state.now }
{
    match given {
        Given::Value(v) => {
            let result = Some(Value::Address(place));
            let task = CallTask::CallOf(level, Callee::ByPointer(v), None, a, result);
            let discard = Waiting::Following(FollowingFrame::Discard);
            machine.under(state, Task::Call(task), discard)
        }
        _ => Err(undefined(Kind::Mixed)),
    }
}

/// The temporary of a class is made, and a call of what a pointer holds initialises it.
#[tactic(auto, unfolding(cx_core::specs::Outcome::either, cx_core::specs::Outcome::gives, cx_core::specs::Outcome::ends, cx_core::specs::Outcome::throws))]
fn temporary_called<'p>(
    machine: &Machine<'p>,
    state: &mut State<'p>,
    level: Level,
    class: u32,
    pointer: Value<'p>,
    a: &'p [Argument],
    leaves: usize,
) -> Result<Next<'p>, Halt>
    ensures { let p = machine.now.program.now in Steps p (temporary_called (level_of level) class (value_of pointer.entry) (args_of a.now) leaves) result state.old state.new }
{
    let object = state.make(machine.alloc, leaves)?;
    let result = Some(object_place(object));
    let task = CallTask::CallOf(level, Callee::ByPointer(pointer), None, a, result);
    let discard = Waiting::Following(FollowingFrame::Discard);
    let of = ObjectType::Class(class);
    let made = Waiting::Object(ObjectFrame::Made(Keeper::FullExpression, object, of));
    let place = Waiting::Operand(OperandFrame::PlaceOfObject);
    machine.under_three(state, Task::Call(task), discard, made, place)
}

/// What a pointer holds is called for a temporary of a class.
#[tactic(auto, unfolding(cx_core::specs::Outcome::either, cx_core::specs::Outcome::gives, cx_core::specs::Outcome::ends, cx_core::specs::Outcome::throws))]
fn call_for_temporary<'p>(
    machine: &Machine<'p>,
    state: &mut State<'p>,
    level: Level,
    class: u32,
    pointer: Value<'p>,
    a: &'p [Argument],
) -> Result<Next<'p>, Halt>
    ensures { let p = machine.now.program.now in Steps p (step_temporary_through (program_of p) (level_of level) class (value_of pointer.entry) (args_of a.now)) result state.old state.new }
{
    let leaves = machine.leaves_of(state, ObjectType::Class(class))?;
    temporary_called(machine, state, level, class, pointer, a, leaves)
}

/// The pointer whose call initialises a temporary is given.
#[tactic(auto, unfolding(cx_core::specs::Outcome::either, cx_core::specs::Outcome::gives, cx_core::specs::Outcome::ends, cx_core::specs::Outcome::throws))]
fn temporary_through<'p>(
    machine: &Machine<'p>,
    state: &mut State<'p>,
    level: Level,
    class: u32,
    a: &'p [Argument],
    given: Given<'p>,
) -> Result<Next<'p>, Halt>
    ensures { let p = machine.now.program.now in Steps p (step_given (program_of p) (tasks.temporary_through (level_of level) class (args_of a.now)) (given_of given.entry)) result state.old state.new }
{
    match given {
        Given::Value(v) => call_for_temporary(machine, state, level, class, v, a),
        _ => Err(undefined(Kind::Mixed)),
    }
}

/// A result object ends, and its value is given.
#[tactic(auto, unfolding(cx_core::specs::Outcome::either, cx_core::specs::Outcome::gives, cx_core::specs::Outcome::ends, cx_core::specs::Outcome::throws))]
fn end_result<'p>(
    machine: &Machine<'p>,
    state: &mut State<'p>,
    object: u64,
    v: Value<'p>,
) -> Result<Next<'p>, Halt>
    ensures { let p = machine.now.program.now in Steps p (result_ended object (value_of v.entry)) result state.old state.new }
{
    end_lifetime(state, object)?;
    Ok(Next::Give(Given::Value(v)))
}

/// Arguments are given: one more comes first.
#[tactic(auto, unfolding(cx_core::specs::Outcome::either, cx_core::specs::Outcome::gives, cx_core::specs::Outcome::ends, cx_core::specs::Outcome::throws))]
fn first_argument<'p>(
    machine: &Machine<'p>,
    state: &State<'p>,
    first: Value<'p>,
    given: Given<'p>,
) -> Result<Next<'p>, Halt>
    ensures { let p = machine.now.program.now in Steps p (step_given (program_of p) (tasks.first_argument (value_of first.entry)) (given_of given.entry)) result state.now state.now }
{
    match given {
        Given::Values(mut values) => {
            values.insert(0, first)?;
            Ok(Next::Give(Given::Values(values)))
        }
        _ => Err(undefined(Kind::Mixed)),
    }
}

/// An argument that is bound to a reference is given: the rest is evaluated.
#[tactic(auto, unfolding(cx_core::specs::Outcome::either, cx_core::specs::Outcome::gives, cx_core::specs::Outcome::ends, cx_core::specs::Outcome::throws))]
fn reference_argument<'p>(
    machine: &Machine<'p>,
    state: &State<'p>,
    level: Level,
    rest: &'p [Argument],
    given: Given<'p>,
) -> Result<Next<'p>, Halt>
    ensures { let p = machine.now.program.now in Steps p (step_given (program_of p) (tasks.reference_argument (level_of level) (args_of rest.now)) (given_of given.entry)) result state.now state.now }
{
    match given {
        Given::Value(v) => arguments_under(
            machine,
            state,
            level,
            rest,
            ArgumentFrame::FirstArgument(v),
        ),
        _ => Err(undefined(Kind::Mixed)),
    }
}

/// An argument that is an object is given: the rest is evaluated.
#[tactic(auto, unfolding(cx_core::specs::Outcome::either, cx_core::specs::Outcome::gives, cx_core::specs::Outcome::ends, cx_core::specs::Outcome::throws))]
fn object_argument<'p>(
    machine: &Machine<'p>,
    state: &State<'p>,
    level: Level,
    rest: &'p [Argument],
    given: Given<'p>,
) -> Result<Next<'p>, Halt>
    ensures { let p = machine.now.program.now in Steps p (step_given (program_of p) (tasks.object_argument (level_of level) (args_of rest.now)) (given_of given.entry)) result state.now state.now }
{
    match given {
        Given::Number(object) => {
            let frame = ArgumentFrame::FirstArgument(object_place(object));
            arguments_under(machine, state, level, rest, frame)
        }
        _ => Err(undefined(Kind::Mixed)),
    }
}

/// The arguments of a call are given.
#[tactic(auto, unfolding(cx_core::specs::Outcome::either, cx_core::specs::Outcome::gives, cx_core::specs::Outcome::ends, cx_core::specs::Outcome::throws))]
fn call_with<'p>(
    machine: &Machine<'p>,
    state: &State<'p>,
    level: Level,
    callee: Callee<'p>,
    place: Option<Value<'p>>,
    given: Given<'p>,
) -> Result<Next<'p>, Halt>
    ensures { let p = machine.now.program.now in Steps p (step_given (program_of p) (tasks.call_with (level_of level) (callee_of callee.entry) (option_map value_of place.entry)) (given_of given.entry)) result state.now state.now }
{
    match given {
        Given::Values(values) => {
            let frames = Vec::new(machine.alloc);
            make_call(machine, state, level, callee, values, place, frames)
        }
        _ => Err(undefined(Kind::Mixed)),
    }
}

/// The arguments of a call with a result object are given.
#[tactic(auto, unfolding(cx_core::specs::Outcome::either, cx_core::specs::Outcome::gives, cx_core::specs::Outcome::ends, cx_core::specs::Outcome::throws))]
fn call_into_object<'p>(
    machine: &Machine<'p>,
    state: &State<'p>,
    level: Level,
    callee: Callee<'p>,
    object: u64,
    given: Given<'p>,
) -> Result<Next<'p>, Halt>
    ensures { let p = machine.now.program.now in Steps p (step_given (program_of p) (tasks.call_into_object (level_of level) (callee_of callee.entry) object) (given_of given.entry)) result state.now state.now }
{
    match given {
        Given::Values(values) => {
            let read = Waiting::Argument(ArgumentFrame::ReadResult(object));
            let frames = vec![in machine.alloc; read]?;
            let place = Some(object_place(object));
            make_call(machine, state, level, callee, values, place, frames)
        }
        _ => Err(undefined(Kind::Mixed)),
    }
}

/// The value of a result object is given.
#[tactic(auto, unfolding(cx_core::specs::Outcome::either, cx_core::specs::Outcome::gives, cx_core::specs::Outcome::ends, cx_core::specs::Outcome::throws))]
fn result_given<'p>(
    machine: &Machine<'p>,
    state: &mut State<'p>,
    object: u64,
    given: Given<'p>,
) -> Result<Next<'p>, Halt>
    ensures { let p = machine.now.program.now in Steps p (step_given (program_of p) (tasks.end_result object) (given_of given.entry)) result state.old state.new }
{
    match given {
        Given::Value(v) => end_result(machine, state, object, v),
        _ => Err(undefined(Kind::Mixed)),
    }
}

/// An object ends, and nothing is given.
#[tactic(auto, unfolding(cx_core::specs::Outcome::either, cx_core::specs::Outcome::gives, cx_core::specs::Outcome::ends, cx_core::specs::Outcome::throws))]
fn end_object<'p>(
    machine: &Machine<'p>,
    state: &mut State<'p>,
    object: u64,
) -> Result<Next<'p>, Halt>
    ensures { let p = machine.now.program.now in Steps p (step_given (program_of p) (tasks.end_object object) tasks.nothing) result state.old state.new }
{
    end_lifetime(state, object)?;
    Ok(Next::Give(Given::Nothing))
}

/// What waits for an argument, or for the end of a call, is given something.
#[tactic(auto, unfolding(cx_core::specs::Outcome::either, cx_core::specs::Outcome::gives, cx_core::specs::Outcome::ends, cx_core::specs::Outcome::throws))]
pub fn argument_given<'p>(
    machine: &Machine<'p>,
    state: &mut State<'p>,
    frame: ArgumentFrame<'p>,
    given: Given<'p>,
) -> Result<Next<'p>, Halt>
    ensures { let p = machine.now.program.now in Steps p (step_given (program_of p) (argument_frame_of frame.entry) (given_of given.entry)) result state.old state.new }
{
    match frame {
        ArgumentFrame::ReferenceArgument(level, rest) => reference_argument(
            machine, state, level, rest, given,
        ),
        ArgumentFrame::ObjectArgument(level, rest) => object_argument(
            machine, state, level, rest, given,
        ),
        ArgumentFrame::FirstArgument(first) => first_argument(machine, state, first, given),
        ArgumentFrame::CallThrough(level, kind, a) => call_through(
            machine, state, level, kind, a, given,
        ),
        ArgumentFrame::TemporaryThrough(level, class, a) => temporary_through(
            machine, state, level, class, a, given,
        ),
        ArgumentFrame::ResultThrough(level, a, place) => result_through(
            machine, state, level, a, place, given,
        ),
        ArgumentFrame::CallWith(level, callee, place) => call_with(
            machine, state, level, callee, place, given,
        ),
        ArgumentFrame::CallIntoObject(level, callee, object) => call_into_object(
            machine, state, level, callee, object, given,
        ),
        ArgumentFrame::ReadResult(object) => valued(state.read(Address { object, leaf: 0 })),
        ArgumentFrame::EndResult(object) => result_given(machine, state, object, given),
        ArgumentFrame::EndObject(object) => end_object(machine, state, object),
    }
}

/// An exception passes what waits for an argument, or for the end of a call.
#[tactic(auto, unfolding(cx_core::specs::Outcome::either, cx_core::specs::Outcome::gives, cx_core::specs::Outcome::ends, cx_core::specs::Outcome::throws))]
pub fn argument_thrown<'p>(
    machine: &Machine<'p>,
    state: &mut State<'p>,
    frame: ArgumentFrame<'p>,
    e: Exception,
) -> Result<Next<'p>, Halt>
    ensures { let p = machine.now.program.now in Steps p (step_thrown (program_of p) (argument_frame_of frame.entry) (exception_of e)) result state.old state.new }
{
    match frame {
        ArgumentFrame::EndResult(object) => machine.end_thrown(state, object, e),
        ArgumentFrame::ReferenceArgument(_, _) => Err(Halt::Thrown(e)),
        ArgumentFrame::ObjectArgument(_, _) => Err(Halt::Thrown(e)),
        ArgumentFrame::FirstArgument(_) => Err(Halt::Thrown(e)),
        ArgumentFrame::CallThrough(_, _, _) => Err(Halt::Thrown(e)),
        ArgumentFrame::ResultThrough(_, _, _) => Err(Halt::Thrown(e)),
        ArgumentFrame::TemporaryThrough(_, _, _) => Err(Halt::Thrown(e)),
        ArgumentFrame::CallWith(_, _, _) => Err(Halt::Thrown(e)),
        ArgumentFrame::CallIntoObject(_, _, _) => Err(Halt::Thrown(e)),
        ArgumentFrame::ReadResult(_) => Err(Halt::Thrown(e)),
        ArgumentFrame::EndObject(_) => Err(Halt::Thrown(e)),
    }
}
