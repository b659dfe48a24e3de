//! What predicates and the parts of calls give.
ghost use Rattle.std.specs.Prelude.{◌≡◌, Some, IfOk, OnOk};
ghost use Rattle.std.specs.Option.{option_map};
ghost use Rattle.cx_core.specs.Calls.{value_given};
ghost use Rattle.cx_plain.specs.Step.{no_calls, step_postconditions, step_posted, step_given, step_thrown};
ghost use Rattle.cx_plain.specs.Task as tasks;
ghost use Rattle.cx_plain_state.specs.Ran.{Ran};
ghost use Rattle.cx_core.specs.Program.{Program};
ghost use Rattle.cx_plain_state.specs.Seen.{address_of, exception_of, state_of, value_of};
ghost use Rattle.cx_core.specs.View.{result_of};
ghost use Rattle.cx_mean_parts.specs.Seen.{table_of, program_of, function_of};
ghost use Rattle.cx_mean_parts.specs.Tasks.{level_of, call_of, task_of};
ghost use Rattle.cx_mean_parts.specs.Frames.{completion_of, given_of, call_frame_of, waiting_of};
ghost use Rattle.cx_mean_parts.specs.CallParts.{destruction, place_given, under_result};
ghost use Rattle.cx_mean_parts.specs.Steps.{Steps};

use crate::checks::{threw, verdict};
use cx_code::{DetectionMode, Ending, Kind, Verdict};
use cx_core::ResultKind;
use cx_mean_parts::machine::Machine;
use cx_mean_parts::program::Function;
use cx_mean_parts::task::{Call, CallTask, Level, ObjectTask, Task};
use cx_mean_parts::values::valued;
use cx_mean_parts::waiting::{CallFrame, Completion, Given, LeavingFrame, Left, Next, Waiting};
use cx_plain_state::{
    Address, Answer, Event, Exception, Frame, Halt, Report, State, Value, undefined,
};
use std::alloc::AllocError;
use std::mem;

/// The place that a reference or pointer denotes.
#[tactic(auto, unfolding(cx_core::specs::Outcome::either, cx_core::specs::Outcome::gives, cx_core::specs::Outcome::ends))]
pub(crate) fn place_given<'p>(state: &State<'p>, place: Option<Value<'p>>) -> Result<Address, Halt>
    ensures { Ran address_of (place_given (option_map value_of place.entry) (state_of state.now)) result (state_of state.now) }
{
    match place {
        Some(Value::Address(a)) => Ok(a),
        Some(Value::Null) => Err(undefined(Kind::Null)),
        _ => Err(undefined(Kind::Mixed)),
    }
}

/// The value of a call, by how its body was left.
#[tactic(auto, unfolding(cx_core::specs::Outcome::gives, cx_core::specs::Outcome::ends))]
fn value_given<'p>(
    state: &State<'p>,
    kind: ResultKind,
    completion: Completion<'p>,
) -> Result<Value<'p>, Halt>
    ensures { (p : Program) → Ran value_of (value_given p no_calls (result_of kind) (completion_of completion.entry) (state_of state.now)) result (state_of state.now) }
{
    match (kind, completion) {
        (_, Completion::Return(v)) => Ok(v),
        (ResultKind::Void, _) => Ok(Value::Null),
        (ResultKind::ExitStatus, _) => Ok(Value::Number(0)),
        _ => Err(undefined(Kind::Flow)),
    }
}

/// The end of a destruction is told.
#[tactic(auto, unfolding(cx_core::specs::Outcome::either, cx_core::specs::Outcome::gives))]
fn destruction<'p>(state: &mut State<'p>, name: &'p [u8], a: Address) -> Result<Value<'p>, Halt>
    ensures { Ran value_of (destruction name.now (address_of a) (state_of state.old)) result (state_of state.new) }
{
    state.append(Event::Destroyed(name, a))?;
    Ok(Value::Null)
}

/// The result of the active call is set, which a postcondition names. The frame that goes back is given.
#[tactic(auto, unfolding(cx_plain_state::specs::Seen::state_of))]
fn enter_result<'p>(
    machine: &Machine<'p>,
    state: &mut State<'p>,
    v: Value<'p>,
) -> Result<Waiting<'p>, AllocError>
    ensures frame { IfOk result (λ w. waiting_of (table_of machine.now.program.now) w ≡ tasks.within (state_of state.old).frame) }
    ensures entered { OnOk result (state_of state.new ≡ record (state_of state.old) { frame = record ((state_of state.old).frame) { result = Some (value_of v.entry) } }) }
{
    let unit = state.frame.unit;
    let variables = Vec::from_slice(machine.alloc, &state.frame.variables)?;
    let result = Some(v);
    let outer = mem::replace(
        &mut state.frame,
        Frame {
            unit,
            variables,
            result,
        },
    );
    Ok(Waiting::Leaving(LeavingFrame::Within(outer)))
}

/// A task is done while the result of the active call is set.
#[tactic(auto, unfolding(cx_core::specs::Outcome::either, cx_core::specs::Outcome::gives, cx_core::specs::Outcome::ends, cx_core::specs::Outcome::throws))]
fn under_result<'p>(
    machine: &Machine<'p>,
    state: &mut State<'p>,
    task: Task<'p>,
    posted: Waiting<'p>,
    v: Value<'p>,
) -> Result<Next<'p>, Halt>
    ensures { let p = machine.now.program.now in let n = table_of p in Steps p (under_result (task_of n task.entry) (waiting_of n posted.entry) (value_of v.entry)) result state.old state.new }
{
    let within = enter_result(machine, state, v)?;
    machine.under_two(state, task, within, posted)
}

/// The checks after a body that has given a value.
#[tactic(auto, unfolding(cx_core::specs::Outcome::either, cx_core::specs::Outcome::gives, cx_core::specs::Outcome::ends, cx_core::specs::Outcome::throws))]
pub(crate) fn postconditions<'p>(
    machine: &Machine<'p>,
    state: &mut State<'p>,
    level: Level,
    kind: ResultKind,
    f: &'p Function,
    c: Call<'p>,
    v: Value<'p>,
) -> Result<Next<'p>, Halt>
    ensures { let p = machine.now.program.now in let n = table_of p in Steps p (step_postconditions (program_of p) (level_of level) (result_of kind) (function_of n f.now) (call_of c.entry) (value_of v.entry)) result state.old state.new }
{
    let Call {
        function,
        caller,
        unit,
        reports,
        arguments: _,
        result: place,
    } = c;
    let posted = Waiting::Call(CallFrame::Posted(level, f.result, place, v));
    let arguments = Vec::new(machine.alloc);
    let call = Call {
        function,
        caller,
        unit,
        reports,
        arguments,
        result: None,
    };
    let task = Task::Call(CallTask::After(level, f, call));
    match kind {
        ResultKind::Reference => under_result(machine, state, task, posted, v),
        _ => machine.under(state, task, posted),
    }
}

/// The checks after a body were left by an exception.
#[tactic(auto, unfolding(cx_core::specs::Outcome::either, cx_core::specs::Outcome::gives, cx_core::specs::Outcome::ends, cx_core::specs::Outcome::throws))]
pub(crate) fn posted<'p>(
    machine: &Machine<'p>,
    state: &mut State<'p>,
    level: Level,
    kind: ResultKind,
    place: Option<Value<'p>>,
    e: Exception,
) -> Result<Next<'p>, Halt>
    ensures { let p = machine.now.program.now in Steps p (step_posted (program_of p) (level_of level) (result_of kind) (option_map value_of place.entry) (exception_of e)) result state.old state.new }
{
    match kind {
        ResultKind::ClassObject(class) => {
            let a = place_given(state, place)?;
            let task = Task::Object(ObjectTask::Destroying(level, class, a));
            let frame = LeavingFrame::AsLeft(Left::Thrown(e));
            machine.under(state, task, Waiting::Leaving(frame))
        }
        _ => Err(Halt::Thrown(e)),
    }
}

/// What waits for a predicate or a part of a call is given something.
#[tactic(auto, unfolding(cx_core::specs::Outcome::either, cx_core::specs::Outcome::gives, cx_core::specs::Outcome::ends, cx_core::specs::Outcome::throws))]
pub fn call_given<'p>(
    machine: &Machine<'p>,
    state: &mut State<'p>,
    frame: CallFrame<'p>,
    given: Given<'p>,
) -> Result<Next<'p>, Halt>
    ensures { let p = machine.now.program.now in let n = table_of p in Steps p (step_given (program_of p) (call_frame_of n frame.entry) (given_of given.entry)) result state.old state.new }
{
    match (frame, given) {
        (CallFrame::Verdict(level, assertion, semantic), Given::Truth(holds)) => verdict(
            machine, state, level, assertion, semantic, holds,
        ),
        (CallFrame::Terminate, _) => Err(Halt::Over(Answer::Ended(Ending::ContractTerminated))),
        (CallFrame::ValueGiven(kind), Given::Completion(completion)) => valued(value_given(
            state, kind, completion,
        )),
        (CallFrame::Postconditions(level, f, c), Given::Value(v)) => postconditions(
            machine, state, level, f.result, f, c, v,
        ),
        (CallFrame::Posted(_, _, _, v), _) => Ok(Next::Give(Given::Value(v))),
        (CallFrame::Destroyed(name, a), _) => valued(destruction(state, name, a)),
        _ => Err(undefined(Kind::Mixed)),
    }
}

/// An exception passes what waits for a predicate or a part of a call.
#[tactic(auto, unfolding(cx_core::specs::Outcome::either, cx_core::specs::Outcome::gives, cx_core::specs::Outcome::ends, cx_core::specs::Outcome::throws))]
pub fn call_thrown<'p>(
    machine: &Machine<'p>,
    state: &mut State<'p>,
    frame: CallFrame<'p>,
    e: Exception,
) -> Result<Next<'p>, Halt>
    ensures { let p = machine.now.program.now in let n = table_of p in Steps p (step_thrown (program_of p) (call_frame_of n frame.entry) (exception_of e)) result state.old state.new }
{
    match frame {
        CallFrame::Verdict(level, assertion, semantic) => {
            state.append(Event::Verdict(Verdict::Threw))?;
            let mode = DetectionMode::EvaluationException;
            threw(
                machine,
                state,
                level,
                semantic,
                e,
                Report {
                    assertion,
                    mode,
                    semantic,
                },
            )
        }
        CallFrame::Posted(level, kind, place, _) => posted(machine, state, level, kind, place, e),
        _ => Err(Halt::Thrown(e)),
    }
}
