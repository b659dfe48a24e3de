//! How scopes, full-expressions, constructors, handlers and calls are entered and left.
ghost use Rattle.std.specs.Prelude.{◌≡◌, [], ◌∷◌, map, IfOk, OnOk, IfErr};
ghost use Rattle.cx_core.specs.Leaving.{is_among};
ghost use Rattle.cx_plain.specs.Step.{doing, left_by, no_calls, step_given, step_thrown};
ghost use Rattle.cx_plain.specs.Task as tasks;
ghost use Rattle.cx_plain_state.specs.declared.answer.Halt.TheVariants.{Want};
ghost use Rattle.cx_plain_state.specs.Ran.{Ran};
ghost use Rattle.cx_plain_state.specs.Seen.{state_of, exception_of, exceptions_of, held_of, living_of, livings_of};
ghost use Rattle.cx_mean_parts.specs.Seen.{table_of, program_of};
ghost use Rattle.cx_mean_parts.specs.Tasks.{level_of};
ghost use Rattle.cx_mean_parts.specs.Frames.{given_of, left_of, leaving_frame_of, waiting_of, next_of};
ghost use Rattle.cx_mean_parts.specs.Parts.{scope_left, full_expression_left, fields_undone, released, handler_left};
ghost use Rattle.cx_mean_parts.specs.Steps.{Steps};

use cx_code::Ending;
use cx_mean_parts::machine::Machine;
use cx_mean_parts::task::{Level, ObjectTask, Task};
use cx_mean_parts::waiting::{Given, LeavingFrame, Left, Next, Waiting};
use cx_plain_state::{Answer, Exception, Halt, Living, State};

/// Whether an exception is among others.
#[tactic(auto, unfolding(cx_core::specs::Outcome::either, cx_core::specs::Outcome::gives, cx_core::specs::Outcome::ends, cx_core::specs::Outcome::throws))]
fn is_among<'p>(machine: &Machine<'p>, e: Exception, others: &[Exception]) -> bool
    ensures { result ≡ is_among (program_of machine.now.program.now) no_calls (exception_of e) (held_of others.now) }
{
    match others.split_first() {
        None => false,
        Some((first, rest)) => e.object == first.object || is_among(machine, e, rest),
    }
}

/// Whether an exception is one that is thrown, or among others.
#[tactic(auto, unfolding(cx_core::specs::Outcome::either, cx_core::specs::Outcome::gives, cx_core::specs::Outcome::ends, cx_core::specs::Outcome::throws))]
fn is_among_with<'p>(
    machine: &Machine<'p>,
    e: Exception,
    thrown: Exception,
    others: &[Exception],
) -> bool
    ensures { result ≡ is_among (program_of machine.now.program.now) no_calls (exception_of e) (exception_of thrown ∷ held_of others.now) }
{
    e.object == thrown.object || is_among(machine, e, others)
}

/// How a part was left is passed on.
#[tactic(auto, unfolding(cx_core::specs::Outcome::either, cx_core::specs::Outcome::gives, cx_core::specs::Outcome::ends, cx_core::specs::Outcome::throws))]
fn passed<'p>(machine: &Machine<'p>, state: &State<'p>, left: Left<'p>) -> Result<Next<'p>, Halt>
    ensures { Ran (next_of (table_of machine.now.program.now)) (left_by (left_of left.entry) (state_of state.now)) result (state_of state.now) }
{
    match left {
        Left::Given(given) => Ok(Next::Give(given)),
        Left::Thrown(e) => Err(Halt::Thrown(e)),
    }
}

/// Objects are ended under one more frame.
#[tactic(auto, unfolding(cx_core::specs::Outcome::either, cx_core::specs::Outcome::gives, cx_core::specs::Outcome::ends, cx_core::specs::Outcome::throws))]
fn ending_under<'p>(
    machine: &Machine<'p>,
    state: &State<'p>,
    level: Level,
    living: &[Living],
    frame: LeavingFrame<'p>,
) -> Result<Next<'p>, Halt>
    ensures { Ran (next_of (table_of machine.now.program.now)) (doing (tasks.ending_each (level_of level) (map living_of living.now)) (leaving_frame_of frame.entry ∷ []) (state_of state.now)) result (state_of state.now) }
{
    let living = Vec::from_slice(machine.alloc, living)?;
    let task = Task::Object(ObjectTask::EndingEach(level, living));
    machine.under(state, task, Waiting::Leaving(frame))
}

/// A scope is left: its objects are ended.
#[tactic(auto, unfolding(cx_plain_state::specs::Seen::state_of, cx_core::specs::Outcome::either, cx_core::specs::Outcome::current_living))]
fn leave_scope<'p>(
    machine: &Machine<'p>,
    state: &State<'p>,
    level: Level,
    outer: Vec<Living>,
    left: Left<'p>,
) -> Result<Next<'p>, Halt>
    ensures { Ran (next_of (table_of machine.now.program.now)) (scope_left (level_of level) (livings_of outer) (left_of left.entry) (state_of state.now)) result (state_of state.now) }
{
    let frame = LeavingFrame::RestoreLiving(outer, left);
    ending_under(machine, state, level, &state.living, frame)
}

/// A full-expression is left: its temporaries are ended.
#[tactic(auto, unfolding(cx_plain_state::specs::Seen::state_of, cx_core::specs::Outcome::either, cx_core::specs::Outcome::current_temporaries))]
fn leave_full_expression<'p>(
    machine: &Machine<'p>,
    state: &State<'p>,
    level: Level,
    outer: Vec<Living>,
    left: Left<'p>,
) -> Result<Next<'p>, Halt>
    ensures { Ran (next_of (table_of machine.now.program.now)) (full_expression_left (level_of level) (livings_of outer) (left_of left.entry) (state_of state.now)) result (state_of state.now) }
{
    let frame = LeavingFrame::RestoreTemporaries(outer, left);
    ending_under(machine, state, level, &state.temporaries, frame)
}

/// A constructor is left by an exception: the fields that it has constructed are ended.
#[tactic(auto, unfolding(cx_plain_state::specs::Seen::state_of, cx_core::specs::Outcome::either, cx_core::specs::Outcome::current_living))]
fn undo_fields<'p>(
    machine: &Machine<'p>,
    state: &State<'p>,
    level: Level,
    outer: Vec<Living>,
    e: Exception,
) -> Result<Next<'p>, Halt>
    ensures { Ran (next_of (table_of machine.now.program.now)) (fields_undone (level_of level) (livings_of outer) (exception_of e) (state_of state.now)) result (state_of state.now) }
{
    let frame = LeavingFrame::UndoneFields(outer, e);
    ending_under(machine, state, level, &state.living, frame)
}

/// An exception that a handler no longer holds ends, unless it is among others.
#[tactic(auto, unfolding(cx_core::specs::Outcome::either, cx_core::specs::Outcome::gives, cx_core::specs::Outcome::ends, cx_core::specs::Outcome::throws))]
fn release<'p>(
    machine: &Machine<'p>,
    state: &State<'p>,
    level: Level,
    e: Exception,
    among: bool,
    left: Left<'p>,
) -> Result<Next<'p>, Halt>
    ensures { Ran (next_of (table_of machine.now.program.now)) (released (level_of level) (exception_of e) among (left_of left.entry) (state_of state.now)) result (state_of state.now) }
{
    if among {
        return passed(machine, state, left);
    }
    let task = Task::Object(ObjectTask::Ending(level, Living::Whole(e.object, e.of)));
    machine.under(state, task, Waiting::Leaving(LeavingFrame::AsLeft(left)))
}

/// A handler is left: others hold exceptions from here on.
#[tactic(auto, unfolding(cx_core::specs::Outcome::either, cx_core::specs::Outcome::gives, cx_core::specs::Outcome::ends, cx_core::specs::Outcome::throws))]
fn leave_handler<'p>(
    machine: &Machine<'p>,
    state: &mut State<'p>,
    level: Level,
    e: Exception,
    others: Vec<Exception>,
    among: bool,
    left: Left<'p>,
) -> Result<Next<'p>, Halt>
    ensures { Ran (next_of (table_of machine.now.program.now)) (handler_left (level_of level) (exception_of e) (exceptions_of others) among (left_of left.entry) (state_of state.old)) result (state_of state.new) }
{
    drop(state.replace_held(others));
    release(machine, state, level, e, among, left)
}

/// What is left is given something.
#[tactic(auto, unfolding(cx_core::specs::Outcome::either, cx_core::specs::Outcome::gives, cx_core::specs::Outcome::ends, cx_core::specs::Outcome::throws))]
pub fn leaving_given<'p>(
    machine: &Machine<'p>,
    state: &mut State<'p>,
    frame: LeavingFrame<'p>,
    given: Given<'p>,
) -> Result<Next<'p>, Halt>
    ensures { let p = machine.now.program.now in Steps p (step_given (program_of p) (leaving_frame_of frame.entry) (given_of given.entry)) result state.old state.new }
{
    match frame {
        LeavingFrame::LeavingScope(level, outer) => leave_scope(
            machine,
            state,
            level,
            outer,
            Left::Given(given),
        ),
        LeavingFrame::LeavingFull(level, outer) => leave_full_expression(
            machine,
            state,
            level,
            outer,
            Left::Given(given),
        ),
        LeavingFrame::RestoreLiving(outer, left) => {
            drop(state.replace_living(outer));
            passed(machine, state, left)
        }
        LeavingFrame::RestoreTemporaries(outer, left) => {
            drop(state.replace_temporaries(outer));
            passed(machine, state, left)
        }
        LeavingFrame::Constructing(_, outer) => {
            drop(state.replace_living(outer));
            Ok(Next::Give(given))
        }
        LeavingFrame::UndoneFields(outer, e) => {
            drop(state.replace_living(outer));
            Err(Halt::Thrown(e))
        }
        LeavingFrame::Holding(level, e, others) => {
            let among = is_among(machine, e, &others);
            leave_handler(machine, state, level, e, others, among, Left::Given(given))
        }
        LeavingFrame::AsLeft(left) => passed(machine, state, left),
        LeavingFrame::Within(frame) => {
            drop(state.replace_frame(frame));
            Ok(Next::Give(given))
        }
        LeavingFrame::EdgeIf(_) => Ok(Next::Give(given)),
    }
}

/// What is left is left by an exception.
#[tactic(auto, unfolding(cx_core::specs::Outcome::either, cx_core::specs::Outcome::gives, cx_core::specs::Outcome::ends, cx_core::specs::Outcome::throws))]
pub fn leaving_thrown<'p>(
    machine: &Machine<'p>,
    state: &mut State<'p>,
    frame: LeavingFrame<'p>,
    e: Exception,
) -> Result<Next<'p>, Halt>
    ensures { let p = machine.now.program.now in Steps p (step_thrown (program_of p) (leaving_frame_of frame.entry) (exception_of e)) result state.old state.new }
{
    match frame {
        LeavingFrame::LeavingScope(level, outer) => leave_scope(
            machine,
            state,
            level,
            outer,
            Left::Thrown(e),
        ),
        LeavingFrame::LeavingFull(level, outer) => leave_full_expression(
            machine,
            state,
            level,
            outer,
            Left::Thrown(e),
        ),
        LeavingFrame::Constructing(level, outer) => undo_fields(machine, state, level, outer, e),
        LeavingFrame::UndoneFields(outer, _) => {
            drop(state.replace_living(outer));
            Err(Halt::Thrown(e))
        }
        LeavingFrame::Holding(level, held, others) => {
            let among = is_among_with(machine, held, e, &others);
            leave_handler(machine, state, level, held, others, among, Left::Thrown(e))
        }
        LeavingFrame::Within(frame) => {
            drop(state.replace_frame(frame));
            Err(Halt::Thrown(e))
        }
        LeavingFrame::EdgeIf(true) => Err(Halt::Over(Answer::Ended(Ending::Terminated))),
        LeavingFrame::EdgeIf(false) => Err(Halt::Thrown(e)),
        LeavingFrame::RestoreLiving(_, _) => Err(Halt::Thrown(e)),
        LeavingFrame::RestoreTemporaries(_, _) => Err(Halt::Thrown(e)),
        LeavingFrame::AsLeft(_) => Err(Halt::Thrown(e)),
    }
}
