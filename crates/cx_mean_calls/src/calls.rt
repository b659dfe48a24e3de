//! Calls.
ghost use Rattle.std.specs.Prelude.{◌≡◌, ◌∷◌, [], IfOk};
ghost use Rattle.std.specs.Option.{option_map};
ghost use Rattle.cx_plain.specs.Task as tasks;
ghost use Rattle.cx_plain.specs.Step.{step_active, step_calling, step_counted, step_task, this_first};
ghost use Rattle.cx_plain_state.specs.Seen.{value_of, address_of};
ghost use Rattle.cx_plain_state.specs.Ran.{values_of};
ghost use Rattle.cx_core.specs.View.{result_of};
ghost use Rattle.cx_mean_parts.specs.Seen.{stmts_of, table_of, program_of, args_of, function_of};
ghost use Rattle.cx_mean_parts.specs.Tasks.{level_of, call_of, callee_of, call_task_of};
ghost use Rattle.cx_mean_parts.specs.Frames.{frames_of, waiting_of};
ghost use Rattle.cx_mean_parts.specs.Steps.{Steps};

use crate::acting::{enter, reported};
use crate::asked::{
    caller_postconditions, caller_preconditions, class_count, function_with, is_implicit,
};
use cx_code::{Ending, Kind, Party};
use cx_core::{Argument, ResultKind, Statement};
use cx_mean_parts::machine::Machine;
use cx_mean_parts::program::Function;
use cx_mean_parts::task::{
    Call, CallTask, Callee, CheckTask, ExpressionTask, Level, Row, StatementTask, Task,
};
use cx_mean_parts::waiting::{ArgumentFrame, CallFrame, FollowingFrame, Given, Next, Waiting};
use cx_plain_state::{Address, Answer, Halt, State, Value, undefined};
use std::alloc::AllocError;

/// A function that is defined in the source, or implicitly, is called.
#[tactic(auto, unfolding(cx_core::specs::Outcome::either, cx_core::specs::Outcome::gives, cx_core::specs::Outcome::ends, cx_core::specs::Outcome::throws))]
pub(crate) fn calling<'p>(
    machine: &Machine<'p>,
    state: &mut State<'p>,
    implicit: u64,
    depth: u32,
    c: Call<'p>,
) -> Result<Next<'p>, Halt>
    ensures { let p = machine.now.program.now in Steps p (step_calling (program_of p) implicit depth (call_of c.entry)) result state.old state.new }
{
    let Some(implicit) = implicit.checked_sub(1) else {
        return Err(undefined(Kind::Mixed));
    };
    if is_implicit(machine, c.function) {
        let level = Level {
            counted: depth,
            implicit,
        };
        return active(machine, state, level, c);
    }
    machine.doing(state, Task::Call(CallTask::Counted(depth, c)))
}

/// A call that is counted.
#[tactic(auto, unfolding(cx_core::specs::Outcome::either, cx_core::specs::Outcome::gives, cx_core::specs::Outcome::ends, cx_core::specs::Outcome::throws))]
pub(crate) fn counted<'p>(
    machine: &Machine<'p>,
    state: &mut State<'p>,
    depth: u32,
    c: Call<'p>,
) -> Result<Next<'p>, Halt>
    ensures { let p = machine.now.program.now in Steps p (step_counted (program_of p) depth (call_of c.entry)) result state.old state.new }
{
    let Some(counted) = depth.checked_sub(1) else {
        return Err(Halt::Over(Answer::Ended(Ending::TooDeep)));
    };
    let implicit = class_count(machine) + 1;
    active(machine, state, Level { counted, implicit }, c)
}

/// A call becomes active.
#[tactic(auto, unfolding(cx_core::specs::Outcome::either, cx_core::specs::Outcome::gives, cx_core::specs::Outcome::ends, cx_core::specs::Outcome::throws))]
pub(crate) fn active<'p>(
    machine: &Machine<'p>,
    state: &mut State<'p>,
    level: Level,
    c: Call<'p>,
) -> Result<Next<'p>, Halt>
    ensures { let p = machine.now.program.now in Steps p (step_active (program_of p) (level_of level) (call_of c.entry)) result state.old state.new }
{
    state.spend()?;
    let f = function_with(machine, state, c.function)?;
    reported(state, c.reports)?;
    enter(machine, state, level, f, c)
}

/// The frames of the arguments of a call, `this` first.
#[tactic(auto, unfolding(cx_core::specs::Outcome::either, cx_core::specs::Outcome::gives, cx_core::specs::Outcome::ends, cx_core::specs::Outcome::throws))]
fn argument_frames<'p>(
    machine: &Machine<'p>,
    this: Option<Address>,
    scope: Waiting<'p>,
    call: Waiting<'p>,
) -> Result<Vec<Waiting<'p>>, AllocError>
    ensures { let n = table_of machine.now.program.now in IfOk result (λ all. frames_of n all.items ≡ this_first (option_map address_of this) (waiting_of n call.entry ∷ waiting_of n scope.entry ∷ [])) }
{
    let frames = vec![in machine.alloc; scope, call]?;
    match this {
        None => Ok(frames),
        Some(a) => {
            let frame = ArgumentFrame::FirstArgument(Value::Address(a));
            machine.framed(frames, Waiting::Argument(frame))
        }
    }
}

/// The arguments of a call are evaluated in a scope of their own, then it is called.
#[tactic(auto, unfolding(cx_core::specs::Outcome::either, cx_core::specs::Outcome::gives, cx_core::specs::Outcome::ends, cx_core::specs::Outcome::throws))]
pub(crate) fn call_of<'p>(
    machine: &Machine<'p>,
    state: &mut State<'p>,
    level: Level,
    callee: Callee<'p>,
    this: Option<Address>,
    a: &'p [Argument],
    place: Option<Value<'p>>,
) -> Result<Next<'p>, Halt>
    ensures { let p = machine.now.program.now in Steps p (step_task (program_of p) (tasks.call_of (level_of level) (callee_of callee.entry) (option_map address_of this) (args_of a.now) (option_map value_of place.entry))) result state.old state.new }
{
    let scope = machine.enter_scope(state, level);
    let call = Waiting::Argument(ArgumentFrame::CallWith(level, callee, place));
    let frames = argument_frames(machine, this, scope, call)?;
    let task = Task::Expression(ExpressionTask::Arguments(level, a));
    machine.under_all(state, task, frames)
}

/// The same of a call with a result object.
#[tactic(auto, unfolding(cx_core::specs::Outcome::either, cx_core::specs::Outcome::gives, cx_core::specs::Outcome::ends, cx_core::specs::Outcome::throws))]
pub(crate) fn call_into<'p>(
    machine: &Machine<'p>,
    state: &mut State<'p>,
    level: Level,
    callee: Callee<'p>,
    a: &'p [Argument],
    object: u64,
) -> Result<Next<'p>, Halt>
    ensures { let p = machine.now.program.now in Steps p (step_task (program_of p) (tasks.call_into (level_of level) (callee_of callee.entry) (args_of a.now) object)) result state.old state.new }
{
    let scope = machine.enter_scope(state, level);
    let call = Waiting::Argument(ArgumentFrame::CallIntoObject(level, callee, object));
    let task = Task::Expression(ExpressionTask::Arguments(level, a));
    machine.under_two(state, task, call, scope)
}

/// A constructor is called on an object.
#[tactic(auto, unfolding(cx_core::specs::Outcome::either, cx_core::specs::Outcome::gives, cx_core::specs::Outcome::ends, cx_core::specs::Outcome::throws))]
pub(crate) fn construct_at<'p>(
    machine: &Machine<'p>,
    state: &mut State<'p>,
    level: Level,
    function: u32,
    a: Address,
    arguments: Vec<Value<'p>>,
) -> Result<Next<'p>, Halt>
    ensures { let p = machine.now.program.now in Steps p (step_task (program_of p) (tasks.construct_at (level_of level) function (address_of a) (values_of arguments.entry.items))) result state.old state.new }
{
    let mut arguments = arguments;
    arguments.insert(0, Value::Address(a))?;
    let task = machine.call_here(state, level, function, true, arguments, None);
    machine.under(state, task, Waiting::Following(FollowingFrame::Discard))
}

/// The checks before a body.
#[tactic(auto, unfolding(cx_core::specs::Outcome::either, cx_core::specs::Outcome::gives, cx_core::specs::Outcome::ends, cx_core::specs::Outcome::throws))]
pub(crate) fn before<'p>(
    machine: &Machine<'p>,
    state: &mut State<'p>,
    level: Level,
    f: &'p Function,
    c: Call<'p>,
) -> Result<Next<'p>, Halt>
    ensures { let p = machine.now.program.now in let n = table_of p in Steps p (step_task (program_of p) (tasks.before (level_of level) (function_of n f.now) (call_of c.entry))) result state.old state.new }
{
    let row = Row::Specifiers(&f.preconditions);
    let rest = machine.then(Task::Check(CheckTask::Checks(level, Party::Definer, row)))?;
    machine.under(state, Task::Call(CallTask::CallerBefore(level, c)), rest)
}

/// The checks of the Caller before a body, if there is one.
#[tactic(auto, unfolding(cx_core::specs::Outcome::either, cx_core::specs::Outcome::gives, cx_core::specs::Outcome::ends, cx_core::specs::Outcome::throws))]
pub(crate) fn caller_before<'p>(
    machine: &Machine<'p>,
    state: &mut State<'p>,
    level: Level,
    c: Call<'p>,
) -> Result<Next<'p>, Halt>
    ensures { let p = machine.now.program.now in Steps p (step_task (program_of p) (tasks.caller_before (level_of level) (call_of c.entry))) result state.old state.new }
{
    match c.caller {
        None => Ok(Next::Give(Given::Nothing)),
        Some(unit) => {
            let row = Row::Specifiers(caller_preconditions(machine, unit, c.function));
            let task = Task::Check(CheckTask::Checks(level, Party::Caller, row));
            let within = machine.enter_unit(state, unit)?;
            machine.under(state, task, within)
        }
    }
}

/// The checks after a body.
#[tactic(auto, unfolding(cx_core::specs::Outcome::either, cx_core::specs::Outcome::gives, cx_core::specs::Outcome::ends, cx_core::specs::Outcome::throws))]
pub(crate) fn after<'p>(
    machine: &Machine<'p>,
    state: &mut State<'p>,
    level: Level,
    f: &'p Function,
    c: Call<'p>,
) -> Result<Next<'p>, Halt>
    ensures { let p = machine.now.program.now in let n = table_of p in Steps p (step_task (program_of p) (tasks.after (level_of level) (function_of n f.now) (call_of c.entry))) result state.old state.new }
{
    let row = Row::Specifiers(&f.postconditions);
    let task = Task::Check(CheckTask::Checks(level, Party::Definer, row));
    let rest = machine.then(Task::Call(CallTask::CallerAfter(level, c)))?;
    machine.under(state, task, rest)
}

/// The checks of the Caller after a body, if there is one.
#[tactic(auto, unfolding(cx_core::specs::Outcome::either, cx_core::specs::Outcome::gives, cx_core::specs::Outcome::ends, cx_core::specs::Outcome::throws))]
pub(crate) fn caller_after<'p>(
    machine: &Machine<'p>,
    state: &mut State<'p>,
    level: Level,
    c: Call<'p>,
) -> Result<Next<'p>, Halt>
    ensures { let p = machine.now.program.now in Steps p (step_task (program_of p) (tasks.caller_after (level_of level) (call_of c.entry))) result state.old state.new }
{
    match c.caller {
        None => Ok(Next::Give(Given::Nothing)),
        Some(unit) => {
            let row = Row::Specifiers(caller_postconditions(machine, unit, c.function));
            let task = Task::Check(CheckTask::Checks(level, Party::Caller, row));
            let within = machine.enter_unit(state, unit)?;
            machine.under(state, task, within)
        }
    }
}

/// The body of a function.
#[tactic(auto, unfolding(cx_core::specs::Outcome::either, cx_core::specs::Outcome::gives, cx_core::specs::Outcome::ends, cx_core::specs::Outcome::throws))]
pub(crate) fn body<'p>(
    machine: &Machine<'p>,
    state: &mut State<'p>,
    level: Level,
    kind: ResultKind,
    b: &'p [Statement],
) -> Result<Next<'p>, Halt>
    ensures { let p = machine.now.program.now in let n = table_of p in Steps p (step_task (program_of p) (tasks.body (level_of level) (result_of kind) (stmts_of n b.now))) result state.old state.new }
{
    let statements = machine.statement_of(StatementTask::Statements(level, b))?;
    let scope = machine.enter_scope(state, level);
    let given = Waiting::Call(CallFrame::ValueGiven(kind));
    machine.under_two(state, statements, scope, given)
}

/// A call, or a part of one.
#[tactic(auto, unfolding(cx_core::specs::Outcome::either, cx_core::specs::Outcome::gives, cx_core::specs::Outcome::ends, cx_core::specs::Outcome::throws))]
pub fn call_task<'p>(
    machine: &Machine<'p>,
    state: &mut State<'p>,
    task: CallTask<'p>,
) -> Result<Next<'p>, Halt>
    ensures { let p = machine.now.program.now in let n = table_of p in Steps p (step_task (program_of p) (call_task_of n task.entry)) result state.old state.new }
{
    match task {
        CallTask::Calling(implicit, depth, c) => calling(machine, state, implicit, depth, c),
        CallTask::Counted(depth, c) => counted(machine, state, depth, c),
        CallTask::CallOf(level, callee, this, a, place) => call_of(
            machine, state, level, callee, this, a, place,
        ),
        CallTask::CallInto(level, callee, a, object) => call_into(
            machine, state, level, callee, a, object,
        ),
        CallTask::ConstructAt(level, f, a, arguments) => construct_at(
            machine, state, level, f, a, arguments,
        ),
        CallTask::Before(level, f, c) => before(machine, state, level, f, c),
        CallTask::After(level, f, c) => after(machine, state, level, f, c),
        CallTask::CallerBefore(level, c) => caller_before(machine, state, level, c),
        CallTask::CallerAfter(level, c) => caller_after(machine, state, level, c),
        CallTask::Body(level, kind, b) => body(machine, state, level, kind, b),
    }
}
