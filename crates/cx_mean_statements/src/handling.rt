//! Handlers of exceptions.
ghost use Rattle.std.specs.Prelude.{◌≡◌, ◌∷◌, IfOk, OnOk, IfErr, Bool};
ghost use Rattle.cx_core.specs.View.{init_of, parameter_of};
ghost use Rattle.cx_core.specs.Tree as tree;
ghost use Rattle.cx_plain.specs.Task as tasks;
ghost use Rattle.cx_plain.specs.Step.{step_parameter, step_handled, step_handling};
ghost use Rattle.cx_plain_state.specs.declared.answer.Halt.TheVariants.{Want};
ghost use Rattle.cx_plain_state.specs.Ran.{Ran};
ghost use Rattle.cx_plain_state.specs.Seen.{state_of, type_of, exception_of};
ghost use Rattle.cx_mean_parts.specs.Seen.{stmts_of, table_of, program_of, handler_of, handlers_of};
ghost use Rattle.cx_mean_parts.specs.Tasks.{level_of};
ghost use Rattle.cx_mean_parts.specs.Frames.{frames_of, waiting_of};
ghost use Rattle.cx_mean_parts.specs.StatementParts.{caught, flown, innermost_flown, flown_again};
ghost use Rattle.cx_mean_parts.specs.Steps.{Steps};

use crate::statement::next_statement;
use cx_code::Ending;
use cx_core::{CatchParameter, Handler, Initializer, Statement};
use cx_mean_parts::machine::Machine;
use cx_mean_parts::task::{Level, ObjectTask, StatementTask, Task};
use cx_mean_parts::types::same_type;
use cx_mean_parts::waiting::{LeavingFrame, Next, Waiting};
use cx_plain_state::{Address, Answer, Event, Exception, Halt, ObjectType, State, Value};

/// The exception object is what a parameter refers to.
#[tactic(auto, unfolding(cx_core::specs::Outcome::either, cx_core::specs::Outcome::gives, cx_core::specs::Outcome::ends, cx_core::specs::Outcome::throws))]
fn reference_parameter<'p>(
    machine: &Machine<'p>,
    state: &mut State<'p>,
    level: Level,
    slot: u32,
    e: Exception,
    b: &'p [Statement],
    frames: Vec<Waiting<'p>>,
) -> Result<Next<'p>, Halt>
    ensures { let p = machine.now.program.now in let n = table_of p in Steps p (step_parameter (program_of p) (level_of level) (tree.reference slot) (exception_of e) (stmts_of n b.now) (frames_of n frames.entry.items)) result state.old state.new }
{
    let place = Address {
        object: e.object,
        leaf: 0,
    };
    state.bind(slot, Value::Address(place))?;
    let block = machine.statement_of(StatementTask::Statements(level, b))?;
    machine.under_all(state, block, frames)
}

/// A parameter is an object of its own. No exception leaves its initialisation.
#[tactic(auto, unfolding(cx_core::specs::Outcome::either, cx_core::specs::Outcome::gives, cx_core::specs::Outcome::ends, cx_core::specs::Outcome::throws))]
fn object_parameter<'p>(
    machine: &Machine<'p>,
    state: &State<'p>,
    level: Level,
    slot: u32,
    i: &'p Initializer,
    e: Exception,
    b: &'p [Statement],
    frames: Vec<Waiting<'p>>,
) -> Result<Next<'p>, Halt>
    ensures { let p = machine.now.program.now in let n = table_of p in (is_named : Bool) → Steps p (step_parameter (program_of p) (level_of level) (tree.object slot is_named (init_of i.now)) (exception_of e) (stmts_of n b.now) (frames_of n frames.entry.items)) result state.now state.now }
{
    let block = machine.statement_of(StatementTask::Statements(level, b))?;
    let frames = machine.followed(frames, block)?;
    let frames = machine.framed(frames, Waiting::Leaving(LeavingFrame::EdgeIf(true)))?;
    let task = Task::Object(ObjectTask::Declaring(level, slot, e.of, i));
    machine.under_all(state, task, frames)
}

/// A handler that declares no object or name for the exception runs its block.
#[tactic(auto, unfolding(cx_core::specs::Outcome::either, cx_core::specs::Outcome::gives, cx_core::specs::Outcome::ends, cx_core::specs::Outcome::throws))]
fn no_parameter<'p>(
    machine: &Machine<'p>,
    state: &State<'p>,
    level: Level,
    e: Exception,
    b: &'p [Statement],
    frames: Vec<Waiting<'p>>,
) -> Result<Next<'p>, Halt>
    ensures { let p = machine.now.program.now in let n = table_of p in Steps p (step_parameter (program_of p) (level_of level) tree.unnamed (exception_of e) (stmts_of n b.now) (frames_of n frames.entry.items)) result state.now state.now }
{
    let block = machine.statement_of(StatementTask::Statements(level, b))?;
    machine.under_all(state, block, frames)
}

/// What the parameter of a handler needs is done, then its block.
#[tactic(auto, unfolding(cx_core::specs::Outcome::either, cx_core::specs::Outcome::gives, cx_core::specs::Outcome::ends, cx_core::specs::Outcome::throws))]
pub(crate) fn enter_parameter<'p>(
    machine: &Machine<'p>,
    state: &mut State<'p>,
    level: Level,
    parameter: &'p CatchParameter,
    e: Exception,
    b: &'p [Statement],
    frames: Vec<Waiting<'p>>,
) -> Result<Next<'p>, Halt>
    ensures { let p = machine.now.program.now in let n = table_of p in Steps p (step_parameter (program_of p) (level_of level) (parameter_of parameter.now) (exception_of e) (stmts_of n b.now) (frames_of n frames.entry.items)) result state.old state.new }
{
    match parameter {
        CatchParameter::Unnamed => no_parameter(machine, state, level, e, b, frames),
        CatchParameter::Reference(slot) => {
            reference_parameter(machine, state, level, *slot, e, b, frames)
        }
        CatchParameter::Object(slot, _, i) => {
            object_parameter(machine, state, level, *slot, i, e, b, frames)
        }
    }
}

/// A handler takes an exception. The frames of its scope and of its hold on the exception are given.
#[tactic(auto, unfolding(cx_plain_state::specs::Seen::state_of))]
fn caught<'p>(
    machine: &Machine<'p>,
    state: &mut State<'p>,
    level: Level,
    e: Exception,
) -> Result<Vec<Waiting<'p>>, Halt>
    ensures { let p = machine.now.program.now in Ran (λ frames. frames_of (table_of p) frames.items) (caught (program_of p) (level_of level) (exception_of e) (state_of state.old)) result (state_of state.new) }
{
    state.append(Event::Catch(machine.type_name(e.of)))?;
    let holding = machine.enter_handler(state, level, e)?;
    let scope = machine.enter_scope(state, level);
    Ok(vec![in machine.alloc; holding, scope]?)
}

/// A handler takes an exception.
#[tactic(auto, unfolding(cx_core::specs::Outcome::either, cx_core::specs::Outcome::gives, cx_core::specs::Outcome::ends, cx_core::specs::Outcome::throws))]
pub(crate) fn handled<'p>(
    machine: &Machine<'p>,
    state: &mut State<'p>,
    level: Level,
    e: Exception,
    parameter: &'p CatchParameter,
    b: &'p [Statement],
) -> Result<Next<'p>, Halt>
    ensures { let p = machine.now.program.now in let n = table_of p in Steps p (step_handled (program_of p) (level_of level) (exception_of e) (parameter_of parameter.now) (stmts_of n b.now)) result state.old state.new }
{
    let frames = caught(machine, state, level, e)?;
    enter_parameter(machine, state, level, parameter, e, b, frames)
}

/// A handler for every exception takes one.
#[tactic(auto, unfolding(cx_core::specs::Outcome::either, cx_core::specs::Outcome::gives, cx_core::specs::Outcome::ends, cx_core::specs::Outcome::throws))]
fn handled_by_all<'p>(
    machine: &Machine<'p>,
    state: &mut State<'p>,
    level: Level,
    e: Exception,
    b: &'p [Statement],
) -> Result<Next<'p>, Halt>
    ensures { let p = machine.now.program.now in let n = table_of p in Steps p (step_handling (program_of p) (level_of level) (tree.catch_all (stmts_of n b.now) tree.none) (exception_of e)) result state.old state.new }
{
    state.spend()?;
    let frames = caught(machine, state, level, e)?;
    no_parameter(machine, state, level, e, b, frames)
}

/// A handler for a type takes an exception of that type, and others are tried otherwise.
#[tactic(auto, unfolding(cx_core::specs::Outcome::either, cx_core::specs::Outcome::gives, cx_core::specs::Outcome::ends, cx_core::specs::Outcome::throws))]
fn handled_by_type<'p>(
    machine: &Machine<'p>,
    state: &mut State<'p>,
    level: Level,
    of: ObjectType,
    handler: &'p Handler,
    rest: &'p [Handler],
    e: Exception,
) -> Result<Next<'p>, Halt>
    ensures { let p = machine.now.program.now in let n = table_of p in Steps p (step_handling (program_of p) (level_of level) (tree.catch (type_of of) (parameter_of handler.now.parameter) (stmts_of n handler.now.body.items) (handlers_of n rest.now)) (exception_of e)) result state.old state.new }
{
    state.spend()?;
    if same_type(e.of, of) {
        return handled(machine, state, level, e, &handler.parameter, &handler.body);
    }
    next_statement(machine, state, StatementTask::Handling(level, rest, e))
}

/// A handler is tried, and then others.
#[tactic(auto, unfolding(cx_core::specs::Outcome::either, cx_core::specs::Outcome::gives, cx_core::specs::Outcome::ends, cx_core::specs::Outcome::throws))]
fn first_handler<'p>(
    machine: &Machine<'p>,
    state: &mut State<'p>,
    level: Level,
    handler: &'p Handler,
    rest: &'p [Handler],
    e: Exception,
) -> Result<Next<'p>, Halt>
    ensures { let p = machine.now.program.now in let n = table_of p in Steps p (step_handling (program_of p) (level_of level) (handler_of n handler.now (handlers_of n rest.now)) (exception_of e)) result state.old state.new }
{
    match &handler.catches {
        None => handled_by_all(machine, state, level, e, &handler.body),
        Some(of) => {
            let of = machine.object_type(*of);
            handled_by_type(machine, state, level, of, handler, rest, e)
        }
    }
}

/// Handlers are tried in order.
#[tactic(auto, unfolding(cx_core::specs::Outcome::either, cx_core::specs::Outcome::gives, cx_core::specs::Outcome::ends, cx_core::specs::Outcome::throws))]
pub(crate) fn handling<'p>(
    machine: &Machine<'p>,
    state: &mut State<'p>,
    level: Level,
    h: &'p [Handler],
    e: Exception,
) -> Result<Next<'p>, Halt>
    ensures { let p = machine.now.program.now in let n = table_of p in Steps p (step_handling (program_of p) (level_of level) (handlers_of n h.now) (exception_of e)) result state.old state.new }
{
    match h.split_first() {
        None => Err(Halt::Thrown(e)),
        Some((handler, rest)) => first_handler(machine, state, level, handler, rest, e),
    }
}

/// An exception that is held flies again.
#[tactic(auto, unfolding(cx_core::specs::Outcome::either, cx_core::specs::Outcome::gives, cx_core::specs::Outcome::ends, cx_core::specs::Outcome::throws))]
fn flown<'p>(machine: &Machine<'p>, state: &mut State<'p>, e: Exception) -> Result<Next<'p>, Halt>
    ensures { let p = machine.now.program.now in Steps p (flown (program_of p) (exception_of e)) result state.old state.new }
{
    state.append(Event::Throw(machine.type_name(e.of)))?;
    Err(Halt::Thrown(e))
}

/// The innermost exception that is held flies again.
#[tactic(auto, unfolding(cx_plain_state::specs::Seen::state_of, cx_core::specs::Outcome::either, cx_core::specs::Outcome::current_held, cx_core::specs::Outcome::ends))]
fn innermost_flown<'p>(machine: &Machine<'p>, state: &mut State<'p>) -> Result<Next<'p>, Halt>
    ensures { let p = machine.now.program.now in Steps p (innermost_flown (program_of p)) result state.old state.new }
{
    match state.held.first() {
        None => Err(Halt::Over(Answer::Ended(Ending::Terminated))),
        Some(e) => {
            let e = *e;
            flown(machine, state, e)
        }
    }
}

/// An exception is rethrown.
#[tactic(auto, unfolding(cx_core::specs::Outcome::either, cx_core::specs::Outcome::gives, cx_core::specs::Outcome::ends, cx_core::specs::Outcome::throws))]
pub(crate) fn rethrown<'p>(machine: &Machine<'p>, state: &mut State<'p>) -> Result<Next<'p>, Halt>
    ensures { let p = machine.now.program.now in Steps p (flown_again (program_of p)) result state.old state.new }
{
    state.spend()?;
    innermost_flown(machine, state)
}
