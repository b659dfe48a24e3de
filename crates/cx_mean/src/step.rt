//! One step: of a task, or of a frame that is given something or passed by an exception.
ghost use Rattle.cx_plain.specs.Step.{step_task, step_given, step_thrown};
ghost use Rattle.cx_plain_state.specs.Seen.{exception_of};
ghost use Rattle.cx_mean_parts.specs.Seen.{table_of, program_of};
ghost use Rattle.cx_mean_parts.specs.Tasks.{task_of};
ghost use Rattle.cx_mean_parts.specs.Frames.{given_of, waiting_of};
ghost use Rattle.cx_mean_parts.specs.Steps.{Steps};

use cx_mean_calls::{call_given, call_task, call_thrown, check_task};
use cx_mean_expressions::{argument_given, argument_thrown, expression_task, operand_given};
use cx_mean_objects::{object_given, object_task, object_thrown};
use cx_mean_parts::machine::Machine;
use cx_mean_parts::task::{Call, Check, Task};
use cx_mean_parts::waiting::{Given, Next, Waiting};
use cx_mean_statements::{
    following_given, leaving_given, leaving_thrown, statement_given, statement_task,
    statement_thrown,
};
use cx_plain_state::{Exception, Halt, State};

/// One step of a task.
#[tactic(auto, unfolding(cx_core::specs::Outcome::either, cx_core::specs::Outcome::gives, cx_core::specs::Outcome::ends, cx_core::specs::Outcome::throws))]
pub(crate) fn task_step<'p>(
    machine: &Machine<'p>,
    state: &mut State<'p>,
    task: Task<'p>,
) -> Result<Next<'p>, Halt>
    ensures { let p = machine.now.program.now in let n = table_of p in Steps p (step_task (program_of p) (task_of n task.entry)) result state.old state.new }
{
    match task {
        Task::Expression(task) => expression_task(machine, state, task),
        Task::Statement(task) => statement_task(machine, state, *task),
        Task::Object(task) => object_task(machine, state, task),
        Task::Check(task) => check_task(machine, state, task),
        Task::Call(task) => call_task(machine, state, task),
    }
}

/// What a frame makes of what it is given.
#[tactic(auto, unfolding(cx_core::specs::Outcome::either, cx_core::specs::Outcome::gives, cx_core::specs::Outcome::ends, cx_core::specs::Outcome::throws))]
pub(crate) fn given_step<'p>(
    machine: &Machine<'p>,
    state: &mut State<'p>,
    frame: Waiting<'p>,
    given: Given<'p>,
) -> Result<Next<'p>, Halt>
    ensures { let p = machine.now.program.now in let n = table_of p in Steps p (step_given (program_of p) (waiting_of n frame.entry) (given_of given.entry)) result state.old state.new }
{
    match frame {
        Waiting::Operand(frame) => operand_given(machine, state, frame, given),
        Waiting::Argument(frame) => argument_given(machine, state, frame, given),
        Waiting::Following(frame) => following_given(machine, state, frame, given),
        Waiting::Object(frame) => object_given(machine, state, frame, given),
        Waiting::Leaving(frame) => leaving_given(machine, state, frame, given),
        Waiting::Statement(frame) => statement_given(machine, state, frame, given),
        Waiting::Call(frame) => call_given(machine, state, frame, given),
    }
}

/// What a frame makes of an exception that is thrown through it.
#[tactic(auto, unfolding(cx_core::specs::Outcome::either, cx_core::specs::Outcome::gives, cx_core::specs::Outcome::ends, cx_core::specs::Outcome::throws))]
pub(crate) fn thrown_step<'p>(
    machine: &Machine<'p>,
    state: &mut State<'p>,
    frame: Waiting<'p>,
    e: Exception,
) -> Result<Next<'p>, Halt>
    ensures { let p = machine.now.program.now in let n = table_of p in Steps p (step_thrown (program_of p) (waiting_of n frame.entry) (exception_of e)) result state.old state.new }
{
    match frame {
        Waiting::Operand(_) => Err(Halt::Thrown(e)),
        Waiting::Argument(frame) => argument_thrown(machine, state, frame, e),
        Waiting::Following(_) => Err(Halt::Thrown(e)),
        Waiting::Object(frame) => object_thrown(machine, state, frame, e),
        Waiting::Leaving(frame) => leaving_thrown(machine, state, frame, e),
        Waiting::Statement(frame) => statement_thrown(machine, state, frame, e),
        Waiting::Call(frame) => call_thrown(machine, state, frame, e),
    }
}
