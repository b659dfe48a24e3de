//! Operands, initialisers and arguments.
ghost use Rattle.std.specs.Prelude.{◌≡◌, [], ◌∷◌};
ghost use Rattle.std.specs.Option.{option_map};
ghost use Rattle.cx_core.specs.View.{operand_of, init_of, object_type_or_none};
ghost use Rattle.cx_plain.specs.Task as tasks;
ghost use Rattle.cx_plain.specs.Step.{doing, step_used, step_initialise, step_arguments, step_task};
ghost use Rattle.cx_plain_state.specs.Seen.{state_of, address_of, type_of};
ghost use Rattle.cx_plain_state.specs.Ran.{Ran};
ghost use Rattle.cx_mean_parts.specs.Seen.{table_of, program_of, args_of, argument_of};
ghost use Rattle.cx_mean_parts.specs.Tasks.{level_of, expression_task_of, call_task_of};
ghost use Rattle.cx_mean_parts.specs.Frames.{next_of};
ghost use Rattle.cx_mean_parts.specs.Parts.{zero_first_of};
ghost use Rattle.cx_mean_parts.specs.Steps.{Steps};

use crate::expression::{expression, used_under};
use crate::zero::zero_object;
use cx_core::{Argument, Initializer, Operand};
use cx_mean_parts::machine::Machine;
use cx_mean_parts::task::{CallTask, Callee, ExpressionTask, Keeper, Level, ObjectTask, Task};
use cx_mean_parts::waiting::{
    ArgumentFrame, FollowingFrame, Given, Next, ObjectFrame, OperandFrame, Operation, Waiting,
};
use cx_plain_state::{Address, Halt, ObjectType, State, Value};
use cx_types::ValueType;

/// The type of an object that is read, if there is one.
#[tactic(auto, unfolding(cx_core::specs::Outcome::either, cx_core::specs::Outcome::gives, cx_core::specs::Outcome::ends, cx_core::specs::Outcome::throws))]
fn type_read<'p>(machine: &Machine<'p>, of: Option<ValueType>) -> Option<ObjectType>
    ensures { option_map type_of result ≡ object_type_or_none of }
{
    match of {
        None => None,
        Some(of) => Some(machine.object_type(of)),
    }
}

/// An operand is evaluated, read and converted.
#[tactic(auto, unfolding(cx_core::specs::Outcome::either, cx_core::specs::Outcome::gives, cx_core::specs::Outcome::ends, cx_core::specs::Outcome::throws))]
pub(crate) fn used<'p>(
    machine: &Machine<'p>,
    state: &State<'p>,
    level: Level,
    a: &'p Operand,
) -> Result<Next<'p>, Halt>
    ensures { let p = machine.now.program.now in Steps p (step_used (program_of p) (level_of level) (operand_of a.now)) result state.now state.now }
{
    let read = Operation::Read(type_read(machine, a.read));
    let convert = Operation::Convert(a.to);
    let task = Task::Expression(ExpressionTask::Expression(level, &a.of));
    let inner = Waiting::Operand(OperandFrame::Operate(read));
    let outer = Waiting::Operand(OperandFrame::Operate(convert));
    machine.under_two(state, task, inner, outer)
}

/// An object of a class is zero-initialised, and then initialised.
#[tactic(auto, unfolding(cx_core::specs::Outcome::either, cx_core::specs::Outcome::gives, cx_core::specs::Outcome::ends, cx_core::specs::Outcome::throws))]
fn zero_first<'p>(
    machine: &Machine<'p>,
    state: &mut State<'p>,
    level: Level,
    class: u32,
    i: &'p Initializer,
    place: Address,
) -> Result<Next<'p>, Halt>
    ensures { let p = machine.now.program.now in Steps p (zero_first_of (program_of p) (level_of level) class (init_of i.now) (address_of place)) result state.old state.new }
{
    zero_object(machine, state, class, place)?;
    let task = Task::Expression(ExpressionTask::Initialise(level, i, place));
    machine.doing(state, task)
}

/// A function is called, and what it gives isn't used.
#[tactic(auto, unfolding(cx_core::specs::Outcome::either, cx_core::specs::Outcome::gives, cx_core::specs::Outcome::ends, cx_core::specs::Outcome::throws))]
fn call_discarded<'p>(
    machine: &Machine<'p>,
    state: &State<'p>,
    task: CallTask<'p>,
) -> Result<Next<'p>, Halt>
    ensures { let n = table_of machine.now.program.now in Ran (next_of n) (doing (call_task_of n task.entry) (tasks.discard ∷ []) (state_of state.now)) result (state_of state.now) }
{
    machine.under(
        state,
        Task::Call(task),
        Waiting::Following(FollowingFrame::Discard),
    )
}

/// An object at a place is initialised.
#[tactic(auto, unfolding(cx_core::specs::Outcome::either, cx_core::specs::Outcome::gives, cx_core::specs::Outcome::ends, cx_core::specs::Outcome::throws))]
pub(crate) fn initialise<'p>(
    machine: &Machine<'p>,
    state: &mut State<'p>,
    level: Level,
    i: &'p Initializer,
    place: Address,
) -> Result<Next<'p>, Halt>
    ensures { let p = machine.now.program.now in Steps p (step_initialise (program_of p) (level_of level) (init_of i.now) (address_of place)) result state.old state.new }
{
    match i {
        Initializer::Value(a) => {
            let task = Task::Expression(ExpressionTask::Used(level, a));
            machine.under(state, task, Waiting::Object(ObjectFrame::WriteValue(place)))
        }
        Initializer::Construct(function, a) => {
            let callee = Callee::ByName(*function);
            let task = CallTask::CallOf(level, callee, Some(place), a, None);
            call_discarded(machine, state, task)
        }
        Initializer::ZeroFirst(class, i) => zero_first(machine, state, level, *class, i, place),
        Initializer::ResultOf(function, a) => {
            let callee = Callee::ByName(*function);
            let result = Some(Value::Address(place));
            call_discarded(
                machine,
                state,
                CallTask::CallOf(level, callee, None, a, result),
            )
        }
        Initializer::ResultThrough(pointer, a) => {
            let task = Task::Expression(ExpressionTask::Used(level, pointer));
            let frame = ArgumentFrame::ResultThrough(level, a, place);
            machine.under(state, task, Waiting::Argument(frame))
        }
    }
}

/// An argument is evaluated, then the rest of them.
#[tactic(auto, unfolding(cx_core::specs::Outcome::either, cx_core::specs::Outcome::gives, cx_core::specs::Outcome::ends, cx_core::specs::Outcome::throws))]
fn argument<'p>(
    machine: &Machine<'p>,
    state: &State<'p>,
    level: Level,
    first: &'p Argument,
    rest: &'p [Argument],
) -> Result<Next<'p>, Halt>
    ensures { let p = machine.now.program.now in Steps p (step_arguments (program_of p) (level_of level) (argument_of first.now (args_of rest.now))) result state.now state.now }
{
    match first {
        Argument::ByReference(e) => {
            let task = Task::Expression(ExpressionTask::Expression(level, e));
            let frame = ArgumentFrame::ReferenceArgument(level, rest);
            machine.under(state, task, Waiting::Argument(frame))
        }
        Argument::ByValue(of, i) => {
            let of = machine.object_type(*of);
            let task = Task::Object(ObjectTask::Making(level, Keeper::InnermostScope, of, None, i));
            let frame = ArgumentFrame::ObjectArgument(level, rest);
            machine.under(state, task, Waiting::Argument(frame))
        }
    }
}

/// Arguments are evaluated in order.
#[tactic(auto, unfolding(cx_core::specs::Outcome::either, cx_core::specs::Outcome::gives, cx_core::specs::Outcome::ends, cx_core::specs::Outcome::throws))]
pub(crate) fn arguments<'p>(
    machine: &Machine<'p>,
    state: &State<'p>,
    level: Level,
    a: &'p [Argument],
) -> Result<Next<'p>, Halt>
    ensures { let p = machine.now.program.now in Steps p (step_arguments (program_of p) (level_of level) (args_of a.now)) result state.now state.now }
{
    match a.split_first() {
        None => Ok(Next::Give(Given::Values(Vec::new(machine.alloc)))),
        Some((first, rest)) => argument(machine, state, level, first, rest),
    }
}

/// An operand is evaluated as a full-expression of its own.
#[tactic(auto, unfolding(cx_core::specs::Outcome::either, cx_core::specs::Outcome::current_temporaries, cx_core::specs::Outcome::set_temporaries))]
fn evaluated<'p>(
    machine: &Machine<'p>,
    state: &mut State<'p>,
    level: Level,
    a: &'p Operand,
) -> Result<Next<'p>, Halt>
    ensures { let p = machine.now.program.now in Steps p (step_task (program_of p) (tasks.evaluated (level_of level) (operand_of a.now))) result state.old state.new }
{
    let full = machine.enter_full_expression(state, level);
    machine.under(
        state,
        Task::Expression(ExpressionTask::Used(level, a)),
        full,
    )
}

/// An expression, operand, initialiser or list of arguments is evaluated.
#[tactic(auto, unfolding(cx_core::specs::Outcome::either, cx_core::specs::Outcome::gives, cx_core::specs::Outcome::ends, cx_core::specs::Outcome::throws))]
pub fn expression_task<'p>(
    machine: &Machine<'p>,
    state: &mut State<'p>,
    task: ExpressionTask<'p>,
) -> Result<Next<'p>, Halt>
    ensures { let p = machine.now.program.now in Steps p (step_task (program_of p) (expression_task_of task.entry)) result state.old state.new }
{
    match task {
        ExpressionTask::Expression(level, e) => expression(machine, state, level, e),
        ExpressionTask::Used(level, a) => used(machine, state, level, a),
        ExpressionTask::Evaluated(level, a) => evaluated(machine, state, level, a),
        ExpressionTask::UsedTruth(level, a) => used_under(
            machine,
            state,
            level,
            a,
            OperandFrame::ToTruth,
        ),
        ExpressionTask::EvaluatedTruth(level, a) => {
            let task = Task::Expression(ExpressionTask::Evaluated(level, a));
            machine.under(state, task, Waiting::Operand(OperandFrame::ToTruth))
        }
        ExpressionTask::Initialise(level, i, place) => initialise(machine, state, level, i, place),
        ExpressionTask::Arguments(level, a) => arguments(machine, state, level, a),
    }
}
