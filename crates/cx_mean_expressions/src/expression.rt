//! Expressions, and the operands of their operators.
ghost use Rattle.std.specs.Prelude.{[], ◌∷◌, None};
ghost use Rattle.cx_core.specs.View.{expr_of, operand_of, init_of, object_type, result_of};
ghost use Rattle.cx_plain.specs.Task as tasks;
ghost use Rattle.cx_plain_state.specs.Ran.{Ran};
ghost use Rattle.cx_plain_state.specs.Seen.{state_of};
ghost use Rattle.cx_mean_parts.specs.Frames.{next_of, operand_frame_of, operation_of};
ghost use Rattle.cx_mean_parts.specs.Parts.{object_call, function_called};
ghost use Rattle.cx_plain.specs.Step.{doing, step_expression, step_call};
ghost use Rattle.cx_mean_parts.specs.Seen.{table_of, program_of, args_of};
ghost use Rattle.cx_mean_parts.specs.Tasks.{callee_of, level_of};
ghost use Rattle.cx_mean_parts.specs.Steps.{Steps};

use crate::leaf::{exception_object, function_name, global, literal, result_name, variable};
use cx_code::Kind;
use cx_core::{Argument, Expression, Initializer, Operand, ResultKind};
use cx_mean_parts::machine::Machine;
use cx_mean_parts::task::{CallTask, Callee, ExpressionTask, Keeper, Level, ObjectTask, Task};
use cx_mean_parts::values::valued;
use cx_mean_parts::waiting::{ArgumentFrame, Next, OperandFrame, Operation, Waiting};
use cx_plain_state::{Halt, State, undefined};
use cx_types::ValueType;

/// An operand is evaluated under one more frame.
#[tactic(auto, unfolding(cx_core::specs::Outcome::either, cx_core::specs::Outcome::gives, cx_core::specs::Outcome::ends, cx_core::specs::Outcome::throws))]
pub(crate) fn used_under<'p>(
    machine: &Machine<'p>,
    state: &State<'p>,
    level: Level,
    a: &'p Operand,
    frame: OperandFrame<'p>,
) -> Result<Next<'p>, Halt>
    ensures { let n = table_of machine.now.program.now in Ran (next_of n) (doing (tasks.used (level_of level) (operand_of a.now)) (operand_frame_of frame.entry ∷ []) (state_of state.now)) result (state_of state.now) }
{
    let task = Task::Expression(ExpressionTask::Used(level, a));
    machine.under(state, task, Waiting::Operand(frame))
}

/// An expression is evaluated under one more frame.
#[tactic(auto, unfolding(cx_core::specs::Outcome::either, cx_core::specs::Outcome::gives, cx_core::specs::Outcome::ends, cx_core::specs::Outcome::throws))]
pub(crate) fn evaluated_under<'p>(
    machine: &Machine<'p>,
    state: &State<'p>,
    level: Level,
    e: &'p Expression,
    frame: OperandFrame<'p>,
) -> Result<Next<'p>, Halt>
    ensures { let n = table_of machine.now.program.now in Ran (next_of n) (doing (tasks.expression (level_of level) (expr_of e.now)) (operand_frame_of frame.entry ∷ []) (state_of state.now)) result (state_of state.now) }
{
    let task = Task::Expression(ExpressionTask::Expression(level, e));
    machine.under(state, task, Waiting::Operand(frame))
}

/// An operand is evaluated as a truth under one more frame.
#[tactic(auto, unfolding(cx_core::specs::Outcome::either, cx_core::specs::Outcome::gives, cx_core::specs::Outcome::ends, cx_core::specs::Outcome::throws))]
pub(crate) fn truth_under<'p>(
    machine: &Machine<'p>,
    state: &State<'p>,
    level: Level,
    a: &'p Operand,
    frame: OperandFrame<'p>,
) -> Result<Next<'p>, Halt>
    ensures { let n = table_of machine.now.program.now in Ran (next_of n) (doing (tasks.used_truth (level_of level) (operand_of a.now)) (operand_frame_of frame.entry ∷ []) (state_of state.now)) result (state_of state.now) }
{
    let task = Task::Expression(ExpressionTask::UsedTruth(level, a));
    machine.under(state, task, Waiting::Operand(frame))
}

/// An operand is evaluated for an operation.
#[tactic(auto, unfolding(cx_core::specs::Outcome::either, cx_core::specs::Outcome::gives, cx_core::specs::Outcome::ends, cx_core::specs::Outcome::throws))]
fn operand_of<'p>(
    machine: &Machine<'p>,
    state: &State<'p>,
    level: Level,
    a: &'p Operand,
    operation: Operation<'p>,
) -> Result<Next<'p>, Halt>
    ensures { let n = table_of machine.now.program.now in Ran (next_of n) (doing (tasks.used (level_of level) (operand_of a.now)) (tasks.operate (operation_of operation.entry) ∷ []) (state_of state.now)) result (state_of state.now) }
{
    used_under(machine, state, level, a, OperandFrame::Operate(operation))
}

/// An expression is evaluated for an operation.
#[tactic(auto, unfolding(cx_core::specs::Outcome::either, cx_core::specs::Outcome::gives, cx_core::specs::Outcome::ends, cx_core::specs::Outcome::throws))]
fn place_of<'p>(
    machine: &Machine<'p>,
    state: &State<'p>,
    level: Level,
    e: &'p Expression,
    operation: Operation<'p>,
) -> Result<Next<'p>, Halt>
    ensures { let n = table_of machine.now.program.now in Ran (next_of n) (doing (tasks.expression (level_of level) (expr_of e.now)) (tasks.operate (operation_of operation.entry) ∷ []) (state_of state.now)) result (state_of state.now) }
{
    evaluated_under(machine, state, level, e, OperandFrame::Operate(operation))
}

/// A temporary is made, and gives its place.
#[tactic(auto, unfolding(cx_core::specs::Outcome::either, cx_core::specs::Outcome::gives, cx_core::specs::Outcome::ends, cx_core::specs::Outcome::throws))]
fn temporary<'p>(
    machine: &Machine<'p>,
    state: &State<'p>,
    level: Level,
    of: ValueType,
    i: &'p Initializer,
) -> Result<Next<'p>, Halt>
    ensures { let n = table_of machine.now.program.now in Ran (next_of n) (doing (tasks.making (level_of level) tasks.full_expression (object_type of) None (init_of i.now)) (tasks.place_of_object ∷ []) (state_of state.now)) result (state_of state.now) }
{
    let of = machine.object_type(of);
    let task = Task::Object(ObjectTask::Making(level, Keeper::FullExpression, of, None, i));
    machine.under(state, task, Waiting::Operand(OperandFrame::PlaceOfObject))
}

/// An expression is evaluated.
#[tactic(auto, unfolding(cx_core::specs::Outcome::either, cx_core::specs::Outcome::gives, cx_core::specs::Outcome::ends, cx_core::specs::Outcome::throws))]
pub(crate) fn expression<'p>(
    machine: &Machine<'p>,
    state: &mut State<'p>,
    level: Level,
    e: &'p Expression,
) -> Result<Next<'p>, Halt>
    ensures { let p = machine.now.program.now in Steps p (step_expression (program_of p) (level_of level) (expr_of e.now)) result state.old state.new }
{
    match e {
        Expression::Literal(c) => valued(literal(state, *c)),
        Expression::Variable(slot) => valued(variable(state, *slot)),
        Expression::Global(index) => valued(global(state, *index)),
        Expression::This => valued(variable(state, 0)),
        Expression::FunctionName(function) => valued(function_name(state, *function)),
        Expression::ResultName => valued(result_name(state)),
        Expression::ExceptionObject => valued(exception_object(state)),
        Expression::Unary(operator, of, a) => {
            operand_of(machine, state, level, a, Operation::Unary(*operator, *of))
        }
        Expression::Binary(operator, of, a, b) => {
            let frame = OperandFrame::RightOperand(level, *operator, *of, b);
            used_under(machine, state, level, a, frame)
        }
        Expression::LogicalAnd(a, b) => {
            truth_under(
                machine,
                state,
                level,
                a,
                OperandFrame::Decide(level, false, b),
            )
        }
        Expression::Puts(text) => valued(state.puts_literal(text.bytes())),
        Expression::Getchar => valued(state.getchar()),
        Expression::LogicalOr(a, b) => {
            truth_under(
                machine,
                state,
                level,
                a,
                OperandFrame::Decide(level, true, b),
            )
        }
        Expression::Conditional(a, b, c) => {
            truth_under(machine, state, level, a, OperandFrame::Choose(level, b, c))
        }
        Expression::Cast(a) => operand_of(machine, state, level, a, Operation::Cast),
        Expression::Assign(a, b) => {
            used_under(machine, state, level, b, OperandFrame::LeftPlace(level, a))
        }
        Expression::CompoundAssign(operator, computed, kept, a, b) => {
            let frame = OperandFrame::CompoundPlace(level, *operator, *computed, *kept, a);
            used_under(machine, state, level, b, frame)
        }
        Expression::PrefixStep(operator, of, a) => {
            place_of(
                machine,
                state,
                level,
                a,
                Operation::PrefixStep(*operator, *of),
            )
        }
        Expression::PostfixStep(operator, of, a) => {
            place_of(
                machine,
                state,
                level,
                a,
                Operation::PostfixStep(*operator, *of),
            )
        }
        Expression::Indirection(a) => operand_of(machine, state, level, a, Operation::Indirection),
        Expression::Member(leaf, a) => place_of(machine, state, level, a, Operation::Member(*leaf)),
        Expression::Call(function, a) => called(machine, state, level, *function, a),
        Expression::CallThrough(kind, pointer, a) => {
            let task = Task::Expression(ExpressionTask::Used(level, pointer));
            let frame = ArgumentFrame::CallThrough(level, *kind, a);
            machine.under(state, task, Waiting::Argument(frame))
        }
        Expression::TemporaryThrough(class, pointer, a) => {
            let task = Task::Expression(ExpressionTask::Used(level, pointer));
            let frame = ArgumentFrame::TemporaryThrough(level, *class, a);
            machine.under(state, task, Waiting::Argument(frame))
        }
        Expression::Temporary(of, i) => temporary(machine, state, level, *of, i),
        Expression::Putchar(a) => operand_of(machine, state, level, a, Operation::Putchar),
        Expression::PutsComment(a) => place_of(machine, state, level, a, Operation::PutsComment),
        Expression::Query(query, a) => place_of(machine, state, level, a, Operation::Query(*query)),
    }
}

/// A scalar result object is made, and what is called is called with it.
#[tactic(auto, unfolding(cx_core::specs::Outcome::either, cx_core::specs::Outcome::gives, cx_core::specs::Outcome::ends, cx_core::specs::Outcome::throws))]
pub(crate) fn call_with_object<'p>(
    machine: &Machine<'p>,
    state: &mut State<'p>,
    level: Level,
    callee: Callee<'p>,
    a: &'p [Argument],
) -> Result<Next<'p>, Halt>
    ensures { let p = machine.now.program.now in Steps p (object_call (level_of level) (callee_of callee.entry) (args_of a.now)) result state.old state.new }
{
    let object = state.make(machine.alloc, 1)?;
    let task = Task::Call(CallTask::CallInto(level, callee, a, object));
    machine.under(
        state,
        task,
        Waiting::Argument(ArgumentFrame::EndResult(object)),
    )
}

/// A function is called, by what it gives.
#[tactic(auto, unfolding(cx_core::specs::Outcome::either, cx_core::specs::Outcome::gives, cx_core::specs::Outcome::ends, cx_core::specs::Outcome::throws))]
fn call<'p>(
    machine: &Machine<'p>,
    state: &mut State<'p>,
    level: Level,
    kind: ResultKind,
    function: u32,
    a: &'p [Argument],
) -> Result<Next<'p>, Halt>
    ensures { let p = machine.now.program.now in Steps p (step_call (program_of p) (level_of level) (result_of kind) function (args_of a.now)) result state.old state.new }
{
    match kind {
        ResultKind::ScalarObject => {
            call_with_object(machine, state, level, Callee::ByName(function), a)
        }
        ResultKind::Void
        | ResultKind::ScalarValue
        | ResultKind::ClassObject(_)
        | ResultKind::Reference
        | ResultKind::ExitStatus => {
            let callee = Callee::ByName(function);
            machine.doing(
                state,
                Task::Call(CallTask::CallOf(level, callee, None, a, None)),
            )
        }
    }
}

/// A function of the program is called.
#[tactic(auto, unfolding(cx_core::specs::Outcome::either, cx_core::specs::Outcome::gives, cx_core::specs::Outcome::ends, cx_core::specs::Outcome::throws))]
fn called<'p>(
    machine: &Machine<'p>,
    state: &mut State<'p>,
    level: Level,
    function: u32,
    a: &'p [Argument],
) -> Result<Next<'p>, Halt>
    ensures { let p = machine.now.program.now in Steps p (function_called (program_of p) (level_of level) function (args_of a.now)) result state.old state.new }
{
    match machine.function_at(function) {
        Some(definition) => call(machine, state, level, definition.result, function, a),
        None => Err(undefined(Kind::Mixed)),
    }
}
