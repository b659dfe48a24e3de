//! What operands give.
ghost use Rattle.std.specs.Prelude.{◌≡◌};
ghost use Rattle.cx_core.specs.View.{operand_of};
ghost use Rattle.cx_core.specs.Operators.{truth_value};
ghost use Rattle.cx_core.specs.Meaning.{object_place};
ghost use Rattle.cx_plain.specs.Step.{step_given};
ghost use Rattle.cx_plain_state.specs.Seen.{value_of};
ghost use Rattle.cx_mean_parts.specs.Seen.{program_of};
ghost use Rattle.cx_mean_parts.specs.Tasks.{level_of};
ghost use Rattle.cx_mean_parts.specs.Frames.{given_of, operand_frame_of};
ghost use Rattle.cx_mean_parts.specs.Parts.{truth_tested, decided, chosen};
ghost use Rattle.cx_mean_parts.specs.Steps.{Steps};
ghost use Rattle.cx_plain.specs.Task as tasks;

use crate::expression::{evaluated_under, truth_under, used_under};
use crate::operation::applied;
use cx_code::Kind;
use cx_core::Operand;
use cx_mean_parts::machine::Machine;
use cx_mean_parts::task::{ExpressionTask, Level, Task};
use cx_mean_parts::values::{object_place, valued};
use cx_mean_parts::waiting::{Given, Next, OperandFrame, Operation};
use cx_plain_state::{Halt, State, Value, undefined};

/// The value of a truth as an `int` or `bool`.
pub(crate) fn truth_value<'p>(truth: bool) -> Value<'p>
    ensures { value_of result ≡ truth_value truth }
{
    Value::Number(i128::from(truth))
}

/// A truth decides an operator, or its right operand does.
#[tactic(auto, unfolding(cx_core::specs::Outcome::either, cx_core::specs::Outcome::gives, cx_core::specs::Outcome::ends, cx_core::specs::Outcome::throws))]
fn decide<'p>(
    machine: &Machine<'p>,
    state: &mut State<'p>,
    level: Level,
    decides: bool,
    b: &'p Operand,
    x: bool,
) -> Result<Next<'p>, Halt>
    ensures { let p = machine.now.program.now in Steps p (decided (level_of level) decides (operand_of b.now) x) result state.old state.new }
{
    state.spend()?;
    if x == decides {
        return Ok(Next::Give(Given::Value(truth_value(decides))));
    }
    truth_under(machine, state, level, b, OperandFrame::TruthAsValue)
}

/// A truth chooses an operand.
#[tactic(auto, unfolding(cx_core::specs::Outcome::either, cx_core::specs::Outcome::gives, cx_core::specs::Outcome::ends, cx_core::specs::Outcome::throws))]
fn choose<'p>(
    machine: &Machine<'p>,
    state: &mut State<'p>,
    level: Level,
    b: &'p Operand,
    c: &'p Operand,
    x: bool,
) -> Result<Next<'p>, Halt>
    ensures { let p = machine.now.program.now in Steps p (chosen (level_of level) (operand_of b.now) (operand_of c.now) x) result state.old state.new }
{
    state.spend()?;
    let chosen = if x { b } else { c };
    machine.doing(state, Task::Expression(ExpressionTask::Used(level, chosen)))
}

/// A value is converted to `bool`.
#[tactic(auto, unfolding(cx_core::specs::Outcome::either, cx_core::specs::Outcome::gives, cx_core::specs::Outcome::ends, cx_core::specs::Outcome::throws))]
fn test<'p>(machine: &Machine<'p>, state: &State<'p>, v: Value<'p>) -> Result<Next<'p>, Halt>
    ensures { let p = machine.now.program.now in Steps p (truth_tested (value_of v.entry)) result state.now state.now }
{
    let truth = state.truth(v)?;
    Ok(Next::Give(Given::Truth(truth)))
}

/// What waits for an operand is given a value.
#[tactic(auto, unfolding(cx_core::specs::Outcome::either, cx_core::specs::Outcome::gives, cx_core::specs::Outcome::ends, cx_core::specs::Outcome::throws))]
fn operand_value<'p>(
    machine: &Machine<'p>,
    state: &mut State<'p>,
    frame: OperandFrame<'p>,
    v: Value<'p>,
) -> Result<Next<'p>, Halt>
    ensures { let p = machine.now.program.now in Steps p (step_given (program_of p) (operand_frame_of frame.entry) (tasks.value (value_of v.entry))) result state.old state.new }
{
    match frame {
        OperandFrame::Operate(operation) => valued(applied(machine, state, operation, v)),
        OperandFrame::RightOperand(level, operator, of, b) => {
            let operation = Operation::Binary(operator, of, v);
            used_under(machine, state, level, b, OperandFrame::Operate(operation))
        }
        OperandFrame::LeftPlace(level, a) => {
            evaluated_under(
                machine,
                state,
                level,
                a,
                OperandFrame::Operate(Operation::Assign(v)),
            )
        }
        OperandFrame::CompoundPlace(level, operator, computed, kept, a) => {
            let operation = Operation::CompoundAssign(operator, computed, kept, v);
            evaluated_under(machine, state, level, a, OperandFrame::Operate(operation))
        }
        OperandFrame::ToTruth => test(machine, state, v),
        OperandFrame::Decide(_, _, _) => Err(undefined(Kind::Mixed)),
        OperandFrame::Choose(_, _, _) => Err(undefined(Kind::Mixed)),
        OperandFrame::TruthAsValue => Err(undefined(Kind::Mixed)),
        OperandFrame::PlaceOfObject => Err(undefined(Kind::Mixed)),
    }
}

/// What waits for an operand is given a truth.
#[tactic(auto, unfolding(cx_core::specs::Outcome::either, cx_core::specs::Outcome::gives, cx_core::specs::Outcome::ends, cx_core::specs::Outcome::throws))]
fn operand_truth<'p>(
    machine: &Machine<'p>,
    state: &mut State<'p>,
    frame: OperandFrame<'p>,
    x: bool,
) -> Result<Next<'p>, Halt>
    ensures { let p = machine.now.program.now in Steps p (step_given (program_of p) (operand_frame_of frame.entry) (tasks.truth x)) result state.old state.new }
{
    match frame {
        OperandFrame::Decide(level, decides, b) => decide(machine, state, level, decides, b, x),
        OperandFrame::Choose(level, b, c) => choose(machine, state, level, b, c, x),
        OperandFrame::TruthAsValue => Ok(Next::Give(Given::Value(truth_value(x)))),
        OperandFrame::Operate(_) => Err(undefined(Kind::Mixed)),
        OperandFrame::RightOperand(_, _, _, _) => Err(undefined(Kind::Mixed)),
        OperandFrame::LeftPlace(_, _) => Err(undefined(Kind::Mixed)),
        OperandFrame::CompoundPlace(_, _, _, _, _) => Err(undefined(Kind::Mixed)),
        OperandFrame::ToTruth => Err(undefined(Kind::Mixed)),
        OperandFrame::PlaceOfObject => Err(undefined(Kind::Mixed)),
    }
}

/// What waits for an operand is given the number of an object.
#[tactic(auto, unfolding(cx_core::specs::Outcome::either, cx_core::specs::Outcome::gives, cx_core::specs::Outcome::ends, cx_core::specs::Outcome::throws))]
fn operand_object<'p>(
    machine: &Machine<'p>,
    state: &State<'p>,
    frame: OperandFrame<'p>,
    object: u64,
) -> Result<Next<'p>, Halt>
    ensures { let p = machine.now.program.now in Steps p (step_given (program_of p) (operand_frame_of frame.entry) (tasks.number object)) result state.now state.now }
{
    match frame {
        OperandFrame::PlaceOfObject => Ok(Next::Give(Given::Value(object_place(object)))),
        OperandFrame::Operate(_) => Err(undefined(Kind::Mixed)),
        OperandFrame::RightOperand(_, _, _, _) => Err(undefined(Kind::Mixed)),
        OperandFrame::LeftPlace(_, _) => Err(undefined(Kind::Mixed)),
        OperandFrame::CompoundPlace(_, _, _, _, _) => Err(undefined(Kind::Mixed)),
        OperandFrame::ToTruth => Err(undefined(Kind::Mixed)),
        OperandFrame::Decide(_, _, _) => Err(undefined(Kind::Mixed)),
        OperandFrame::Choose(_, _, _) => Err(undefined(Kind::Mixed)),
        OperandFrame::TruthAsValue => Err(undefined(Kind::Mixed)),
    }
}

/// What waits for an operand is given something.
#[tactic(auto, unfolding(cx_core::specs::Outcome::either, cx_core::specs::Outcome::gives, cx_core::specs::Outcome::ends, cx_core::specs::Outcome::throws))]
pub fn operand_given<'p>(
    machine: &Machine<'p>,
    state: &mut State<'p>,
    frame: OperandFrame<'p>,
    given: Given<'p>,
) -> Result<Next<'p>, Halt>
    ensures { let p = machine.now.program.now in Steps p (step_given (program_of p) (operand_frame_of frame.entry) (given_of given.entry)) result state.old state.new }
{
    match given {
        Given::Value(v) => operand_value(machine, state, frame, v),
        Given::Truth(x) => operand_truth(machine, state, frame, x),
        Given::Number(object) => operand_object(machine, state, frame, object),
        Given::Nothing => Err(undefined(Kind::Mixed)),
        Given::Values(_) => Err(undefined(Kind::Mixed)),
        Given::Completion(_) => Err(undefined(Kind::Mixed)),
    }
}
