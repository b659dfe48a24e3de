//! Statements that evaluate a full-expression, and those that wait for a check or a block.
ghost use Rattle.cx_core.specs.View.{expr_of, operand_of, init_of};
ghost use Rattle.cx_core.specs.Tree as tree;
ghost use Rattle.cx_plain.specs.Step.{step_statement};
ghost use Rattle.cx_plain_state.specs.Seen.{type_of};
ghost use Rattle.cx_mean_parts.specs.Seen.{stmt_of, stmts_of, table_of, program_of, handlers_of};
ghost use Rattle.cx_mean_parts.specs.Tasks.{level_of};
ghost use Rattle.cx_mean_parts.specs.Steps.{Steps};

use crate::statement::statement_under;
use cx_code::Party;
use cx_core::{Expression, Handler, Initializer, Operand, Statement};
use cx_mean_parts::machine::Machine;
use cx_mean_parts::task::{
    CheckTask, ExpressionTask, Keeper, Level, ObjectTask, Row, StatementTask, Task,
};
use cx_mean_parts::values::result_in_frame;
use cx_mean_parts::waiting::{
    Completion, FollowingFrame, Given, Next, ObjectFrame, OperandFrame, Operation, StatementFrame,
    Waiting,
};
use cx_plain_state::{Halt, ObjectType, State, Value};

/// An operand is evaluated, and its value discarded.
#[tactic(auto, unfolding(cx_core::specs::Outcome::either, cx_core::specs::Outcome::gives, cx_core::specs::Outcome::ends, cx_core::specs::Outcome::throws))]
pub(crate) fn discarded<'p>(
    machine: &Machine<'p>,
    state: &State<'p>,
    level: Level,
    a: &'p Operand,
) -> Result<Next<'p>, Halt>
    ensures { let p = machine.now.program.now in Steps p (step_statement (program_of p) (level_of level) (tree.expression (operand_of a.now))) result state.now state.now }
{
    let task = Task::Expression(ExpressionTask::Evaluated(level, a));
    machine.under(state, task, Waiting::Following(FollowingFrame::Completed))
}

/// A variable that isn't a reference is declared.
#[tactic(auto, unfolding(cx_core::specs::Outcome::either, cx_core::specs::Outcome::gives, cx_core::specs::Outcome::ends, cx_core::specs::Outcome::throws))]
pub(crate) fn variable_declared<'p>(
    machine: &Machine<'p>,
    state: &State<'p>,
    level: Level,
    slot: u32,
    of: ObjectType,
    i: &'p Initializer,
) -> Result<Next<'p>, Halt>
    ensures { let p = machine.now.program.now in Steps p (step_statement (program_of p) (level_of level) (tree.variable_declaration slot (type_of of) (init_of i.now))) result state.now state.now }
{
    let task = Task::Object(ObjectTask::Declaring(level, slot, of, i));
    machine.under(state, task, Waiting::Following(FollowingFrame::Completed))
}

/// A reference is declared. One that is named in its own initialiser denotes nothing yet.
#[tactic(auto, unfolding(cx_core::specs::Outcome::either, cx_core::specs::Outcome::gives, cx_core::specs::Outcome::ends, cx_core::specs::Outcome::throws))]
pub(crate) fn reference_declared<'p>(
    machine: &Machine<'p>,
    state: &mut State<'p>,
    level: Level,
    slot: u32,
    e: &'p Expression,
) -> Result<Next<'p>, Halt>
    ensures { let p = machine.now.program.now in Steps p (step_statement (program_of p) (level_of level) (tree.reference_declaration slot (expr_of e.now))) result state.old state.new }
{
    state.bind(slot, Value::Null)?;
    let full = machine.enter_full_expression(state, level);
    let completed = Waiting::Following(FollowingFrame::Completed);
    let bound = Waiting::Object(ObjectFrame::Bound(slot));
    let task = Task::Expression(ExpressionTask::Expression(level, e));
    machine.under_three(state, task, full, bound, completed)
}

/// One of two statements is run, as a condition decides.
#[tactic(auto, unfolding(cx_core::specs::Outcome::either, cx_core::specs::Outcome::gives, cx_core::specs::Outcome::ends, cx_core::specs::Outcome::throws))]
pub(crate) fn branched<'p>(
    machine: &Machine<'p>,
    state: &State<'p>,
    level: Level,
    c: &'p Operand,
    a: &'p Box<Statement>,
    b: &'p Box<Statement>,
) -> Result<Next<'p>, Halt>
    ensures { let p = machine.now.program.now in let n = table_of p in Steps p (step_statement (program_of p) (level_of level) (tree.if_else (operand_of c.now) (stmt_of n a.now.value) (stmt_of n b.now.value))) result state.now state.now }
{
    let task = Task::Expression(ExpressionTask::EvaluatedTruth(level, c));
    machine.under(
        state,
        task,
        Waiting::Statement(StatementFrame::Branch(level, a, b)),
    )
}

/// A function is left with a value.
#[tactic(auto, unfolding(cx_core::specs::Outcome::either, cx_core::specs::Outcome::gives, cx_core::specs::Outcome::ends, cx_core::specs::Outcome::throws))]
pub(crate) fn value_returned<'p>(
    machine: &Machine<'p>,
    state: &mut State<'p>,
    level: Level,
    a: &'p Operand,
) -> Result<Next<'p>, Halt>
    ensures { let p = machine.now.program.now in Steps p (step_statement (program_of p) (level_of level) (tree.return_value (operand_of a.now))) result state.old state.new }
{
    let full = machine.enter_full_expression(state, level);
    let returning = Waiting::Following(FollowingFrame::Returning);
    let stored = Waiting::Operand(OperandFrame::Operate(Operation::StoreResult));
    let task = Task::Expression(ExpressionTask::Used(level, a));
    machine.under_three(state, task, stored, full, returning)
}

/// A function is left with what a reference denotes.
#[tactic(auto, unfolding(cx_core::specs::Outcome::either, cx_core::specs::Outcome::gives, cx_core::specs::Outcome::ends, cx_core::specs::Outcome::throws))]
pub(crate) fn reference_returned<'p>(
    machine: &Machine<'p>,
    state: &mut State<'p>,
    level: Level,
    e: &'p Expression,
) -> Result<Next<'p>, Halt>
    ensures { let p = machine.now.program.now in Steps p (step_statement (program_of p) (level_of level) (tree.return_reference (expr_of e.now))) result state.old state.new }
{
    let full = machine.enter_full_expression(state, level);
    let task = Task::Expression(ExpressionTask::Expression(level, e));
    let returning = Waiting::Following(FollowingFrame::Returning);
    machine.under_two(state, task, full, returning)
}

/// A function is left once its result object is initialised.
#[tactic(auto, unfolding(cx_core::specs::Outcome::either, cx_core::specs::Outcome::gives, cx_core::specs::Outcome::ends, cx_core::specs::Outcome::throws))]
pub(crate) fn object_returned<'p>(
    machine: &Machine<'p>,
    state: &mut State<'p>,
    level: Level,
    i: &'p Initializer,
) -> Result<Next<'p>, Halt>
    ensures { let p = machine.now.program.now in Steps p (step_statement (program_of p) (level_of level) (tree.return_object (init_of i.now))) result state.old state.new }
{
    let full = machine.enter_full_expression(state, level);
    let place = result_in_frame(state)?;
    let a = state.place_of(place)?;
    let nothing = Given::Completion(Completion::Return(Value::Null));
    let left = Waiting::Following(FollowingFrame::Replace(nothing));
    let task = Task::Expression(ExpressionTask::Initialise(level, i, a));
    machine.under_two(state, task, full, left)
}

/// A contract assertion is checked.
#[tactic(auto, unfolding(cx_core::specs::Outcome::either, cx_core::specs::Outcome::gives, cx_core::specs::Outcome::ends, cx_core::specs::Outcome::throws))]
pub(crate) fn asserted<'p>(
    machine: &Machine<'p>,
    state: &State<'p>,
    level: Level,
    assertion: u32,
    predicate: &'p Operand,
) -> Result<Next<'p>, Halt>
    ensures { let p = machine.now.program.now in let n = table_of p in Steps p (step_statement (program_of p) (level_of level) (tree.contract_assert (n assertion) (operand_of predicate.now))) result state.now state.now }
{
    let row = Row::Statement(assertion, predicate);
    let task = Task::Check(CheckTask::Checks(level, Party::Definer, row));
    machine.under(state, task, Waiting::Following(FollowingFrame::Completed))
}

/// An exception is thrown, once its exception object is made.
#[tactic(auto, unfolding(cx_core::specs::Outcome::either, cx_core::specs::Outcome::gives, cx_core::specs::Outcome::ends, cx_core::specs::Outcome::throws))]
pub(crate) fn exception_made<'p>(
    machine: &Machine<'p>,
    state: &mut State<'p>,
    level: Level,
    of: ObjectType,
    i: &'p Initializer,
) -> Result<Next<'p>, Halt>
    ensures { let p = machine.now.program.now in Steps p (step_statement (program_of p) (level_of level) (tree.throw (type_of of) (init_of i.now))) result state.old state.new }
{
    let full = machine.enter_full_expression(state, level);
    let task = Task::Object(ObjectTask::Making(level, Keeper::Nobody, of, None, i));
    let throwing = Waiting::Object(ObjectFrame::Throwing(of));
    machine.under_two(state, task, throwing, full)
}

/// A block is run, whose exceptions handlers may take.
#[tactic(auto, unfolding(cx_core::specs::Outcome::either, cx_core::specs::Outcome::gives, cx_core::specs::Outcome::ends, cx_core::specs::Outcome::throws))]
pub(crate) fn tried<'p>(
    machine: &Machine<'p>,
    state: &State<'p>,
    level: Level,
    b: &'p [Statement],
    h: &'p [Handler],
) -> Result<Next<'p>, Halt>
    ensures { let p = machine.now.program.now in let n = table_of p in Steps p (step_statement (program_of p) (level_of level) (tree.try (stmts_of n b.now) (handlers_of n h.now))) result state.now state.now }
{
    let frame = Waiting::Statement(StatementFrame::Catching(level, h));
    statement_under(machine, state, StatementTask::Block(level, b), frame)
}
