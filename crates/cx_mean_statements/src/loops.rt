//! Loops.
ghost use Rattle.std.specs.Option.{option_map};
ghost use Rattle.std.specs.Prelude.{suc};
ghost use Rattle.cx_core.specs.View.{operand_of, condition_of};
ghost use Rattle.cx_core.specs.Tree as tree;
ghost use Rattle.cx_plain.specs.Task as tasks;
ghost use Rattle.cx_plain.specs.Step.{step_statement, step_testing, step_turns, step_turn_done, step_task, step_given};
ghost use Rattle.cx_mean_parts.specs.Seen.{stmt_of, table_of, program_of};
ghost use Rattle.cx_mean_parts.specs.Tasks.{level_of, loop_of};
ghost use Rattle.cx_mean_parts.specs.Frames.{completion_of, given_of};
ghost use Rattle.cx_mean_parts.specs.StatementParts.{after_turn};
ghost use Rattle.cx_mean_parts.specs.Steps.{Steps};

use crate::statement::{next_statement, statement_under};
use cx_code::Kind;
use cx_core::{Operand, Statement};
use cx_mean_parts::machine::Machine;
use cx_mean_parts::task::{ExpressionTask, Level, Loop, StatementTask, Task};
use cx_mean_parts::waiting::{Completion, Given, Next, StatementFrame, Waiting};
use cx_plain_state::{Answer, Halt, State, undefined};

/// A loop with no first statement is run.
#[tactic(auto, unfolding(cx_core::specs::Outcome::either, cx_core::specs::Outcome::gives, cx_core::specs::Outcome::ends, cx_core::specs::Outcome::throws))]
pub(crate) fn while_loop<'p>(
    machine: &Machine<'p>,
    state: &State<'p>,
    level: Level,
    c: &'p Operand,
    body: &'p Box<Statement>,
) -> Result<Next<'p>, Halt>
    ensures { let p = machine.now.program.now in let n = table_of p in Steps p (step_statement (program_of p) (level_of level) (tree.while_loop (operand_of c.now) (stmt_of n body.now.value))) result state.now state.now }
{
    let turned = Loop {
        condition: Some(c),
        step: None,
        body,
    };
    next_statement(machine, state, StatementTask::Looping(level, turned))
}

/// A loop with a first statement is run, in a scope of its own.
#[tactic(auto, unfolding(cx_core::specs::Outcome::either, cx_core::specs::Outcome::gives, cx_core::specs::Outcome::ends, cx_core::specs::Outcome::throws))]
pub(crate) fn for_loop<'p>(
    machine: &Machine<'p>,
    state: &mut State<'p>,
    level: Level,
    first: &'p Box<Statement>,
    condition: Option<&'p Operand>,
    step: &'p Box<Statement>,
    body: &'p Box<Statement>,
) -> Result<Next<'p>, Halt>
    ensures { let p = machine.now.program.now in let n = table_of p in Steps p (step_statement (program_of p) (level_of level) (tree.for_loop (stmt_of n first.now.value) (condition_of (option_map (λ a. a.now) condition.entry)) (stmt_of n step.now.value) (stmt_of n body.now.value))) result state.old state.new }
{
    let scope = machine.enter_scope(state, level);
    let turned = Loop {
        condition,
        step: Some(step),
        body,
    };
    let turns = machine.statement_of(StatementTask::Looping(level, turned))?;
    let after = machine.then_next(turns)?;
    let begin = machine.statement_of(StatementTask::Statement(level, first))?;
    machine.under_two(state, begin, after, scope)
}

/// The condition of a loop is evaluated.
#[tactic(auto, unfolding(cx_core::specs::Outcome::either, cx_core::specs::Outcome::gives, cx_core::specs::Outcome::ends, cx_core::specs::Outcome::throws))]
pub(crate) fn testing<'p>(
    machine: &Machine<'p>,
    state: &mut State<'p>,
    level: Level,
    condition: Option<&'p Operand>,
) -> Result<Next<'p>, Halt>
    ensures { let p = machine.now.program.now in Steps p (step_testing (program_of p) (level_of level) (condition_of (option_map (λ a. a.now) condition.entry))) result state.old state.new }
{
    match condition {
        None => Ok(Next::Give(Given::Truth(true))),
        Some(a) => {
            let task = Task::Expression(ExpressionTask::EvaluatedTruth(level, a));
            machine.doing(state, task)
        }
    }
}

/// A loop is run: at most as many turns as units of the budget are left.
#[tactic(auto, unfolding(cx_plain_state::specs::Seen::state_of, cx_core::specs::Outcome::gives))]
pub(crate) fn looping<'p>(
    machine: &Machine<'p>,
    state: &mut State<'p>,
    level: Level,
    turned: Loop<'p>,
) -> Result<Next<'p>, Halt>
    ensures { let p = machine.now.program.now in let n = table_of p in Steps p (step_task (program_of p) (tasks.looping (level_of level) (loop_of n turned.entry))) result state.old state.new }
{
    let turns = state.budget;
    next_statement(machine, state, StatementTask::Turns(level, turned, turns))
}

/// A turn of a loop begins, and so many may follow.
#[tactic(auto, unfolding(cx_core::specs::Outcome::either, cx_core::specs::Outcome::gives, cx_core::specs::Outcome::ends, cx_core::specs::Outcome::throws))]
fn turn<'p>(
    machine: &Machine<'p>,
    state: &mut State<'p>,
    level: Level,
    turned: Loop<'p>,
    turns: u64,
) -> Result<Next<'p>, Halt>
    ensures { let p = machine.now.program.now in let n = table_of p in Steps p (step_turns (program_of p) (level_of level) (loop_of n turned.entry) (suc turns)) result state.old state.new }
{
    state.spend()?;
    let frame = Waiting::Statement(StatementFrame::TurnTested(level, turned, turns));
    statement_under(
        machine,
        state,
        StatementTask::Testing(level, turned.condition),
        frame,
    )
}

/// A loop takes at most so many turns.
#[tactic(auto, unfolding(cx_core::specs::Outcome::either, cx_core::specs::Outcome::gives, cx_core::specs::Outcome::ends, cx_core::specs::Outcome::throws))]
pub(crate) fn take_turns<'p>(
    machine: &Machine<'p>,
    state: &mut State<'p>,
    level: Level,
    turned: Loop<'p>,
    turns: u64,
) -> Result<Next<'p>, Halt>
    ensures { let p = machine.now.program.now in let n = table_of p in Steps p (step_turns (program_of p) (level_of level) (loop_of n turned.entry) turns) result state.old state.new }
{
    match turns.checked_sub(1) {
        None => Err(Halt::Over(Answer::Going)),
        Some(left) => turn(machine, state, level, turned, left),
    }
}

/// After a turn of a loop comes its step, and then the next turn.
#[tactic(auto, unfolding(cx_core::specs::Outcome::either, cx_core::specs::Outcome::gives, cx_core::specs::Outcome::ends, cx_core::specs::Outcome::throws))]
fn after_turn<'p>(
    machine: &Machine<'p>,
    state: &State<'p>,
    level: Level,
    turned: Loop<'p>,
    turns: u64,
) -> Result<Next<'p>, Halt>
    ensures { let p = machine.now.program.now in let n = table_of p in Steps p (after_turn (level_of level) (loop_of n turned.entry) turns) result state.now state.now }
{
    match turned.step {
        None => next_statement(machine, state, StatementTask::Turns(level, turned, turns)),
        Some(step) => {
            let next = machine.statement_of(StatementTask::Turns(level, turned, turns))?;
            let next = machine.then_next(next)?;
            statement_under(machine, state, StatementTask::Statement(level, step), next)
        }
    }
}

/// A turn of a loop is done.
#[tactic(auto, unfolding(cx_core::specs::Outcome::either, cx_core::specs::Outcome::gives, cx_core::specs::Outcome::ends, cx_core::specs::Outcome::throws))]
pub(crate) fn turn_done<'p>(
    machine: &Machine<'p>,
    state: &mut State<'p>,
    level: Level,
    turned: Loop<'p>,
    turns: u64,
    completion: Completion<'p>,
) -> Result<Next<'p>, Halt>
    ensures { let p = machine.now.program.now in let n = table_of p in Steps p (step_turn_done (program_of p) (level_of level) (loop_of n turned.entry) turns (completion_of completion.entry)) result state.old state.new }
{
    match completion {
        Completion::OnToNext => after_turn(machine, state, level, turned, turns),
        Completion::Continue => after_turn(machine, state, level, turned, turns),
        Completion::Break => Ok(Next::Give(Given::Completion(Completion::OnToNext))),
        Completion::Return(v) => Ok(Next::Give(Given::Completion(Completion::Return(v)))),
    }
}

/// The condition of a loop is given.
#[tactic(auto, unfolding(cx_core::specs::Outcome::either, cx_core::specs::Outcome::gives, cx_core::specs::Outcome::ends, cx_core::specs::Outcome::throws))]
pub(crate) fn test_given<'p>(
    machine: &Machine<'p>,
    state: &mut State<'p>,
    level: Level,
    turned: Loop<'p>,
    turns: u64,
    given: Given<'p>,
) -> Result<Next<'p>, Halt>
    ensures { let p = machine.now.program.now in let n = table_of p in Steps p (step_given (program_of p) (tasks.turn_tested (level_of level) (loop_of n turned.entry) turns) (given_of given.entry)) result state.old state.new }
{
    match given {
        Given::Truth(true) => {
            let frame = Waiting::Statement(StatementFrame::TurnDone(level, turned, turns));
            statement_under(
                machine,
                state,
                StatementTask::Statement(level, turned.body),
                frame,
            )
        }
        Given::Truth(false) => Ok(Next::Give(Given::Completion(Completion::OnToNext))),
        _ => Err(undefined(Kind::Mixed)),
    }
}

/// How the body of a loop was left is given.
#[tactic(auto, unfolding(cx_core::specs::Outcome::either, cx_core::specs::Outcome::gives, cx_core::specs::Outcome::ends, cx_core::specs::Outcome::throws))]
pub(crate) fn turn_given<'p>(
    machine: &Machine<'p>,
    state: &mut State<'p>,
    level: Level,
    turned: Loop<'p>,
    turns: u64,
    given: Given<'p>,
) -> Result<Next<'p>, Halt>
    ensures { let p = machine.now.program.now in let n = table_of p in Steps p (step_given (program_of p) (tasks.turn_done (level_of level) (loop_of n turned.entry) turns) (given_of given.entry)) result state.old state.new }
{
    match given {
        Given::Completion(c) => turn_done(machine, state, level, turned, turns, c),
        _ => Err(undefined(Kind::Mixed)),
    }
}
