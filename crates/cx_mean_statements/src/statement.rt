//! Statements.
ghost use Rattle.std.specs.Prelude.{[], ◌∷◌};
ghost use Rattle.cx_plain.specs.Task as tasks;
ghost use Rattle.cx_plain.specs.Step.{doing, step_statement, step_statements, step_sequence, step_task, step_given, step_thrown};
ghost use Rattle.cx_plain_state.specs.Ran.{Ran};
ghost use Rattle.cx_plain_state.specs.Seen.{state_of, exception_of};
ghost use Rattle.cx_mean_parts.specs.Seen.{stmt_of, stmts_of, table_of, program_of};
ghost use Rattle.cx_mean_parts.specs.Tasks.{level_of, statement_task_of};
ghost use Rattle.cx_mean_parts.specs.Frames.{completion_of, given_of, next_of, statement_frame_of, waiting_of};
ghost use Rattle.cx_mean_parts.specs.Steps.{Steps};

use crate::full_expression::{
    asserted, branched, discarded, exception_made, object_returned, reference_declared,
    reference_returned, tried, value_returned, variable_declared,
};
use crate::handling::{handling, rethrown};
use crate::loops::{for_loop, looping, take_turns, test_given, testing, turn_given, while_loop};
use cx_code::Kind;
use cx_core::Statement;
use cx_mean_parts::machine::Machine;
use cx_mean_parts::task::{Level, StatementTask};
use cx_mean_parts::waiting::{Completion, Given, Next, StatementFrame, Waiting};
use cx_plain_state::{Exception, Halt, State, Value, undefined};

/// A statement, several of them, handlers or a loop are next.
#[tactic(auto, unfolding(cx_core::specs::Outcome::either, cx_core::specs::Outcome::gives, cx_core::specs::Outcome::ends, cx_core::specs::Outcome::throws))]
pub(crate) fn next_statement<'p>(
    machine: &Machine<'p>,
    state: &State<'p>,
    task: StatementTask<'p>,
) -> Result<Next<'p>, Halt>
    ensures { let n = table_of machine.now.program.now in Ran (next_of n) (doing (statement_task_of n task.entry) [] (state_of state.now)) result (state_of state.now) }
{
    let task = machine.statement_of(task)?;
    machine.doing(state, task)
}

/// The same under one more frame.
#[tactic(auto, unfolding(cx_core::specs::Outcome::either, cx_core::specs::Outcome::gives, cx_core::specs::Outcome::ends, cx_core::specs::Outcome::throws))]
pub(crate) fn statement_under<'p>(
    machine: &Machine<'p>,
    state: &State<'p>,
    task: StatementTask<'p>,
    frame: Waiting<'p>,
) -> Result<Next<'p>, Halt>
    ensures { let n = table_of machine.now.program.now in Ran (next_of n) (doing (statement_task_of n task.entry) (waiting_of n frame.entry ∷ []) (state_of state.now)) result (state_of state.now) }
{
    let task = machine.statement_of(task)?;
    machine.under(state, task, frame)
}

/// A statement is run.
#[tactic(auto, unfolding(cx_core::specs::Outcome::either, cx_core::specs::Outcome::gives, cx_core::specs::Outcome::ends, cx_core::specs::Outcome::throws))]
pub(crate) fn statement<'p>(
    machine: &Machine<'p>,
    state: &mut State<'p>,
    level: Level,
    s: &'p Statement,
) -> Result<Next<'p>, Halt>
    ensures { let p = machine.now.program.now in let n = table_of p in Steps p (step_statement (program_of p) (level_of level) (stmt_of n s.now)) result state.old state.new }
{
    match s {
        Statement::Empty => Ok(Next::Give(Given::Completion(Completion::OnToNext))),
        Statement::Expression(e) => discarded(machine, state, level, e),
        Statement::Variable(slot, of, i) => {
            let of = machine.object_type(*of);
            variable_declared(machine, state, level, *slot, of, i)
        }
        Statement::Reference(slot, e) => reference_declared(machine, state, level, *slot, e),
        Statement::Block(b) => next_statement(machine, state, StatementTask::Block(level, b)),
        Statement::If(c, a, b) => branched(machine, state, level, c, a, b),
        Statement::While(c, body) => while_loop(machine, state, level, c, body),
        Statement::For(first, c, step, body) => {
            for_loop(machine, state, level, first, c.as_ref(), step, body)
        }
        Statement::Break => Ok(Next::Give(Given::Completion(Completion::Break))),
        Statement::Continue => Ok(Next::Give(Given::Completion(Completion::Continue))),
        Statement::Return => {
            let nothing = Completion::Return(Value::Null);
            Ok(Next::Give(Given::Completion(nothing)))
        }
        Statement::ReturnValue(a) => value_returned(machine, state, level, a),
        Statement::ReturnReference(e) => reference_returned(machine, state, level, e),
        Statement::ReturnObject(i) => object_returned(machine, state, level, i),
        Statement::ContractAssert(a, predicate) => asserted(machine, state, level, *a, predicate),
        Statement::Throw(of, i) => {
            let of = machine.object_type(*of);
            exception_made(machine, state, level, of, i)
        }
        Statement::Rethrow => rethrown(machine, state),
        Statement::Try(b, h) => tried(machine, state, level, b, h),
    }
}

/// Statements are run in order.
#[tactic(auto, unfolding(cx_core::specs::Outcome::either, cx_core::specs::Outcome::gives, cx_core::specs::Outcome::ends, cx_core::specs::Outcome::throws))]
pub(crate) fn statements<'p>(
    machine: &Machine<'p>,
    state: &mut State<'p>,
    level: Level,
    b: &'p [Statement],
) -> Result<Next<'p>, Halt>
    ensures { let p = machine.now.program.now in let n = table_of p in Steps p (step_statements (program_of p) (level_of level) (stmts_of n b.now)) result state.old state.new }
{
    match b.split_first() {
        None => Ok(Next::Give(Given::Completion(Completion::OnToNext))),
        Some((s, rest)) => {
            let frame = Waiting::Statement(StatementFrame::Sequence(level, rest));
            statement_under(machine, state, StatementTask::Statement(level, s), frame)
        }
    }
}

/// Statements are run in a scope of their own.
#[tactic(auto, unfolding(cx_core::specs::Outcome::either, cx_core::specs::Outcome::gives, cx_core::specs::Outcome::ends, cx_core::specs::Outcome::throws))]
pub(crate) fn block<'p>(
    machine: &Machine<'p>,
    state: &mut State<'p>,
    level: Level,
    b: &'p [Statement],
) -> Result<Next<'p>, Halt>
    ensures { let p = machine.now.program.now in let n = table_of p in Steps p (step_task (program_of p) (tasks.block (level_of level) (stmts_of n b.now))) result state.old state.new }
{
    let scope = machine.enter_scope(state, level);
    statement_under(machine, state, StatementTask::Statements(level, b), scope)
}

/// A statement of several is done.
#[tactic(auto, unfolding(cx_core::specs::Outcome::either, cx_core::specs::Outcome::gives, cx_core::specs::Outcome::ends, cx_core::specs::Outcome::throws))]
pub(crate) fn sequence<'p>(
    machine: &Machine<'p>,
    state: &mut State<'p>,
    level: Level,
    rest: &'p [Statement],
    completion: Completion<'p>,
) -> Result<Next<'p>, Halt>
    ensures { let p = machine.now.program.now in let n = table_of p in Steps p (step_sequence (program_of p) (level_of level) (stmts_of n rest.now) (completion_of completion.entry)) result state.old state.new }
{
    match completion {
        Completion::OnToNext => next_statement(
            machine,
            state,
            StatementTask::Statements(level, rest),
        ),
        Completion::Break => Ok(Next::Give(Given::Completion(Completion::Break))),
        Completion::Continue => Ok(Next::Give(Given::Completion(Completion::Continue))),
        Completion::Return(v) => Ok(Next::Give(Given::Completion(Completion::Return(v)))),
    }
}

/// Statements are run, handlers are tried, or turns of a loop are taken.
#[tactic(auto, unfolding(cx_core::specs::Outcome::either, cx_core::specs::Outcome::gives, cx_core::specs::Outcome::ends, cx_core::specs::Outcome::throws))]
pub fn statement_task<'p>(
    machine: &Machine<'p>,
    state: &mut State<'p>,
    task: StatementTask<'p>,
) -> Result<Next<'p>, Halt>
    ensures { let p = machine.now.program.now in let n = table_of p in Steps p (step_task (program_of p) (statement_task_of n task.entry)) result state.old state.new }
{
    match task {
        StatementTask::Statement(level, s) => statement(machine, state, level, s),
        StatementTask::Statements(level, b) => statements(machine, state, level, b),
        StatementTask::Block(level, b) => block(machine, state, level, b),
        StatementTask::Handling(level, h, e) => handling(machine, state, level, h, e),
        StatementTask::Testing(level, c) => testing(machine, state, level, c),
        StatementTask::Looping(level, turned) => looping(machine, state, level, turned),
        StatementTask::Turns(level, turned, turns) => take_turns(
            machine, state, level, turned, turns,
        ),
    }
}

/// The condition of an `if` is given.
#[tactic(auto, unfolding(cx_core::specs::Outcome::either, cx_core::specs::Outcome::gives, cx_core::specs::Outcome::ends, cx_core::specs::Outcome::throws))]
fn branch_given<'p>(
    machine: &Machine<'p>,
    state: &mut State<'p>,
    level: Level,
    a: &'p Box<Statement>,
    b: &'p Box<Statement>,
    given: Given<'p>,
) -> Result<Next<'p>, Halt>
    ensures { let p = machine.now.program.now in let n = table_of p in Steps p (step_given (program_of p) (tasks.branch (level_of level) (stmt_of n a.now.value) (stmt_of n b.now.value)) (given_of given.entry)) result state.old state.new }
{
    match given {
        Given::Truth(true) => next_statement(machine, state, StatementTask::Statement(level, a)),
        Given::Truth(false) => next_statement(machine, state, StatementTask::Statement(level, b)),
        _ => Err(undefined(Kind::Mixed)),
    }
}

/// How a statement of several was left is given.
#[tactic(auto, unfolding(cx_core::specs::Outcome::either, cx_core::specs::Outcome::gives, cx_core::specs::Outcome::ends, cx_core::specs::Outcome::throws))]
fn sequence_given<'p>(
    machine: &Machine<'p>,
    state: &mut State<'p>,
    level: Level,
    rest: &'p [Statement],
    given: Given<'p>,
) -> Result<Next<'p>, Halt>
    ensures { let p = machine.now.program.now in let n = table_of p in Steps p (step_given (program_of p) (tasks.sequence (level_of level) (stmts_of n rest.now)) (given_of given.entry)) result state.old state.new }
{
    match given {
        Given::Completion(c) => sequence(machine, state, level, rest, c),
        _ => Err(undefined(Kind::Mixed)),
    }
}

/// What waits for a condition or a statement is given something.
#[tactic(auto, unfolding(cx_core::specs::Outcome::either, cx_core::specs::Outcome::gives, cx_core::specs::Outcome::ends, cx_core::specs::Outcome::throws))]
pub fn statement_given<'p>(
    machine: &Machine<'p>,
    state: &mut State<'p>,
    frame: StatementFrame<'p>,
    given: Given<'p>,
) -> Result<Next<'p>, Halt>
    ensures { let p = machine.now.program.now in let n = table_of p in Steps p (step_given (program_of p) (statement_frame_of n frame.entry) (given_of given.entry)) result state.old state.new }
{
    match frame {
        StatementFrame::Branch(level, a, b) => branch_given(machine, state, level, a, b, given),
        StatementFrame::Sequence(level, rest) => sequence_given(machine, state, level, rest, given),
        StatementFrame::Catching(_, _) => Ok(Next::Give(given)),
        StatementFrame::TurnTested(level, turned, turns) => {
            test_given(machine, state, level, turned, turns, given)
        }
        StatementFrame::TurnDone(level, turned, turns) => {
            turn_given(machine, state, level, turned, turns, given)
        }
    }
}

/// An exception passes what waits for a condition or a statement.
#[tactic(auto, unfolding(cx_core::specs::Outcome::either, cx_core::specs::Outcome::gives, cx_core::specs::Outcome::ends, cx_core::specs::Outcome::throws))]
pub fn statement_thrown<'p>(
    machine: &Machine<'p>,
    state: &mut State<'p>,
    frame: StatementFrame<'p>,
    e: Exception,
) -> Result<Next<'p>, Halt>
    ensures { let p = machine.now.program.now in let n = table_of p in Steps p (step_thrown (program_of p) (statement_frame_of n frame.entry) (exception_of e)) result state.old state.new }
{
    match frame {
        StatementFrame::Catching(level, h) => {
            next_statement(machine, state, StatementTask::Handling(level, h, e))
        }
        StatementFrame::Branch(_, _, _) => Err(Halt::Thrown(e)),
        StatementFrame::Sequence(_, _) => Err(Halt::Thrown(e)),
        StatementFrame::TurnTested(_, _, _) => Err(Halt::Thrown(e)),
        StatementFrame::TurnDone(_, _, _) => Err(Halt::Thrown(e)),
    }
}
