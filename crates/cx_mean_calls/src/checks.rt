//! Blocks of checks, and what follows a violation.
ghost use Rattle.std.specs.Prelude.{◌≡◌, suc, ◌∷◌, map, Some, IfOk, OnOk};
ghost use Rattle.std.specs.Option.{option_map};
ghost use Rattle.cx_core.specs.View.{assertion_of};
ghost use Rattle.cx_plain.specs.Task as tasks;
ghost use Rattle.cx_plain.specs.Step.{calls, step_evaluations, step_handling_violation, step_violated, step_verdict, step_threw, step_task};
ghost use Rattle.cx_plain_state.specs.Seen.{exception_of, state_of, value_of, violation_of};
ghost use Rattle.cx_plain_state.specs.Ran.{Ran, unit_of, values_of};
ghost use Rattle.cx_mean_parts.specs.Seen.{table_of, program_of};
ghost use Rattle.cx_mean_parts.specs.Tasks.{level_of, row_of, check_seen, due_of, task_of, check_task_of};
ghost use Rattle.cx_mean_parts.specs.Frames.{next_of, waiting_of};
ghost use Rattle.cx_mean_parts.specs.CallParts.{begun, checked, default_handled};
ghost use Rattle.cx_mean_parts.specs.Parts.{call_here};
ghost use Rattle.cx_mean_parts.specs.Steps.{Steps};

use crate::row::{begin_told, due_in_all, go_on, next_told, row_due};
use cx_code::{DetectionMode, Ending, Party, Semantic, Verdict};
use cx_core::Assertion;
use cx_mean_parts::frames::silent;
use cx_mean_parts::machine::Machine;
use cx_mean_parts::task::{
    Call, CallTask, Check, CheckTask, Due, ExpressionTask, Level, Row, Task,
};
use cx_mean_parts::waiting::{CallFrame, FollowingFrame, Given, LeavingFrame, Next, Waiting};
use cx_plain_state::{Answer, Event, Exception, Halt, Report, State, Value};

/// The default handler is called, which tells the violation.
#[tactic(auto, unfolding(cx_core::specs::Outcome::either))]
fn default_handled<'p>(state: &mut State<'p>, report: Report<'p>) -> Result<(), Halt>
    ensures { Ran unit_of (default_handled (violation_of report.entry) (state_of state.old)) result (state_of state.new) }
{
    state.spend()?;
    state.append(Event::Handler(report))
}

/// So many evaluations of what is owed are made.
#[tactic(auto, unfolding(cx_core::specs::Outcome::either, cx_core::specs::Outcome::gives, cx_core::specs::Outcome::ends, cx_core::specs::Outcome::throws))]
pub(crate) fn evaluations<'p>(
    machine: &Machine<'p>,
    state: &mut State<'p>,
    level: Level,
    party: Party,
    count: u64,
    due: Vec<Due<'p>>,
) -> Result<Next<'p>, Halt>
    ensures { let p = machine.now.program.now in let n = table_of p in Steps p (step_evaluations (program_of p) (level_of level) party count (map due_of due.entry.items)) result state.old state.new }
{
    match count.checked_sub(1) {
        None => Ok(Next::Give(Given::Nothing)),
        Some(left) => next_evaluation(machine, state, level, party, left, due),
    }
}

/// A predicate is evaluated, and so many evaluations follow.
#[tactic(auto, unfolding(cx_core::specs::Outcome::either, cx_core::specs::Outcome::gives, cx_core::specs::Outcome::ends, cx_core::specs::Outcome::throws))]
fn evaluated_check<'p>(
    machine: &Machine<'p>,
    state: &State<'p>,
    level: Level,
    party: Party,
    left: u64,
    check: Check<'p>,
    due: Vec<Due<'p>>,
) -> Result<Next<'p>, Halt>
    ensures { let n = table_of machine.now.program.now in Ran (next_of n) (checked (level_of level) party left (check_seen check.entry) (map due_of due.entry.items) (state_of state.now)) result (state_of state.now) }
{
    let task = Task::Expression(ExpressionTask::EvaluatedTruth(level, check.predicate));
    let verdict = CallFrame::Verdict(level, &check.planned.assertion, check.planned.semantic);
    let rest = Task::Check(CheckTask::Evaluations(level, party, left, due));
    machine.under_two(state, task, Waiting::Call(verdict), machine.then(rest)?)
}

/// The evaluation that is told begins, and so many follow.
#[tactic(auto, unfolding(cx_core::specs::Outcome::either, cx_core::specs::Outcome::gives, cx_core::specs::Outcome::ends, cx_core::specs::Outcome::throws))]
fn begin_evaluation<'p>(
    machine: &Machine<'p>,
    state: &mut State<'p>,
    level: Level,
    party: Party,
    left: u64,
    check: Check<'p>,
    due: Vec<Due<'p>>,
) -> Result<Next<'p>, Halt>
    ensures { let p = machine.now.program.now in let n = table_of p in Steps p (begun (level_of level) party left (check_seen check.entry) (map due_of due.entry.items)) result state.old state.new }
{
    state.spend()?;
    begin_told(state)?;
    evaluated_check(machine, state, level, party, left, check, due)
}

/// The next evaluation that is told is made, and so many after it.
#[tactic(auto, unfolding(cx_core::specs::Outcome::either, cx_core::specs::Outcome::gives, cx_core::specs::Outcome::ends, cx_core::specs::Outcome::throws))]
fn next_evaluation<'p>(
    machine: &Machine<'p>,
    state: &mut State<'p>,
    level: Level,
    party: Party,
    left: u64,
    due: Vec<Due<'p>>,
) -> Result<Next<'p>, Halt>
    ensures { let p = machine.now.program.now in let n = table_of p in Steps p (step_evaluations (program_of p) (level_of level) party (suc left) (map due_of due.entry.items)) result state.old state.new }
{
    let e = next_told(state)?;
    let Some((check, due)) = go_on(e, party, due) else {
        return Err(Halt::Over(Answer::NotARun));
    };
    begin_evaluation(machine, state, level, party, left, check, due)
}

/// A row of checks is made.
#[tactic(auto, unfolding(cx_core::specs::Outcome::either, cx_core::specs::Outcome::gives, cx_core::specs::Outcome::ends, cx_core::specs::Outcome::throws))]
pub(crate) fn checks<'p>(
    machine: &Machine<'p>,
    state: &mut State<'p>,
    level: Level,
    party: Party,
    row: Row<'p>,
) -> Result<Next<'p>, Halt>
    ensures { let p = machine.now.program.now in let n = table_of p in Steps p (step_task (program_of p) (tasks.checks (level_of level) party (row_of n row.entry))) result state.old state.new }
{
    let due = row_due(machine, row)?;
    let Some(count) = due_in_all(&due) else {
        return Err(Halt::Want);
    };
    let task = CheckTask::Evaluations(level, party, count, due);
    machine.doing(state, Task::Check(task))
}

/// A row of checks is made, and no exception leaves it.
#[tactic(auto, unfolding(cx_core::specs::Outcome::either, cx_core::specs::Outcome::gives, cx_core::specs::Outcome::ends, cx_core::specs::Outcome::throws))]
pub(crate) fn edged_checks<'p>(
    machine: &Machine<'p>,
    state: &mut State<'p>,
    level: Level,
    row: Row<'p>,
) -> Result<Next<'p>, Halt>
    ensures { let p = machine.now.program.now in let n = table_of p in Steps p (step_task (program_of p) (tasks.edged_checks (level_of level) (row_of n row.entry))) result state.old state.new }
{
    let task = Task::Check(CheckTask::Checks(level, Party::Definer, row));
    machine.under(state, task, Waiting::Leaving(LeavingFrame::EdgeIf(true)))
}

/// The violation handler that a unit defines is called.
#[tactic(auto, unfolding(cx_core::specs::Outcome::either, cx_core::specs::Outcome::gives, cx_core::specs::Outcome::ends, cx_core::specs::Outcome::throws))]
fn handler_call<'p>(
    machine: &Machine<'p>,
    state: &State<'p>,
    level: Level,
    function: u32,
    report: Report<'p>,
) -> Result<Next<'p>, Halt>
    ensures { let p = machine.now.program.now in Steps p (step_handling_violation (program_of p) (level_of level) (Some function) (violation_of report.entry)) result state.now state.now }
{
    let arguments = vec![in machine.alloc; Value::Violation(report)]?;
    let call = Call {
        function,
        caller: None,
        unit: state.frame.unit,
        reports: Some(report),
        arguments,
        result: None,
    };
    let task = Task::Call(CallTask::Calling(level.implicit, level.counted, call));
    machine.under(state, task, Waiting::Following(FollowingFrame::Discard))
}

/// A violation is handled.
#[tactic(auto, unfolding(cx_core::specs::Outcome::either, cx_core::specs::Outcome::gives, cx_core::specs::Outcome::ends, cx_core::specs::Outcome::throws))]
pub(crate) fn handling_violation<'p>(
    machine: &Machine<'p>,
    state: &mut State<'p>,
    level: Level,
    report: Report<'p>,
) -> Result<Next<'p>, Halt>
    ensures { let p = machine.now.program.now in Steps p (step_handling_violation (program_of p) (level_of level) p.handler (violation_of report.entry)) result state.old state.new }
{
    match machine.program.handler {
        None => silent(default_handled(state, report)),
        Some(function) => handler_call(machine, state, level, function, report),
    }
}

/// A predicate did not hold.
#[tactic(auto, unfolding(cx_core::specs::Outcome::either, cx_core::specs::Outcome::gives, cx_core::specs::Outcome::ends, cx_core::specs::Outcome::throws))]
pub(crate) fn violated<'p>(
    machine: &Machine<'p>,
    state: &mut State<'p>,
    level: Level,
    semantic: Semantic,
    report: Report<'p>,
) -> Result<Next<'p>, Halt>
    ensures { let p = machine.now.program.now in Steps p (step_violated (program_of p) (level_of level) semantic (violation_of report.entry)) result state.old state.new }
{
    let task = Task::Check(CheckTask::HandlingViolation(level, report));
    match semantic {
        Semantic::Ignore => Ok(Next::Give(Given::Nothing)),
        Semantic::Observe => machine.doing(state, task),
        Semantic::Enforce => machine.under(state, task, Waiting::Call(CallFrame::Terminate)),
        Semantic::QuickEnforce => Err(Halt::Over(Answer::Ended(Ending::ContractTerminated))),
    }
}

/// A predicate has been evaluated.
#[tactic(auto, unfolding(cx_core::specs::Outcome::either, cx_core::specs::Outcome::gives, cx_core::specs::Outcome::ends, cx_core::specs::Outcome::throws))]
pub(crate) fn verdict<'p>(
    machine: &Machine<'p>,
    state: &mut State<'p>,
    level: Level,
    assertion: &'p Assertion,
    semantic: Semantic,
    holds: bool,
) -> Result<Next<'p>, Halt>
    ensures { let p = machine.now.program.now in Steps p (step_verdict (program_of p) (level_of level) (assertion_of assertion.now) semantic holds) result state.old state.new }
{
    if holds {
        return silent(state.append(Event::Verdict(Verdict::Holds)));
    }
    state.append(Event::Verdict(Verdict::False))?;
    let mode = DetectionMode::PredicateFalse;
    let report = Report {
        assertion,
        mode,
        semantic,
    };
    violated(machine, state, level, semantic, report)
}

/// A predicate was left by an exception.
#[tactic(auto, unfolding(cx_core::specs::Outcome::either, cx_core::specs::Outcome::gives, cx_core::specs::Outcome::ends, cx_core::specs::Outcome::throws))]
pub(crate) fn threw<'p>(
    machine: &Machine<'p>,
    state: &mut State<'p>,
    level: Level,
    semantic: Semantic,
    e: Exception,
    report: Report<'p>,
) -> Result<Next<'p>, Halt>
    ensures { let p = machine.now.program.now in Steps p (step_threw (program_of p) (level_of level) semantic (exception_of e) (violation_of report.entry)) result state.old state.new }
{
    match semantic {
        Semantic::Ignore => Ok(Next::Give(Given::Nothing)),
        Semantic::Observe => {
            let holding = machine.enter_handler(state, level, e)?;
            let task = Task::Check(CheckTask::HandlingViolation(level, report));
            machine.under(state, task, holding)
        }
        Semantic::Enforce => {
            let holding = machine.enter_handler(state, level, e)?;
            let task = Task::Check(CheckTask::HandlingViolation(level, report));
            machine.under_two(state, task, holding, Waiting::Call(CallFrame::Terminate))
        }
        Semantic::QuickEnforce => Err(Halt::Over(Answer::Ended(Ending::ContractTerminated))),
    }
}

/// A block of checks is made, or a violation is handled.
#[tactic(auto, unfolding(cx_core::specs::Outcome::either, cx_core::specs::Outcome::gives, cx_core::specs::Outcome::ends, cx_core::specs::Outcome::throws))]
pub fn check_task<'p>(
    machine: &Machine<'p>,
    state: &mut State<'p>,
    task: CheckTask<'p>,
) -> Result<Next<'p>, Halt>
    ensures { let p = machine.now.program.now in let n = table_of p in Steps p (step_task (program_of p) (check_task_of n task.entry)) result state.old state.new }
{
    match task {
        CheckTask::Evaluations(level, party, count, due) => evaluations(
            machine, state, level, party, count, due,
        ),
        CheckTask::Checks(level, party, row) => checks(machine, state, level, party, row),
        CheckTask::EdgedChecks(level, row) => edged_checks(machine, state, level, row),
        CheckTask::HandlingViolation(level, report) => handling_violation(
            machine, state, level, report,
        ),
    }
}
