//! The run of a program, step by step, and what it means.
ghost use Rattle.std.specs.Prelude.{◌≡◌, [], map, reverse, IfOk, IfSome};
ghost use Rattle.cx_core.specs.Meaning as meaning;
ghost use Rattle.cx_core.specs.Meaning.{mean};
ghost use Rattle.cx_core.specs.Outcome as outcome;
ghost use Rattle.cx_core.specs.Outcome.{Outcome};
ghost use Rattle.cx_plain.specs.Task as tasks;
ghost use Rattle.cx_plain.specs.Run.{step_config, passing, first};
ghost use Rattle.cx_plain_state.specs.Ran.{Ran};
ghost use Rattle.cx_plain_state.specs.Seen.{state_of, answer_of, evaluation_of, exception_of};
ghost use Rattle.cx_mean_parts.specs.Seen.{Table, table_of, program_of};
ghost use Rattle.cx_mean_parts.specs.Frames.{next_of, frames_of, left_of, given_of};
ghost use Rattle.cx_mean.specs.Runs.{config_of, Stands, Means, meaning_of, settled_from, left_outcome};

use crate::begin::begin;
use crate::step::{given_step, task_step, thrown_step};
use cx_code::{Ending, Kind};
use cx_mean_parts::machine::Machine;
use cx_mean_parts::program::Program;
use cx_mean_parts::task::{Call, CallTask, Task};
use cx_mean_parts::waiting::{Given, Left, Next, Waiting};
use cx_plain_state::{Answer, Evaluation, Event, Exception, Halt, State, Value};
use std::alloc::Global;

/// What a program means: what its run does that can be seen from outside, and how it ends, or why nothing more is said
/// of it. (This project's own.)
#[derive(Drop)]
pub struct Meaning<'p> {
    pub trace: Vec<Event<'p>>,
    pub answer: Answer,
}

/// Why a meaning was not computed: no memory, a number that is too large, or more steps than can be counted. Nothing is
/// claimed of the program.
#[derive(Clone, Copy, Debug)]
pub enum Want {
    Means,
}

/// Where a run stands: a task is to be done, or what a part was left with is passed on.
#[derive(Drop)]
pub(crate) enum Standing<'p> {
    Task(Task<'p>),
    Left(Left<'p>),
}

/// Why a run takes no further step.
#[derive(Drop)]
pub(crate) enum Stop<'p> {
    /// Nothing more is said of it.
    Over(Answer),
    /// No frame waits for what the last part was left with.
    Left(Left<'p>),
    Want,
}

impl From<std::alloc::AllocError> for Want {
    fn from(_: std::alloc::AllocError) -> Self {
        Want::Means
    }
}

impl<T: Drop> From<std::alloc::AllocFailed<T>> for Want {
    fn from(_: std::alloc::AllocFailed<T>) -> Self {
        Want::Means
    }
}

/// What a task or frame comes to is placed under the frames that wait.
#[tactic(auto, unfolding(cx_core::specs::Outcome::gives))]
fn settle<'p>(
    stack: &mut Vec<Waiting<'p>>,
    next: Result<Next<'p>, Halt>,
) -> Result<Standing<'p>, Stop<'p>>
    ensures { (n : Table) (o : Outcome tasks.Next) (s : outcome.State) → Ran (next_of n) o next.entry s → Stands n (settled_from (frames_of n stack.old.items) o) result stack.new.items s }
{
    match next {
        Ok(Next::Give(given)) => Ok(Standing::Left(Left::Given(given))),
        Ok(Next::Go(task, mut frames)) => match stack.append(&mut frames) {
            Ok(()) => Ok(Standing::Task(task)),
            Err(_) => Err(Stop::Want),
        },
        Err(Halt::Thrown(e)) => Ok(Standing::Left(Left::Thrown(e))),
        Err(Halt::Over(answer)) => Err(Stop::Over(answer)),
        Err(Halt::Want) => Err(Stop::Want),
    }
}

/// A number as the value of `main`, where it is an `int`.
fn status(n: i128) -> Option<i32>
    ensures { IfSome result (λ m. m ≡ n) }
{
    if n >= -0x8000_0000 && n <= 0x7fff_ffff {
        Some(n as i32)
    } else {
        None
    }
}

/// The answer of a run that no frame waits for.
#[tactic(auto, unfolding(cx_core::specs::Outcome::gives, cx_core::specs::Outcome::ends, cx_core::specs::Outcome::throws))]
fn conclude(left: Left<'_>) -> Result<Answer, Want>
    ensures { IfOk result (λ answer. (s : outcome.State) → meaning.meaning_of (left_outcome (left_of left.entry) s) ≡ record { trace = reverse s.trace; answer = answer_of answer }) }
{
    match left {
        Left::Given(Given::Value(Value::Number(n))) => match status(n) {
            Some(n) => Ok(Answer::Ended(Ending::Returned(n))),
            None => Err(Want::Means),
        },
        Left::Given(_) => Ok(Answer::Ended(Ending::Undefined(Kind::Mixed))),
        Left::Thrown(_) => Ok(Answer::Ended(Ending::Terminated)),
    }
}

/// The innermost frame takes what a part has given.
#[tactic(auto, unfolding(cx_core::specs::Outcome::either, cx_core::specs::Outcome::gives))]
fn pass_given<'p>(
    machine: &Machine<'p>,
    state: &mut State<'p>,
    stack: &mut Vec<Waiting<'p>>,
    given: Given<'p>,
) -> Result<Standing<'p>, Stop<'p>>
    ensures { let p = machine.now.program.now in let n = table_of p in Stands n (step_config (program_of p) (passing (tasks.given (given_of given.entry)) (frames_of n stack.old.items)) (state_of state.old)) result stack.new.items (state_of state.new) }
{
    match stack.pop() {
        Some(frame) => {
            let next = given_step(machine, state, frame, given);
            settle(stack, next)
        }
        None => Err(Stop::Left(Left::Given(given))),
    }
}

/// An exception is thrown through the innermost frame.
#[tactic(auto, unfolding(cx_core::specs::Outcome::either, cx_core::specs::Outcome::gives))]
fn pass_thrown<'p>(
    machine: &Machine<'p>,
    state: &mut State<'p>,
    stack: &mut Vec<Waiting<'p>>,
    e: Exception,
) -> Result<Standing<'p>, Stop<'p>>
    ensures { let p = machine.now.program.now in let n = table_of p in Stands n (step_config (program_of p) (passing (tasks.thrown (exception_of e)) (frames_of n stack.old.items)) (state_of state.old)) result stack.new.items (state_of state.new) }
{
    match stack.pop() {
        Some(frame) => {
            let next = thrown_step(machine, state, frame, e);
            settle(stack, next)
        }
        None => Err(Stop::Left(Left::Thrown(e))),
    }
}

/// A step is taken.
#[tactic(auto, unfolding(cx_core::specs::Outcome::either, cx_core::specs::Outcome::gives))]
fn step<'p>(
    machine: &Machine<'p>,
    state: &mut State<'p>,
    stack: &mut Vec<Waiting<'p>>,
    at: Standing<'p>,
) -> Result<Standing<'p>, Stop<'p>>
    ensures { let p = machine.now.program.now in let n = table_of p in Stands n (step_config (program_of p) (config_of n at.entry stack.old.items) (state_of state.old)) result stack.new.items (state_of state.new) }
{
    match at {
        Standing::Task(task) => {
            let next = task_step(machine, state, task);
            settle(stack, next)
        }
        Standing::Left(Left::Given(given)) => pass_given(machine, state, stack, given),
        Standing::Left(Left::Thrown(e)) => pass_thrown(machine, state, stack, e),
    }
}

/// The call of `main`.
#[tactic(auto, unfolding(cx_core::specs::Outcome::either, cx_core::specs::Outcome::gives))]
fn first<'p>(machine: &Machine<'p>) -> Standing<'p>
    ensures { let p = machine.now.program.now in config_of (table_of p) result [] ≡ first (program_of p) }
{
    let arguments = Vec::new(machine.alloc);
    let call = Call {
        function: machine.program.main,
        caller: None,
        unit: 0,
        reports: None,
        arguments,
        result: None,
    };
    Standing::Task(Task::Call(CallTask::Counted(4096, call)))
}

/// The program is run from a state in which it has not begun.
#[tactic(auto, unfolding(cx_core::specs::Outcome::either, cx_core::specs::Outcome::gives))]
fn run<'p>(machine: &Machine<'p>, state: &mut State<'p>) -> Result<Answer, Want>
    ensures { IfOk result (λ answer. Means (program_of machine.now.program.now) (state_of state.old) (answer_of answer) (state_of state.new)) }
{
    let mut stack = Vec::new(machine.alloc);
    let mut at = first(machine);
    for _step in 0..u64::MAX {
        at = match step(machine, state, &mut stack, at) {
            Ok(at) => at,
            Err(Stop::Over(answer)) => return Ok(answer),
            Err(Stop::Left(left)) => {
                let answer = conclude(left)?;
                return Ok(answer);
            }
            Err(Stop::Want) => return Err(Want::Means),
        };
    }
    Err(Want::Means)
}

/// What a program means: its events and its answer. `begins` are the evaluations of assertions that are told, in order;
/// `input` the bytes that it may read; no more than `budget` units are spent. An error says only that memory, a number
/// or the steps were wanting. (This project's own.)
pub fn mean_of<'p>(
    alloc: Global,
    program: &'p Program,
    begins: &'p [Evaluation],
    input: &'p [u8],
    budget: u64,
) -> Result<Meaning<'p>, Want>
    ensures { IfOk result (λ m. meaning_of m ≡ mean (program_of program.now) (map evaluation_of begins.now) input.now budget) }
{
    let machine = Machine { alloc, program };
    let mut state = begin(&machine, begins, input, budget)?;
    let answer = run(&machine, &mut state)?;
    let State { trace, .. } = state;
    Ok(Meaning { trace, answer })
}
