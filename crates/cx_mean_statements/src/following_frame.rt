//! What is given is replaced, or another task follows.
ghost use Rattle.cx_plain.specs.Step.{step_given};
ghost use Rattle.cx_mean_parts.specs.Seen.{table_of, program_of};
ghost use Rattle.cx_mean_parts.specs.Frames.{given_of, following_frame_of};
ghost use Rattle.cx_mean_parts.specs.Steps.{Steps};
ghost use Rattle.cx_plain.specs.Task as tasks;

use cx_code::Kind;
use cx_mean_parts::machine::Machine;
use cx_mean_parts::waiting::{Completion, FollowingFrame, Given, Next};
use cx_plain_state::{Halt, State, undefined};

/// The value that `return` is given completes its statement.
#[tactic(auto, unfolding(cx_core::specs::Outcome::either, cx_core::specs::Outcome::gives, cx_core::specs::Outcome::ends, cx_core::specs::Outcome::throws))]
fn returning<'p>(
    machine: &Machine<'p>,
    state: &State<'p>,
    given: Given<'p>,
) -> Result<Next<'p>, Halt>
    ensures { let p = machine.now.program.now in Steps p (step_given (program_of p) tasks.returning (given_of given.entry)) result state.now state.now }
{
    match given {
        Given::Value(v) => Ok(Next::Give(Given::Completion(Completion::Return(v)))),
        _ => Err(undefined(Kind::Mixed)),
    }
}

/// What is given is replaced, or another task follows.
#[tactic(auto, unfolding(cx_core::specs::Outcome::either, cx_core::specs::Outcome::gives, cx_core::specs::Outcome::ends, cx_core::specs::Outcome::throws))]
pub fn following_given<'p>(
    machine: &Machine<'p>,
    state: &State<'p>,
    frame: FollowingFrame<'p>,
    given: Given<'p>,
) -> Result<Next<'p>, Halt>
    ensures { let p = machine.now.program.now in let n = table_of p in Steps p (step_given (program_of p) (following_frame_of n frame.entry) (given_of given.entry)) result state.now state.now }
{
    match frame {
        FollowingFrame::Discard => Ok(Next::Give(Given::Nothing)),
        FollowingFrame::ThenNext(task) => machine.doing(state, Box::into_inner(task)),
        FollowingFrame::Replace(other) => Ok(Next::Give(other)),
        FollowingFrame::Completed => Ok(Next::Give(Given::Completion(Completion::OnToNext))),
        FollowingFrame::Returning => returning(machine, state, given),
    }
}
