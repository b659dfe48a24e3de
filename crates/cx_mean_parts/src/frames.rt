//! Frames that a task is done under.
ghost use Rattle.std.specs.Prelude.{◌≡◌, ◌∷◌, IfOk};
ghost use Rattle.cx_plain.specs.Step.{doing};
ghost use Rattle.cx_plain.specs.Task as tasks;
ghost use Rattle.cx_plain_state.specs.Ran.{Ran};
ghost use Rattle.cx_plain_state.specs.Seen.{state_of};
ghost use Rattle.cx_mean_parts.specs.Seen.{table_of};
ghost use Rattle.cx_mean_parts.specs.Tasks.{task_of};
ghost use Rattle.cx_mean_parts.specs.Frames.{frames_of, waiting_of, next_of};
ghost use Rattle.cx_mean_parts.specs.Steps.{GivesNothing};

use crate::machine::Machine;
use crate::task::Task;
use crate::waiting::{FollowingFrame, Given, Next, Waiting};
use cx_plain_state::{Halt, State};
use std::alloc::AllocError;

/// The step that gives nothing.
#[tactic(auto, unfolding(cx_core::specs::Outcome::gives, cx_core::specs::Outcome::throws))]
pub fn silent<'p>(done: Result<(), Halt>) -> Result<Next<'p>, Halt>
    ensures { GivesNothing done result }
{
    match done {
        Ok(()) => Ok(Next::Give(Given::Nothing)),
        Err(halt) => Err(halt),
    }
}

impl<'p> Machine<'p> {
    /// The frame under which a task is followed by another one.
    pub fn then(&self, task: Task<'p>) -> Result<Waiting<'p>, AllocError>
        ensures { let n = table_of self.now.program.now in IfOk result (λ frame. waiting_of n frame ≡ tasks.then_next (task_of n task.entry)) }
    {
        let task = Box::new(self.alloc, task)?;
        Ok(Waiting::Following(FollowingFrame::ThenNext(task)))
    }

    /// One more frame inside others.
    pub fn framed(
        &self,
        frames: Vec<Waiting<'p>>,
        frame: Waiting<'p>,
    ) -> Result<Vec<Waiting<'p>>, AllocError>
        ensures { let n = table_of self.now.program.now in IfOk result (λ all. frames_of n all.items ≡ waiting_of n frame.entry ∷ frames_of n frames.entry.items) }
    {
        let mut all = frames;
        all.push(frame)?;
        Ok(all)
    }

    /// One more task that follows, inside other frames.
    pub fn followed(
        &self,
        frames: Vec<Waiting<'p>>,
        task: Task<'p>,
    ) -> Result<Vec<Waiting<'p>>, AllocError>
        ensures { let n = table_of self.now.program.now in IfOk result (λ all. frames_of n all.items ≡ tasks.then_next (task_of n task.entry) ∷ frames_of n frames.entry.items) }
    {
        let frame = self.then(task)?;
        self.framed(frames, frame)
    }

    /// A task is done under more frames, the innermost last.
    pub fn under_all(
        &self,
        state: &State<'p>,
        task: Task<'p>,
        frames: Vec<Waiting<'p>>,
    ) -> Result<Next<'p>, Halt>
        ensures { let n = table_of self.now.program.now in Ran (next_of n) (doing (task_of n task.entry) (frames_of n frames.entry.items) (state_of state.now)) result (state_of state.now) }
    {
        Ok(Next::Go(task, frames))
    }
}
