ghost use Rattle.std.specs.Prelude.{◌≡◌, [], ◌∷◌, IfOk, IfErr};
ghost use Rattle.cx_plain.specs.Step.{doing};
ghost use Rattle.cx_plain.specs.Task as tasks;
ghost use Rattle.cx_plain_state.specs.declared.answer.Halt.TheVariants.{Want};
ghost use Rattle.cx_plain_state.specs.Ran.{Ran};
ghost use Rattle.cx_plain_state.specs.Seen.{state_of};
ghost use Rattle.cx_mean_parts.specs.Seen.{table_of};
ghost use Rattle.cx_mean_parts.specs.Tasks.{task_of, statement_task_of};
ghost use Rattle.cx_mean_parts.specs.Frames.{next_of, waiting_of};

use crate::program::Program;
use crate::task::{StatementTask, Task};
use crate::waiting::{FollowingFrame, Next, Waiting};
use cx_plain_state::{Halt, State};
use std::alloc::Global;

/// The program that is run, and where its steps take memory.
#[derive(Clone, Copy)]
pub struct Machine<'p> {
    pub alloc: Global,
    pub program: &'p Program,
}

impl<'p> Machine<'p> {
    /// A task is done under one more frame.
    pub fn under(
        &self,
        state: &State<'p>,
        task: Task<'p>,
        frame: Waiting<'p>,
    ) -> Result<Next<'p>, Halt>
        ensures { let n = table_of self.now.program.now in Ran (next_of n) (doing (task_of n task.entry) (waiting_of n frame.entry ∷ []) (state_of state.now)) result (state_of state.now) }
    {
        Ok(Next::Go(task, vec![in self.alloc; frame]?))
    }

    /// A task is done under no more frames.
    pub fn doing(&self, state: &State<'p>, task: Task<'p>) -> Result<Next<'p>, Halt>
        ensures { let n = table_of self.now.program.now in Ran (next_of n) (doing (task_of n task.entry) [] (state_of state.now)) result (state_of state.now) }
    {
        Ok(Next::Go(task, Vec::new(self.alloc)))
    }

    /// A task is done under two more frames.
    pub fn under_two(
        &self,
        state: &State<'p>,
        task: Task<'p>,
        inner: Waiting<'p>,
        outer: Waiting<'p>,
    ) -> Result<Next<'p>, Halt>
        ensures { let n = table_of self.now.program.now in Ran (next_of n) (doing (task_of n task.entry) (waiting_of n inner.entry ∷ waiting_of n outer.entry ∷ []) (state_of state.now)) result (state_of state.now) }
    {
        Ok(Next::Go(task, vec![in self.alloc; outer, inner]?))
    }

    /// A task is done under three more frames.
    pub fn under_three(
        &self,
        state: &State<'p>,
        task: Task<'p>,
        inner: Waiting<'p>,
        middle: Waiting<'p>,
        outer: Waiting<'p>,
    ) -> Result<Next<'p>, Halt>
        ensures { let n = table_of self.now.program.now in Ran (next_of n) (doing (task_of n task.entry) (waiting_of n inner.entry ∷ waiting_of n middle.entry ∷ waiting_of n outer.entry ∷ []) (state_of state.now)) result (state_of state.now) }
    {
        Ok(Next::Go(task, vec![in self.alloc; outer, middle, inner]?))
    }

    /// The frame under which another task follows.
    pub fn then_next(&self, task: Task<'p>) -> Result<Waiting<'p>, Halt>
        ensures frame { let n = table_of self.now.program.now in IfOk result (λ w. waiting_of n w ≡ tasks.then_next (task_of n task.entry)) }
        ensures want { IfErr result (λ halt. halt ≡ Want) }
    {
        Ok(Waiting::Following(FollowingFrame::ThenNext(Box::new(self.alloc, task)?)))
    }

    /// A task of statements.
    pub fn statement_of(&self, task: StatementTask<'p>) -> Result<Task<'p>, Halt>
        ensures task { let n = table_of self.now.program.now in IfOk result (λ t. task_of n t ≡ statement_task_of n task.entry) }
        ensures want { IfErr result (λ halt. halt ≡ Want) }
    {
        Ok(Task::Statement(Box::new(self.alloc, task)?))
    }
}
