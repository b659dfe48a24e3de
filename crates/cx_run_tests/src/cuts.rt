//! Runs that are cut at a limit of steps.
use crate::begins::begins_in;
use crate::subject::{Subject, budget_of};
use crate::told::{machine, meaning};
use cx_code::Ending;
use cx_plain_state::Answer;
use std::alloc::Global;
use std::test::Fail;

/// The steps after which a run is cut.
#[derive(Clone, Copy)]
pub enum Cuts {
    /// Each one.
    Each,
    /// Those at which it must have spent one more unit, and no other: for long runs.
    Each64th,
}

impl Cuts {
    fn are_after(self, limit: u32) -> bool {
        match self {
            Cuts::Each => true,
            Cuts::Each64th => limit % 64 == 0,
        }
    }
}

/// The first of such numbers of steps, below those of its whole run, at which a program doesn't permit the machine's run.
pub fn first_other_cut(
    alloc: Global,
    subject: &Subject,
    steps: u32,
    cuts: Cuts,
) -> Result<Option<u32>, Fail> {
    for limit in 1..steps {
        if cuts.are_after(limit) && !is_cut_run(alloc, subject, limit)? {
            return Ok(Some(limit));
        }
    }
    Ok(None)
}

/// Whether a run is cut at the limit; a budget of 64 units for each step, and 64 more, comes at least as far as it; and
/// the 64th part of its steps, less one, is spent no later.
fn is_cut_run(alloc: Global, subject: &Subject, limit: u32) -> Result<bool, Fail> {
    let run = subject.run(limit)?;
    let image = subject.image.image();
    let journal = machine::events(alloc, image, run.journal.items())?;
    let begins = begins_in(alloc, image, run.journal.items())?;
    let far = subject.meaning(begins.as_slice(), budget_of(limit))?;
    let near = subject.meaning(begins.as_slice(), u64::from(limit / 64).saturating_sub(1))?;
    let far_events = meaning::events(alloc, far.trace.as_slice())?;
    let near_events = meaning::events(alloc, near.trace.as_slice())?;
    Ok(
        run.ending == Ending::StepsSpent
            && run.steps == limit
            && !matches!(far.answer, Answer::NotARun)
            && far_events.text().starts_with(journal.text())
            && matches!(near.answer, Answer::Going)
            && journal.text().starts_with(near_events.text()),
    )
}
