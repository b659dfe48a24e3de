ghost use Rattle.std.specs.Prelude.{◌≡◌, length, IfOk};
ghost use Rattle.cx_journal.specs.Lines.{event_line, ending_line, journal_text, counted};
ghost use Rattle.cx_simulation.specs.ImageMachine.{named};

use crate::ending::put_ending;
use crate::event::put_event;
use cx_code::{Ending, Event, Image, Run};
use cx_outside::{NoMemory, Text};
use std::alloc::Global;

/// How many bytes the text of a journal has, or the greatest number of its type where it has more. It is never held whole.
#[tactic(auto, unfolding(crate::specs::Lines::told_text))]
pub fn journal_length(alloc: Global, image: &Image, run: &Run) -> Result<u64, NoMemory>
    ensures { IfOk result (λ count. count ≡ counted (journal_text image.now run.now)) }
{
    let mut count: u64 = 0;
    for event in run.journal.items() {
        count = count.saturating_add(event_length(alloc, image, event)?);
    }
    Ok(count.saturating_add(ending_length(alloc, run.ending, run.steps)?))
}

fn event_length(alloc: Global, image: &Image, event: &Event) -> Result<u64, NoMemory>
    ensures { IfOk result (λ count. count ≡ length (event_line (named image.now event.now))) }
{
    let mut line = Text::new(alloc);
    put_event(&mut line, image, event)?;
    Ok(line.bytes().len() as u64)
}

fn ending_length(alloc: Global, ending: Ending, steps: u32) -> Result<u64, NoMemory>
    ensures { IfOk result (λ count. count ≡ length (ending_line ending steps)) }
{
    let mut line = Text::new(alloc);
    put_ending(&mut line, ending, steps)?;
    Ok(line.bytes().len() as u64)
}
