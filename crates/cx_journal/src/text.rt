ghost use Rattle.std.specs.Prelude.{◌≡◌, ◌⊎◌};
ghost use Rattle.cx_journal.specs.Lines.{journal_text, counted, IsText};

use crate::ending::put_ending;
use crate::event::put_event;
use crate::fault::JournalFault;
use crate::length::journal_length;
use cx_code::{Image, Run};
use cx_outside::Text;
use std::alloc::Global;

/// The text of the journal of a run of an image, if it has no more than `most` bytes: a line for each event, in which names
/// of the image stand for indices, and a line for the ending.
///
/// - `OutOfMemory`: memory is lacking.
/// - `TooLong`: it has more bytes, so many, or the greatest number of that type where it has more than that.
///
/// The format is this project's own.
#[tactic(auto, unfolding(crate::specs::Lines::told_text))]
pub fn journal_text(
    alloc: Global,
    image: &Image,
    run: &Run,
    most: u64,
) -> Result<Text, JournalFault>
    ensures { IsText most (journal_text image.now run.now) result }
{
    let mut text = Text::new(alloc);
    for event in run.journal.items() {
        put_event(&mut text, image, event)?;
        if text.bytes().len() as u64 > most {
            return Err(too_long(alloc, image, run));
        }
    }
    put_ending(&mut text, run.ending, run.steps)?;
    if text.bytes().len() as u64 > most {
        return Err(too_long(alloc, image, run));
    }
    Ok(text)
}

/// The fault of a journal with too many bytes.
fn too_long(alloc: Global, image: &Image, run: &Run) -> JournalFault
    ensures { (result ≡ JournalFault.OutOfMemory) ⊎ (result ≡ JournalFault.TooLong (counted (journal_text image.now run.now))) }
{
    match journal_length(alloc, image, run) {
        Ok(count) => JournalFault::TooLong(count),
        Err(_) => JournalFault::OutOfMemory,
    }
}
