ghost use Rattle.std.specs.Prelude.{◌≡◌, ◌≤◌, Some, length, option_map};
ghost use Rattle.cx_code.specs.declared.run.Ending.TheVariants as endings;
ghost use Rattle.cx_journal.specs.Lines.{journal_text};
ghost use Rattle.cx_tool.specs.Seen.{files_seen};
ghost use Rattle.cx_tool.specs.Report.{run_answer, most_of_journal};
ghost use Rattle.cx_tool.specs.Exec.{IsJournaled};

use crate::answer::{Answer, Stream};
use cx_code::{Cause, Ending, Image, Run};
use cx_journal::{JournalFault, journal_text};
use cx_outside::{Files, Limit, PutFault, Text};
use std::alloc::Global;

/// What is decided of a run that began: what it came to, and where it ended or was cut what came of its journal, which is
/// put under the name that it has, if one is asked for.
pub fn journaled<F: Files>(
    alloc: Global,
    name: Option<&[u8]>,
    image: &Image,
    run: &Run,
    files: &mut F,
) -> Answer
    ensures journaled { IsJournaled (option_map (λ bytes. bytes.now) name.entry) image.now run.now (files_seen (F.content files.old) (F.content files.new) (F.faults files.old) (F.faults files.new) (F.put_faults files.old) (F.put_faults files.new)) result }
    ensures later { F.faults files.old ≤ F.faults files.new }
    ensures later_puts { F.put_faults files.old ≤ F.put_faults files.new }
{
    match run.ending {
        Ending::Stopped(cause) => stop_answer(cause),
        _ => ended(alloc, name, image, run, files),
    }
}

/// The answer where a run stopped for this cause.
fn stop_answer(cause: Cause) -> Answer
    ensures { result ≡ run_answer (endings.Stopped cause) }
{
    match cause {
        Cause::NoMemory => Answer::OutOfMemory,
        Cause::Read => Answer::ReadFault,
        Cause::Out => Answer::WriteFault(Stream::Out),
        Cause::Err => Answer::WriteFault(Stream::Err),
    }
}

/// The same of a run that ended or was cut.
fn ended<F: Files>(
    alloc: Global,
    name: Option<&[u8]>,
    image: &Image,
    run: &Run,
    files: &mut F,
) -> Answer
    requires whole { run_answer run.now.ending ≡ Answer.Ran }
    ensures journaled { IsJournaled (option_map (λ bytes. bytes.now) name.entry) image.now run.now (files_seen (F.content files.old) (F.content files.new) (F.faults files.old) (F.faults files.new) (F.put_faults files.old) (F.put_faults files.new)) result }
    ensures later { F.faults files.old ≤ F.faults files.new }
    ensures later_puts { F.put_faults files.old ≤ F.put_faults files.new }
{
    let Some(name) = name else {
        return Answer::Ran;
    };
    match journal_text(alloc, image, run, Limit::JournalText.number()) {
        Ok(text) => put_text(name, image, run, &text, files),
        Err(JournalFault::TooLong(count)) => Answer::TooMany(Limit::JournalText, count),
        Err(JournalFault::OutOfMemory) => Answer::OutOfMemory,
    }
}

/// Puts the text of a journal.
fn put_text<F: Files>(name: &[u8], image: &Image, run: &Run, text: &Text, files: &mut F) -> Answer
    requires whole { run_answer run.now.ending ≡ Answer.Ran }
    requires text { text.now ≡ journal_text image.now run.now }
    requires short { length (journal_text image.now run.now) ≤ most_of_journal }
    ensures journaled { IsJournaled (Some name.now) image.now run.now (files_seen (F.content files.old) (F.content files.new) (F.faults files.old) (F.faults files.new) (F.put_faults files.old) (F.put_faults files.new)) result }
    ensures later { F.faults files.old ≤ F.faults files.new }
    ensures later_puts { F.put_faults files.old ≤ F.put_faults files.new }
{
    match files.put(name, text.bytes()) {
        Ok(()) => Answer::Ran,
        Err(PutFault::OutOfMemory) => Answer::OutOfMemory,
        Err(PutFault::Failed) => Answer::FileFault,
    }
}
