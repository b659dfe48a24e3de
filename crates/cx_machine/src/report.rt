ghost use Rattle.std.specs.Prelude.{◌≡◌, ◌≤◌, [], ◌∷◌, ◌++◌, OnOk, IfErr};
ghost use Rattle.std.specs.Io.KnownBytes.{Appends};
ghost use Rattle.cx_outside.specs.Fault.{Rose};
ghost use Rattle.cx_code.specs.Output.{written_out_at};
ghost use Rattle.cx_code.specs.Violation.{written_at};
ghost use Rattle.cx_machine.specs.Advance.{IsRunCause, IsCut, TakesSome};
ghost use Rattle.cx_machine.specs.Outcome.{lines_of};

use cx_code::{Cause, Event, Image, Journal};
use cx_outside::{NoMemory, Sink, SinkFault, Text};
use cx_violation::{line, violation_of};
use std::alloc::Global;

/// What a run has done so far.
#[derive(Debug, Drop)]
pub struct Report {
    /// The events.
    pub journal: Journal,
    /// The bytes of the events Out, which are written after the last step.
    pub out: Text,
}

impl Report {
    pub fn new(alloc: Global) -> Self
        ensures journal { result.journal ≡ [] }
        ensures out { result.out ≡ [] }
    {
        Report {
            journal: Journal::new(alloc),
            out: Text::new(alloc),
        }
    }

    /// Notes an event, and writes the default handler's line where the event is its. An event that couldn't be noted has no
    /// line, and want of memory cuts none.
    #[inline(always)]
    pub fn note<E: Sink>(
        &mut self,
        alloc: Global,
        image: &Image,
        event: Event,
        err: &mut E,
    ) -> Result<(), Cause>
        ensures journal { OnOk result (self.new.journal ≡ self.old.journal ++ event ∷ []) }
        ensures out { OnOk result (self.new.out ≡ self.old.out ++ written_out_at event) }
        ensures lines { OnOk result (Appends (E.taken err.old) (E.taken err.new) (lines_of image.now (event ∷ []))) }
        ensures cut { IfErr result (λ cause. IsCut image.now cause (event ∷ []) self.old.journal self.new.journal (E.taken err.old) (E.taken err.new)) }
        ensures cause { IfErr result (λ cause. IsRunCause cause (Rose (E.faults err.old) (E.faults err.new))) }
        ensures later { E.faults err.old ≤ E.faults err.new }
    {
        self.journal.push(event)?;
        self.put(event)?;
        write_default(alloc, image, event, err)
    }

    /// Keeps the byte of an event Out.
    #[inline(always)]
    fn put(&mut self, event: Event) -> Result<(), NoMemory>
        ensures out { OnOk result (self.new.out ≡ self.old.out ++ written_out_at event) }
        ensures journal { self.new.journal ≡ self.old.journal }
    {
        match event {
            Event::Out(byte) => self.out.push(byte),
            _ => Ok(()),
        }
    }
}

/// Writes the default handler's line, where the image has no handler of its own and the event is of one.
#[inline(always)]
fn write_default<E: Sink>(
    alloc: Global,
    image: &Image,
    event: Event,
    err: &mut E,
) -> Result<(), Cause>
    ensures ok { OnOk result (Appends (E.taken err.old) (E.taken err.new) (lines_of image.now (event ∷ []))) }
    ensures err { IfErr result (λ cause. TakesSome cause (E.taken err.old) (E.taken err.new) (lines_of image.now (event ∷ []))) }
    ensures cause { IfErr result (λ cause. IsRunCause cause (Rose (E.faults err.old) (E.faults err.new))) }
    ensures later { E.faults err.old ≤ E.faults err.new }
{
    if image.handler == 0 {
        write_line(alloc, image, event, err)
    } else {
        Ok(())
    }
}

#[cold]
#[inline(never)]
fn write_line<E: Sink>(alloc: Global, image: &Image, event: Event, err: &mut E) -> Result<(), Cause>
    ensures ok { OnOk result (Appends (E.taken err.old) (E.taken err.new) (written_at image.now event)) }
    ensures err { IfErr result (λ cause. TakesSome cause (E.taken err.old) (E.taken err.new) (written_at image.now event)) }
    ensures cause { IfErr result (λ cause. IsRunCause cause (Rose (E.faults err.old) (E.faults err.new))) }
    ensures later { E.faults err.old ≤ E.faults err.new }
{
    let Event::Handler(assertion, mode, semantic) = event else {
        return Ok(());
    };
    let Some(assertion) = image.assertions.items().get(assertion as usize) else {
        return Ok(());
    };
    let violation = violation_of(alloc, image, assertion, mode, semantic)?;
    let text = line(alloc, &violation)?;
    match err.write(text.bytes()) {
        Ok(()) => Ok(()),
        Err(SinkFault::OutOfMemory) => Err(Cause::NoMemory),
        Err(SinkFault::Failed) => Err(Cause::Err),
    }
}
