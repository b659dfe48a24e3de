ghost use Rattle.std.specs.Prelude.{◌≡◌, ◌≢◌, ◌+◌, ◌≤◌, [], None, IfOk, IfErr};
ghost use Rattle.cx_outside.specs.Fault.{Rose};
ghost use Rattle.cx_code.specs.Run.{step};
ghost use Rattle.cx_code.specs.Rules.{IsValid};
ghost use Rattle.cx_sound.specs.Sound.{IsSound};
ghost use Rattle.cx_frame.specs.Stores.{Grows};
ghost use Rattle.cx_machine.specs.States.{state_of, IsCounted, IsTold, Keeps};
ghost use Rattle.cx_machine.specs.Due.{HasRoom};
ghost use Rattle.cx_machine.specs.Loading.{IsLoaded};
ghost use Rattle.cx_machine.specs.Start.{IsStarted};
ghost use Rattle.cx_machine.specs.Advance.{IsAdvance, IsCut, IsRunCause, HasCome, appended_by};

use crate::loading::Program;
use crate::report::Report;
use crate::state::Machine;
use cx_code::{Cause, Ending, Image, Memory};
use cx_frame::Stop;
use cx_outside::Sink;
use cx_sound::laws::{goes_on, starts};
use std::alloc::Global;

/// How a run ended, and how many steps were taken.
#[derive(Clone, Copy, Debug)]
pub struct Finish {
    pub ending: Ending,
    pub steps: u32,
}

/// Takes one step, and tells what it did. Its ending is the answer, if it has one.
#[inline(always)]
fn advance<M: Memory, E: Sink>(
    alloc: Global,
    image: &Image,
    program: &Program,
    machine: &mut Machine,
    memory: &mut M,
    report: &mut Report,
    err: &mut E,
) -> Result<Option<Ending>, Cause>
    requires valid { IsValid image.now }
    requires sound { IsSound image.now (state_of machine.old (M.store memory.old)) }
    requires loaded { IsLoaded image.now program.now }
    requires room { HasRoom (state_of machine.old (M.store memory.old)) }
    requires counted { IsCounted image.now machine.old }
    requires told { IsTold machine.old }
    ensures ok { IfOk result (λ ending. IsAdvance image.now (state_of machine.old (M.store memory.old)) (state_of machine.new (M.store memory.new)) ending report.old report.new (E.taken err.old) (E.taken err.new)) }
    ensures cut { IfErr result (λ cause. IsCut image.now cause (appended_by (step image.now (state_of machine.old (M.store memory.old)))) report.old.journal report.new.journal (E.taken err.old) (E.taken err.new)) }
    ensures cause { IfErr result (λ cause. IsRunCause cause (Rose (E.faults err.old) (E.faults err.new))) }
    ensures keeps { IfOk result (λ ending. ending ≡ None → Keeps image.now machine.old machine.new) }
    ensures grows { IfOk result (λ ending. ending ≡ None → Grows (M.store memory.old) (M.store memory.new)) }
    ensures later { E.faults err.old ≤ E.faults err.new }
{
    match machine.step(alloc, image, program, memory) {
        Ok(None) => Ok(None),
        Ok(Some(event)) => match report.note(alloc, image, event, err) {
            Ok(()) => Ok(None),
            Err(cause) => Err(cause),
        },
        Err(Stop::Ended(ending)) => Ok(Some(ending)),
        Err(Stop::NoMemory) => Err(Cause::NoMemory),
    }
}

/// Takes steps until the program ends or `limit` steps are taken.
pub fn run_steps<M: Memory, E: Sink>(
    alloc: Global,
    image: &Image,
    program: &Program,
    machine: &mut Machine,
    memory: &mut M,
    report: &mut Report,
    err: &mut E,
    limit: u32,
) -> Finish
    requires valid { IsValid image.now }
    requires loaded { IsLoaded image.now program.now }
    requires started { IsStarted image.now machine.old (M.store memory.old) }
    requires journal { report.old.journal ≡ [] }
    requires out { report.old.out ≡ [] }
    ensures come { HasCome result.ending image.now machine.old.input limit result.steps report.new (E.taken err.old) (E.taken err.new) (Rose (E.faults err.old) (E.faults err.new)) }
    ensures within { result.steps ≤ limit }
    ensures started { result.ending ≢ Ending.NotStarted }
    ensures later { E.faults err.old ≤ E.faults err.new }
{
    starts();
    goes_on();
    for taken in 0..limit {
        match advance(alloc, image, program, machine, memory, report, err) {
            Ok(None) => {}
            Ok(Some(ending)) => {
                return Finish {
                    ending,
                    steps: taken + 1,
                };
            }
            Err(cause) => {
                return Finish {
                    ending: Ending::Stopped(cause),
                    steps: taken + 1,
                };
            }
        }
    }
    Finish {
        ending: Ending::StepsSpent,
        steps: limit,
    }
}
