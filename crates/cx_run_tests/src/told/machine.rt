use crate::begins::name_of;
use crate::told::{Lines, Violated};
use cx_code::{Event, Image, Run, Violation};
use cx_outside::NoMemory;
use cx_violation::violation_of;
use std::alloc::Global;

/// The events of a journal of an image.
pub fn events(alloc: Global, image: &Image, journal: &[Event]) -> Result<Lines, NoMemory> {
    let mut lines = Lines::new(alloc);
    for event in journal {
        put_event(alloc, image, &mut lines, *event)?;
    }
    Ok(lines)
}

/// A run of an image, with its ending.
pub fn run(alloc: Global, image: &Image, run: &Run) -> Result<Lines, NoMemory> {
    let mut lines = events(alloc, image, run.journal.items())?;
    lines.ending(run.ending)?;
    Ok(lines)
}

fn put_event(
    alloc: Global,
    image: &Image,
    lines: &mut Lines,
    event: Event,
) -> Result<(), NoMemory> {
    match event {
        Event::Out(byte) => lines.out(byte),
        Event::Begin(index, party, semantic) => {
            let name = name_of(alloc, image, index)?;
            lines.begin(name.bytes(), party, semantic)
        }
        Event::Verdict(verdict) => lines.verdict(verdict),
        Event::Handler(index, mode, semantic) => {
            match image.assertions.items().get(index as usize) {
                Some(assertion) => {
                    let violation = violation_of(alloc, image, assertion, mode, semantic)?;
                    put_handler(lines, &violation)
                }
                None => lines.other(),
            }
        }
        _ => lines.other(),
    }
}

fn put_handler(lines: &mut Lines, violation: &Violation) -> Result<(), NoMemory> {
    lines.handler(Violated {
        kind: violation.kind,
        mode: violation.mode,
        semantic: violation.semantic,
        file: violation.file.bytes(),
        line: violation.line,
        column: violation.column,
        name: violation.assertion.bytes(),
        comment: violation.comment.bytes(),
    })
}
