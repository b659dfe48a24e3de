use crate::told::{Lines, Violated};
use cx_mean::Meaning;
use cx_outside::NoMemory;
use cx_plain_state::{Answer, Event, Report};
use std::alloc::Global;

/// The events of a meaning.
pub fn events(alloc: Global, trace: &[Event<'_>]) -> Result<Lines, NoMemory> {
    let mut lines = Lines::new(alloc);
    for event in trace {
        put_event(&mut lines, *event)?;
    }
    Ok(lines)
}

/// A meaning, with its answer.
pub fn run(alloc: Global, meaning: &Meaning<'_>) -> Result<Lines, NoMemory> {
    let mut lines = events(alloc, meaning.trace.as_slice())?;
    if let Answer::Ended(ending) = meaning.answer {
        lines.ending(ending)?;
    }
    Ok(lines)
}

fn put_event(lines: &mut Lines, event: Event<'_>) -> Result<(), NoMemory> {
    match event {
        Event::Out(byte) => lines.out(byte),
        Event::Begin(begun) => lines.begin(begun.assertion.bytes(), begun.party, begun.semantic),
        Event::Verdict(verdict) => lines.verdict(verdict),
        Event::Handler(report) => put_handler(lines, report),
        _ => lines.other(),
    }
}

fn put_handler(lines: &mut Lines, report: Report<'_>) -> Result<(), NoMemory> {
    let assertion = report.assertion;
    lines.handler(Violated {
        kind: assertion.kind,
        mode: report.mode,
        semantic: report.semantic,
        file: assertion.file.bytes(),
        line: assertion.line,
        column: assertion.column,
        name: assertion.name.bytes(),
        comment: assertion.comment.bytes(),
    })
}
