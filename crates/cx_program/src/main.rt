//! The program: the real folder and streams, handed to `cx` with the words.
#![tactic(auto)]

use cx_outside::{DiskFiles, StdSink, StdSource};
use cx_tool::{NO_MEMORY_STATUS, USAGE_STATUS, cx};
use std::env;
use std::io::{self, ErrorKind};
use std::process::ExitCode;

fn main(rt: HostRuntime) -> ExitCode {
    match words_of(&rt) {
        Ok(words) => ExitCode::from(run(rt, &words)),
        Err(error) => refused(&rt, &error),
    }
}

/// The words after the program's name.
fn words_of(rt: &HostRuntime) -> io::Result<Vec<String>> {
    let mut words = Vec::new(rt.alloc());
    for word in env::args(rt)?.skip(1) {
        words.push(word)?;
    }
    Ok(words)
}

/// Ends where the words couldn't be had: for want of memory, or as they are no text.
fn refused(rt: &HostRuntime, error: &io::Error) -> ExitCode {
    let (line, status) = match error.kind() {
        ErrorKind::OutOfMemory => ("cx: no memory", NO_MEMORY_STATUS),
        _ => ("cx: usage", USAGE_STATUS),
    };
    let _ = eprintln!(rt; "{line}");
    ExitCode::from(status)
}

/// Makes the real outside, calls `cx`, and gives its status.
fn run(rt: HostRuntime, words: &[String]) -> u8 {
    let alloc = rt.alloc();
    let mut input = StdSource::new(rt.stdin());
    let mut out = StdSink::new(rt.stdout());
    let mut err = StdSink::new(rt.stderr());
    let mut files = DiskFiles::new(rt);
    let report = cx(alloc, words, &mut files, &mut input, &mut out, &mut err);
    report.status
}
