//! Runs as text: a line for each event, and a last one for how the run ends.
pub mod machine;
pub mod meaning;

use cx_code::{AssertionKind, DetectionMode, Ending, Kind, Party, Semantic, Verdict};
use cx_outside::NoMemory;
use std::alloc::Global;

/// The lines so far.
#[derive(Drop)]
pub struct Lines {
    text: String,
}

/// A violation, as its handler is told it.
#[derive(Clone, Copy)]
pub struct Violated<'a> {
    pub kind: AssertionKind,
    pub mode: DetectionMode,
    pub semantic: Semantic,
    pub file: &'a [u8],
    pub line: u32,
    pub column: u32,
    pub name: &'a [u8],
    pub comment: &'a [u8],
}

impl Lines {
    pub fn new(alloc: Global) -> Lines {
        Lines {
            text: String::new(alloc),
        }
    }

    pub fn text(&self) -> &str {
        self.text.as_str()
    }

    fn out(&mut self, byte: u8) -> Result<(), NoMemory> {
        writeln!(self.text, "out {byte}")?;
        Ok(())
    }

    fn begin(&mut self, name: &[u8], party: Party, semantic: Semantic) -> Result<(), NoMemory> {
        let name = text_of(name);
        let party = party_word(party);
        let semantic = semantic_word(semantic);
        writeln!(self.text, "begin {name} {party} {semantic}")?;
        Ok(())
    }

    fn verdict(&mut self, verdict: Verdict) -> Result<(), NoMemory> {
        let word = verdict_word(verdict);
        writeln!(self.text, "verdict {word}")?;
        Ok(())
    }

    fn handler(&mut self, violated: Violated<'_>) -> Result<(), NoMemory> {
        let kind = kind_word(violated.kind);
        let mode = mode_word(violated.mode);
        let semantic = semantic_word(violated.semantic);
        write!(self.text, "handler {kind} {mode} {semantic}")?;
        let file = text_of(violated.file);
        let line = violated.line;
        let column = violated.column;
        write!(self.text, " {file}:{line}:{column}")?;
        let name = text_of(violated.name);
        let comment = text_of(violated.comment);
        writeln!(self.text, " {name}: {comment}")?;
        Ok(())
    }

    /// An event that no unit has so far.
    fn other(&mut self) -> Result<(), NoMemory> {
        writeln!(self.text, "another event")?;
        Ok(())
    }

    pub fn ending(&mut self, ending: Ending) -> Result<(), NoMemory> {
        match ending {
            Ending::Returned(value) => writeln!(self.text, "returned {value}")?,
            Ending::ContractTerminated => writeln!(self.text, "contract-terminated")?,
            Ending::Undefined(kind) => {
                let word = undefined_word(kind);
                writeln!(self.text, "undefined: {word}")?;
            }
            Ending::StepsSpent => writeln!(self.text, "steps spent")?,
            _ => writeln!(self.text, "another ending")?,
        }
        Ok(())
    }
}

/// The text of a name or a comment.
fn text_of(bytes: &[u8]) -> &str {
    str::from_utf8(bytes).unwrap_or("no text")
}

fn party_word(party: Party) -> &'static str {
    match party {
        Party::Definer => "definer",
        Party::Caller => "caller",
    }
}

fn semantic_word(semantic: Semantic) -> &'static str {
    match semantic {
        Semantic::Ignore => "ignore",
        Semantic::Observe => "observe",
        Semantic::Enforce => "enforce",
        Semantic::QuickEnforce => "quick_enforce",
    }
}

fn verdict_word(verdict: Verdict) -> &'static str {
    match verdict {
        Verdict::Holds => "holds",
        Verdict::False => "false",
        Verdict::Threw => "threw",
    }
}

fn kind_word(kind: AssertionKind) -> &'static str {
    match kind {
        AssertionKind::Pre => "pre",
        AssertionKind::Post => "post",
        AssertionKind::Assert => "assert",
    }
}

fn mode_word(mode: DetectionMode) -> &'static str {
    match mode {
        DetectionMode::PredicateFalse => "predicate_false",
        DetectionMode::EvaluationException => "evaluation_exception",
    }
}

fn undefined_word(kind: Kind) -> &'static str {
    match kind {
        Kind::Overflow => "overflow",
        Kind::Division => "division",
        Kind::Shift => "shift",
        Kind::Null => "null",
        Kind::Dead => "dead",
        Kind::Unset => "unset",
        Kind::Flow => "flow",
        Kind::Mixed => "mixed",
    }
}
