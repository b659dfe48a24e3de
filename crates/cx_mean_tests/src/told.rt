use crate::build::Made;
use cx_code::{AssertionKind, DetectionMode, Ending, Kind, Party, Semantic, Verdict};
use cx_mean::Meaning;
use cx_outside::Text;
use cx_plain_state::{Answer, Evaluation, Event, Report};
use std::alloc::Global;

/// A run as text: a line for each event, and a last one for how the run ends, or why nothing more is said of it.
pub fn told(alloc: Global, meaning: &Meaning<'_>) -> Made<String> {
    let mut lines = String::new(alloc);
    for event in &meaning.trace {
        tell_event(&mut lines, *event)?;
    }
    tell_answer(&mut lines, meaning.answer)?;
    Ok(lines)
}

fn tell_event(lines: &mut String, event: Event<'_>) -> Made<()> {
    match event {
        Event::Out(byte) => writeln!(lines, "out {byte}")?,
        Event::Input(byte) => writeln!(lines, "in {byte}")?,
        Event::InputEnd => writeln!(lines, "in end")?,
        Event::Begin(evaluation) => tell_begin(lines, evaluation)?,
        Event::Verdict(verdict) => tell_words(lines, "verdict", verdict_word(verdict))?,
        Event::Handler(report) => tell_handler(lines, report)?,
        Event::Throw(name) => tell_words(lines, "throw", text_of(name))?,
        Event::Catch(name) => tell_words(lines, "catch", text_of(name))?,
        Event::Destroyed(name, at) => {
            let class = text_of(name);
            let object = at.object;
            let leaf = at.leaf;
            writeln!(lines, "destroyed {class} {object} {leaf}")?;
        }
    }
    Ok(())
}

fn tell_words(lines: &mut String, first: &str, second: &str) -> Made<()> {
    writeln!(lines, "{first} {second}")?;
    Ok(())
}

fn tell_begin(lines: &mut String, evaluation: &Evaluation) -> Made<()> {
    let assertion = text_of(evaluation.assertion.bytes());
    let party = party_word(evaluation.party);
    let semantic = semantic_word(evaluation.semantic);
    writeln!(lines, "begin {assertion} {party} {semantic}")?;
    Ok(())
}

/// What the handler is told.
fn tell_handler(lines: &mut String, report: Report<'_>) -> Made<()> {
    let assertion = report.assertion;
    let kind = kind_word(assertion.kind);
    let mode = mode_word(report.mode);
    let semantic = semantic_word(report.semantic);
    write!(lines, "handler {kind} {mode} {semantic}")?;
    let file = text_of(assertion.file.bytes());
    let line = assertion.line;
    let column = assertion.column;
    write!(lines, " {file}:{line}:{column}")?;
    let name = text_of(assertion.name.bytes());
    let comment = text_of(assertion.comment.bytes());
    writeln!(lines, " {name}: {comment}")?;
    Ok(())
}

fn tell_answer(lines: &mut String, answer: Answer) -> Made<()> {
    match answer {
        Answer::Ended(ending) => tell_ending(lines, ending)?,
        Answer::Going => writeln!(lines, "going")?,
        Answer::Waiting => writeln!(lines, "waiting")?,
        Answer::NotARun => writeln!(lines, "not a run")?,
    }
    Ok(())
}

fn tell_ending(lines: &mut String, ending: Ending) -> Made<()> {
    match ending {
        Ending::Returned(value) => writeln!(lines, "returned {value}")?,
        Ending::ContractTerminated => writeln!(lines, "contract-terminated")?,
        Ending::Terminated => writeln!(lines, "terminated")?,
        Ending::Undefined(kind) => tell_words(lines, "undefined:", undefined_word(kind))?,
        Ending::TooDeep => writeln!(lines, "too deep")?,
        Ending::StepsSpent | Ending::Stopped(_) | Ending::NotStarted => {
            writeln!(lines, "an ending of a machine alone")?;
        }
    }
    Ok(())
}

/// The text of a name or a comment.
fn text_of(bytes: &[u8]) -> &str {
    str::from_utf8(bytes).unwrap_or("no text")
}

fn party_word(party: Party) -> &'static str {
    match party {
        Party::Definer => "definer",
        Party::Caller => "caller",
    }
}

fn semantic_word(semantic: Semantic) -> &'static str {
    match semantic {
        Semantic::Ignore => "ignore",
        Semantic::Observe => "observe",
        Semantic::Enforce => "enforce",
        Semantic::QuickEnforce => "quick_enforce",
    }
}

fn verdict_word(verdict: Verdict) -> &'static str {
    match verdict {
        Verdict::Holds => "holds",
        Verdict::False => "false",
        Verdict::Threw => "threw",
    }
}

fn kind_word(kind: AssertionKind) -> &'static str {
    match kind {
        AssertionKind::Pre => "pre",
        AssertionKind::Post => "post",
        AssertionKind::Assert => "assert",
    }
}

fn mode_word(mode: DetectionMode) -> &'static str {
    match mode {
        DetectionMode::PredicateFalse => "predicate_false",
        DetectionMode::EvaluationException => "evaluation_exception",
    }
}

fn undefined_word(kind: Kind) -> &'static str {
    match kind {
        Kind::Overflow => "overflow",
        Kind::Division => "division",
        Kind::Shift => "shift",
        Kind::Null => "null",
        Kind::Dead => "dead",
        Kind::Unset => "unset",
        Kind::Flow => "flow",
        Kind::Mixed => "mixed",
    }
}

/// The evaluations that lines of such a text begin, in order.
pub fn begins_in(alloc: Global, lines: &str) -> Made<Vec<Evaluation>> {
    let mut begins = Vec::new(alloc);
    for line in lines.lines() {
        if let Some((assertion, party, semantic)) = begin_in(line) {
            begins.push(Evaluation {
                assertion: Text::copy_of(alloc, assertion.as_bytes())?,
                party,
                semantic,
            })?;
        }
    }
    Ok(begins)
}

/// The assertion, the party and the semantic of a line for the begin of an evaluation.
fn begin_in(line: &str) -> Option<(&str, Party, Semantic)> {
    let rest = line.strip_prefix("begin ")?;
    let (assertion, rest) = rest.split_once(' ')?;
    let (party, semantic) = rest.split_once(' ')?;
    Some((assertion, party_named(party)?, semantic_named(semantic)?))
}

fn party_named(word: &str) -> Option<Party> {
    match word {
        "definer" => Some(Party::Definer),
        "caller" => Some(Party::Caller),
        _ => None,
    }
}

fn semantic_named(word: &str) -> Option<Semantic> {
    match word {
        "ignore" => Some(Semantic::Ignore),
        "observe" => Some(Semantic::Observe),
        "enforce" => Some(Semantic::Enforce),
        "quick_enforce" => Some(Semantic::QuickEnforce),
        _ => None,
    }
}

/// How many evaluations a run begins, how many verdicts they have, and how often a handler is called.
#[derive(Clone, Copy, Debug, PartialEq, Eq)]
pub struct Counts {
    pub begins: usize,
    pub verdicts: usize,
    pub handlers: usize,
    /// All events.
    pub events: usize,
}

/// The counts of a run's events.
pub fn counted(trace: &[Event<'_>]) -> Counts {
    Counts {
        begins: trace
            .iter()
            .filter(|e| matches!(e, Event::Begin(_)))
            .count(),
        verdicts: trace
            .iter()
            .filter(|e| matches!(e, Event::Verdict(_)))
            .count(),
        handlers: trace
            .iter()
            .filter(|e| matches!(e, Event::Handler(_)))
            .count(),
        events: trace.len(),
    }
}
