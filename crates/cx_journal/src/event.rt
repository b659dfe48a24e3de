ghost use Rattle.std.specs.Prelude.{◌≡◌, ◌++◌, None, slice_get, OnOk};
ghost use Rattle.std.specs.Fmt.{decimal};
ghost use Rattle.cx_code.specs.Violation.{text_at, name_of, kind_name, mode_name, semantic_name};
ghost use Rattle.cx_code.specs.Violation as source;
ghost use Rattle.cx_simulation.specs.ImageMachine.{assertion_name, type_name, violation_at, evaluation_of, named};
ghost use Rattle.cx_journal.specs.Lines.{party_name, verdict_name, evaluation_text, causes_text, place_text, violation_text, event_text, event_line};

use cx_code::{Assertion, AssertionKind, DetectionMode, Event, Image, Party, Semantic, Verdict};
use cx_outside::{NoMemory, Text};
use itoa::Buffer;

/// Adds the line of an event.
pub fn put_event(out: &mut Text, image: &Image, event: &Event) -> Result<(), NoMemory>
    ensures { OnOk result (out.new ≡ out.old ++ event_line (named image.now event.now)) }
{
    put_event_text(out, image, *event)?;
    out.append(b"\n")?;
    Ok(())
}

fn put_event_text(out: &mut Text, image: &Image, event: Event) -> Result<(), NoMemory>
    ensures { OnOk result (out.new ≡ out.old ++ event_text (named image.now event)) }
{
    match event {
        Event::Out(byte) => {
            out.append(b"out ")?;
            put_number(out, u64::from(byte))
        }
        Event::In(byte) => {
            out.append(b"in ")?;
            put_number(out, u64::from(byte))
        }
        Event::InEnd => out.append(b"in end"),
        Event::Begin(assertion, party, semantic) => {
            out.append(b"begin ")?;
            put_evaluation(out, image, assertion, party, semantic)
        }
        Event::Verdict(verdict) => {
            out.append(b"verdict ")?;
            out.append(verdict_name(verdict).as_bytes())
        }
        Event::Handler(assertion, mode, semantic) => {
            out.append(b"handler ")?;
            put_violation(out, image, assertion, mode, semantic)
        }
        Event::Throw(of) => {
            out.append(b"throw ")?;
            out.append(type_name(image, of))
        }
        Event::Catch(of) => {
            out.append(b"catch ")?;
            out.append(type_name(image, of))
        }
        Event::Destroyed(class, object, leaf) => {
            out.append(b"destroyed ")?;
            out.append(type_name(image, class))?;
            out.append(b" ")?;
            put_number(out, object)?;
            out.append(b" ")?;
            put_number(out, u64::from(leaf))
        }
    }
}

/// `ASSERTION PARTY SEMANTIC`.
fn put_evaluation(
    out: &mut Text,
    image: &Image,
    assertion: u32,
    party: Party,
    semantic: Semantic,
) -> Result<(), NoMemory>
    ensures { OnOk result (out.new ≡ out.old ++ evaluation_text (evaluation_of image.now assertion party semantic)) }
{
    put_name_at(out, image, assertion)?;
    out.append(b" ")?;
    out.append(party_name(party).as_bytes())?;
    out.append(b" ")?;
    out.append(semantic_name(semantic).as_bytes())?;
    Ok(())
}

/// The name of the assertion at an index, or nothing.
fn put_name_at(out: &mut Text, image: &Image, assertion: u32) -> Result<(), NoMemory>
    ensures { OnOk result (out.new ≡ out.old ++ assertion_name image.now (slice_get image.now.assertions assertion)) }
{
    match image.assertions.items().get(assertion as usize) {
        Some(entry) => put_assertion_name(out, image, entry),
        None => Ok(()),
    }
}

/// `KIND MODE SEMANTIC FILE:LINE:COLUMN ASSERTION`.
fn put_violation(
    out: &mut Text,
    image: &Image,
    assertion: u32,
    mode: DetectionMode,
    semantic: Semantic,
) -> Result<(), NoMemory>
    ensures { OnOk result (out.new ≡ out.old ++ violation_text (violation_at image.now (slice_get image.now.assertions assertion) mode semantic)) }
{
    match image.assertions.items().get(assertion as usize) {
        Some(entry) => put_known(out, image, entry, mode, semantic),
        None => put_unknown(out, image, mode, semantic),
    }
}

fn put_known(
    out: &mut Text,
    image: &Image,
    entry: &Assertion,
    mode: DetectionMode,
    semantic: Semantic,
) -> Result<(), NoMemory>
    ensures { OnOk result (out.new ≡ out.old ++ violation_text (source.violation_of image.now entry.now mode semantic)) }
{
    put_causes(out, entry.kind, mode, semantic)?;
    put_place(out, text_at(image, entry.file), entry.line, entry.column)?;
    put_assertion_name(out, image, entry)?;
    Ok(())
}

/// The same where the image has no such assertion. A valid one has.
fn put_unknown(
    out: &mut Text,
    image: &Image,
    mode: DetectionMode,
    semantic: Semantic,
) -> Result<(), NoMemory>
    ensures { OnOk result (out.new ≡ out.old ++ violation_text (violation_at image.now None mode semantic)) }
{
    put_causes(out, AssertionKind::Assert, mode, semantic)?;
    put_place(out, &[], 0, 0)?;
    Ok(())
}

/// `KIND MODE SEMANTIC`, and a blank.
#[tactic(auto, unfolding(crate::specs::Lines::causes_text))]
fn put_causes(
    out: &mut Text,
    kind: AssertionKind,
    mode: DetectionMode,
    semantic: Semantic,
) -> Result<(), NoMemory>
    ensures { OnOk result (out.new ≡ out.old ++ causes_text kind mode semantic) }
{
    out.append(kind_name(kind).as_bytes())?;
    out.append(b" ")?;
    out.append(mode_name(mode).as_bytes())?;
    out.append(b" ")?;
    out.append(semantic_name(semantic).as_bytes())?;
    out.append(b" ")?;
    Ok(())
}

/// `FILE:LINE:COLUMN`, and a blank.
#[tactic(auto, unfolding(crate::specs::Lines::place_text))]
fn put_place(out: &mut Text, file: &[u8], line: u32, column: u32) -> Result<(), NoMemory>
    ensures { OnOk result (out.new ≡ out.old ++ place_text file.now line column) }
{
    out.append(file)?;
    out.append(b":")?;
    put_number(out, u64::from(line))?;
    out.append(b":")?;
    put_number(out, u64::from(column))?;
    out.append(b" ")?;
    Ok(())
}

/// `FUNCTION#KINDORDINAL`.
fn put_assertion_name(out: &mut Text, image: &Image, assertion: &Assertion) -> Result<(), NoMemory>
    ensures { OnOk result (out.new ≡ out.old ++ source.assertion_name image.now assertion.now) }
{
    out.append(function_name(image, assertion.function))?;
    out.append(b"#")?;
    out.append(kind_name(assertion.kind).as_bytes())?;
    put_number(out, u64::from(assertion.ordinal))?;
    Ok(())
}

/// The name of a function of an image, or the empty one.
fn function_name(image: &Image, function: u32) -> &[u8]
    ensures { result.now ≡ name_of (slice_get image.now.functions function) }
{
    match image.functions.items().get(function as usize) {
        Some(entry) => entry.name.bytes(),
        None => &[],
    }
}

/// The name of a type of an image, or the empty one.
fn type_name(image: &Image, of: u32) -> &[u8]
    ensures { result.now ≡ type_name (slice_get image.now.types of) }
{
    match image.types.items().get(of as usize) {
        Some(entry) => entry.name.bytes(),
        None => &[],
    }
}

/// A text of an image, or the empty one.
fn text_at(image: &Image, index: u32) -> &[u8]
    ensures { result.now ≡ text_at image.now index }
{
    match image.texts.items().get(index as usize) {
        Some(text) => text.bytes(),
        None => &[],
    }
}

/// Adds a number in decimal digits.
pub fn put_number(out: &mut Text, n: u64) -> Result<(), NoMemory>
    ensures { OnOk result (out.new ≡ out.old ++ decimal n) }
{
    let mut buffer = Buffer::new();
    out.append(buffer.format(n).as_bytes())
}

fn party_name(party: Party) -> &'static str
    ensures { result.now ≡ party_name party }
{
    match party {
        Party::Definer => "definer",
        Party::Caller => "caller",
    }
}

fn verdict_name(verdict: Verdict) -> &'static str
    ensures { result.now ≡ verdict_name verdict }
{
    match verdict {
        Verdict::Holds => "holds",
        Verdict::False => "false",
        Verdict::Threw => "threw",
    }
}

fn kind_name(kind: AssertionKind) -> &'static str
    ensures { result.now ≡ kind_name kind }
{
    match kind {
        AssertionKind::Pre => "pre",
        AssertionKind::Post => "post",
        AssertionKind::Assert => "assert",
    }
}

fn mode_name(mode: DetectionMode) -> &'static str
    ensures { result.now ≡ mode_name mode }
{
    match mode {
        DetectionMode::PredicateFalse => "predicate_false",
        DetectionMode::EvaluationException => "evaluation_exception",
    }
}

fn semantic_name(semantic: Semantic) -> &'static str
    ensures { result.now ≡ semantic_name semantic }
{
    match semantic {
        Semantic::Ignore => "ignore",
        Semantic::Observe => "observe",
        Semantic::Enforce => "enforce",
        Semantic::QuickEnforce => "quick_enforce",
    }
}
