ghost use Rattle.std.specs.Prelude.{◌≡◌, ◌&&◌, nat_le, IfOk};
ghost use Rattle.std.specs.List.{list_all, prefix_len};
ghost use Rattle.std.specs.Option.{option_map};
ghost use Rattle.std.specs.Str.{bytes_eq};
ghost use Rattle.cx_plan.specs.Line.{is_in_word, cut, is_name, semantic_of, calls_of, repeat_of, unit_of, unit_line, at_line, worded, line_of};

use crate::plan::Directive;
use cx_code::Semantic;
use cx_core::{Calls, Choice};
use cx_outside::{NoMemory, Text};
use std::alloc::Global;

/// What a line of a plan's text is.
#[derive(Debug, Drop)]
pub enum Line {
    /// It is empty or begins with `#`.
    Silent,
    /// It says something.
    Says(Directive),
    /// It isn't in the grammar.
    Bad,
}

/// What a line of a plan's text is. The only other answer is want of memory.
#[tactic(auto, unfolding(crate::specs::Line::line_of))]
pub fn line_of(alloc: Global, line: &[u8]) -> Result<Line, NoMemory>
    ensures { IfOk result (λ told. told ≡ line_of line.now) }
{
    match line {
        [] => Ok(Line::Silent),
        [b'#', ..] => Ok(Line::Silent),
        _ => worded(alloc, line),
    }
}

/// A line of two or more words, by its first one.
fn worded(alloc: Global, line: &[u8]) -> Result<Line, NoMemory>
    ensures { IfOk result (λ told. told ≡ worded (cut line.now)) }
{
    let Some((word, rest)) = cut(line) else {
        return Ok(Line::Bad);
    };
    if is(word, "unit") {
        unit_line(alloc, rest)
    } else if is(word, "at") {
        at_line(alloc, rest)
    } else {
        Ok(Line::Bad)
    }
}

/// `NAME SEMANTIC CALLS REPEAT`.
fn unit_line(alloc: Global, words: &[u8]) -> Result<Line, NoMemory>
    ensures { IfOk result (λ told. told ≡ unit_line (cut words.now)) }
{
    let Some((name, words)) = cut(words) else {
        return Ok(Line::Bad);
    };
    let Some((semantic, words)) = cut(words) else {
        return Ok(Line::Bad);
    };
    let Some((calls, repeat)) = cut(words) else {
        return Ok(Line::Bad);
    };
    unit_of(
        alloc,
        name,
        semantic_of(semantic),
        calls_of(calls),
        repeat_of(repeat),
    )
}

fn unit_of(
    alloc: Global,
    name: &[u8],
    semantic: Option<Semantic>,
    calls: Option<Calls>,
    repeat: Option<u8>,
) -> Result<Line, NoMemory>
    ensures { IfOk result (λ told. told ≡ unit_of name.now semantic calls repeat) }
{
    let (Some(semantic), Some(calls), Some(repeat)) = (semantic, calls, repeat) else {
        return Ok(Line::Bad);
    };
    if !is_name(name) {
        return Ok(Line::Bad);
    }
    let choice = Choice {
        semantic,
        calls,
        repeat,
    };
    Ok(Line::Says(Directive::Unit(Text::copy_of(alloc, name)?, choice)))
}

/// `NAME ASSERTION SEMANTIC`.
fn at_line(alloc: Global, words: &[u8]) -> Result<Line, NoMemory>
    ensures { IfOk result (λ told. told ≡ at_line (cut words.now)) }
{
    let Some((name, words)) = cut(words) else {
        return Ok(Line::Bad);
    };
    let Some((assertion, semantic)) = cut(words) else {
        return Ok(Line::Bad);
    };
    let Some(semantic) = semantic_of(semantic) else {
        return Ok(Line::Bad);
    };
    if !is_name(name) || !is_name(assertion) {
        return Ok(Line::Bad);
    }
    Ok(Line::Says(Directive::At(
        Text::copy_of(alloc, name)?,
        Text::copy_of(alloc, assertion)?,
        semantic,
    )))
}

/// How many bytes stand before the first blank.
fn word_length(bytes: &[u8]) -> usize
    ensures { result ≡ prefix_len is_in_word bytes.now }
{
    bytes.iter().take_while(|byte| **byte != b' ').count()
}

/// The bytes before the first blank, and those behind it; none where there is no blank.
fn cut(bytes: &[u8]) -> Option<(&[u8], &[u8])>
    ensures { option_map (λ told. (told.0.now, told.1.now)) result ≡ cut bytes.now }
{
    let length = word_length(bytes);
    if length < bytes.len() {
        Some((&bytes[..length], &bytes[length + 1..]))
    } else {
        None
    }
}

/// One or more bytes from 33 to 126.
fn is_name(word: &[u8]) -> bool
    ensures { result ≡ is_name word.now }
{
    match word {
        [] => false,
        [_, ..] => is_plain(word),
    }
}

fn is_plain(word: &[u8]) -> bool
    ensures { result ≡ list_all (λ byte. nat_le 33 byte && nat_le byte 126) word.now }
{
    word.iter().all(|byte| 33 <= *byte && *byte <= 126)
}

fn is(word: &[u8], text: &str) -> bool
    ensures { result ≡ bytes_eq word.now text.now }
{
    word == text.as_bytes()
}

fn semantic_of(word: &[u8]) -> Option<Semantic>
    ensures { result ≡ semantic_of word.now }
{
    if is(word, "ignore") {
        Some(Semantic::Ignore)
    } else if is(word, "observe") {
        Some(Semantic::Observe)
    } else if is(word, "enforce") {
        Some(Semantic::Enforce)
    } else if is(word, "quick_enforce") {
        Some(Semantic::QuickEnforce)
    } else {
        None
    }
}

fn calls_of(word: &[u8]) -> Option<Calls>
    ensures { result ≡ calls_of word.now }
{
    if is(word, "none") {
        Some(Calls::Nothing)
    } else if is(word, "pre") {
        Some(Calls::Pre)
    } else if is(word, "all") {
        Some(Calls::All)
    } else {
        None
    }
}

/// One digit from 0 to 7.
fn repeat_of(word: &[u8]) -> Option<u8>
    ensures { result ≡ repeat_of word.now }
{
    match word {
        [digit] if b'0' <= *digit && *digit <= b'7' => Some(*digit - b'0'),
        _ => None,
    }
}
