ghost use Rattle.std.specs.Prelude.{◌≡◌, ◌+◌, ◌++◌, ◌<◌, ◌≤◌, ◌^◌, length, IsTrue, ◌↔◌, MatchOption, codes};
ghost use Rattle.std.specs.List.{prefix_len};
ghost use Rattle.cx_includes.specs.declared.part.Directive.{Directive as Said};
ghost use Rattle.cx_includes.specs.Directive.{begins_directive, is_name_byte, is_line_end, line_from, HasForm, IsDirective};
ghost use Rattle.cx_includes.specs.Stretch.{IsForm, IsFileForm};

use crate::part::{Directive, Span};
use crate::reached::is_line_blank;
use cx_lexer::{begins_line_comment, is_spliced_line, line_length};

/// The directive of the line that begins at a place, if it has one of the four forms.
pub fn directive_at(text: &[u8], at: usize) -> Option<Directive>
    requires inside { at < length text.now }
    requires small { length text.now + 2 < 2 ^ 32 }
    requires begins { IsTrue (begins_directive text.now at) }
    ensures { MatchOption result ((directive : Said) → IsDirective text.now at directive → ⊥) (IsDirective text.now at) }
{
    let rest = &text[at..];
    let length = line_length(rest);
    if is_spliced_line(rest, length) {
        return None;
    }
    form_of(text, &rest[..length], at)
}

/// The form of a line.
fn form_of(text: &[u8], line: &[u8], at: usize) -> Option<Directive>
    requires small { length text.now + 2 < 2 ^ 32 }
    requires inside { at < length text.now }
    requires line { line.now ≡ line_from text.now at }
    ensures { MatchOption result ((directive : Said) → HasForm text.now at directive → ⊥) (HasForm text.now at) }
{
    if is_form(line, b"#pragma once") {
        return Some(Directive::Once);
    }
    if is_form(line, b"#include <contracts>") {
        return Some(Directive::Contracts);
    }
    if is_form(line, b"#include <cstdio>") {
        return Some(Directive::Cstdio);
    }
    let Some(length) = file_name_length(line) else {
        return None;
    };
    let start = at + OPENING.len();
    Some(Directive::File(Span {
        start: start as u32,
        end: (start + length) as u32,
    }))
}

const OPENING: &[u8; 10] = b"#include \"";

/// How many bytes the name of a file has that the line includes.
fn file_name_length(line: &[u8]) -> Option<usize>
    ensures { MatchOption result ((name : _) → IsFileForm line.now name → ⊥) (λ n. (name : _) × (n ≡ length name) × IsFileForm line.now name) }
{
    if !line.starts_with(OPENING) {
        return None;
    }
    let named = &line[OPENING.len()..];
    let length = name_length(named);
    if length > 0 && is_form(&named[length..], b"\"") {
        Some(length)
    } else {
        None
    }
}

/// How many bytes of a file's name stand at the front.
fn name_length(rest: &[u8]) -> usize
    ensures value { result ≡ prefix_len is_name_byte rest.now }
    ensures within { result ≤ length rest.now }
{
    rest.iter().take_while(|byte| is_name_byte(**byte)).count()
}

fn is_name_byte(byte: u8) -> bool
    ensures { result ≡ is_name_byte byte }
{
    33 <= byte && byte <= 126 && byte != b'"'
}

/// Whether the bytes are these, with what may stand at the end of a directive.
fn is_form(line: &[u8], bytes: &[u8]) -> bool
    ensures { IsTrue result ↔ IsForm bytes.now line.now }
{
    line.starts_with(bytes) && is_line_end(&line[bytes.len()..])
}

/// Whether nothing but blanks stands here, and then perhaps a `//` comment.
fn is_line_end(tail: &[u8]) -> bool
    ensures { result ≡ is_line_end tail.now }
{
    for (at, byte) in tail.iter().enumerate() {
        if !is_line_blank(*byte) {
            return begins_line_comment(&tail[at..]);
        }
    }
    true
}
