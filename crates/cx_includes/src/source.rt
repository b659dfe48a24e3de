ghost use Rattle.std.specs.Prelude.{◌≡◌, ◌↔◌, ◌<◌, ◌+◌, ◌^◌, length, IsTrue, IfOk};
ghost use Rattle.cx_includes.specs.Taking.{IsSource, HasOnce};

use crate::assembled::SourceFile;
use crate::part::{Directive, Part};
use crate::reading::read;
use cx_outside::{Items, NoMemory, Text};
use std::alloc::Global;

/// A file that was read, with its parts. Both are kept for when it is included again.
#[derive(Drop)]
pub struct Source {
    pub file: SourceFile,
    pub parts: Items<Part>,
    /// Whether it holds `#pragma once`.
    pub once: bool,
}

impl Source {
    /// Reads a file.
    pub fn new(alloc: Global, name: &[u8], text: Text) -> Result<Source, NoMemory>
        requires { length text + 2 < 2 ^ 32 }
        ensures source { IfOk result IsSource }
        ensures name { IfOk result (λ source. source.file.name ≡ name.now) }
        ensures text { IfOk result (λ source. source.file.text ≡ text) }
    {
        let parts = read(alloc, text.bytes())?;
        let once = has_once(parts.items());
        Ok(Source {
            file: SourceFile {
                name: Text::copy_of(alloc, name)?,
                text,
            },
            parts,
            once,
        })
    }
}

fn has_once(parts: &[Part]) -> bool
    ensures { IsTrue result ↔ HasOnce parts.now }
{
    for part in parts {
        if is_once(*part) {
            return true;
        }
    }
    false
}

fn is_once(part: Part) -> bool
    ensures { IsTrue result ↔ ((line : _) × (part ≡ Part.Line Directive.Once line)) }
{
    match part {
        Part::Line(Directive::Once, _) => true,
        _ => false,
    }
}
