ghost use Rattle.std.specs.Prelude.{◌≡◌, ◌++◌, codes, IfOk};
ghost use Rattle.std.specs.Fmt.{decimal};
ghost use Rattle.cx_code.specs.Violation.{kind_name, mode_name, semantic_name, line_of};

use crate::names::{kind_name, mode_name, put_decimal, semantic_name};
use cx_code::Violation;
use cx_outside::{NoMemory, Text};
use std::alloc::Global;

/// The line that the default handler writes of a violation, with its newline:
/// `contract violation: KIND MODE SEMANTIC FILE:LINE:COLUMN ASSERTION: COMMENT`. The only other answer is want of memory.
///
/// Source: [basic.contract.handler] leaves to an implementation what its default handler reports; the line is this
/// project's own.
#[tactic(auto, unfolding(cx_code::specs::Violation::line_of))]
pub fn line(alloc: Global, violation: &Violation) -> Result<Text, NoMemory>
    ensures { IfOk result (λ text. text ≡ line_of violation.now) }
{
    let mut text = Text::new(alloc);
    text.append(b"contract violation: ")?;
    text.append(kind_name(violation.kind).as_bytes())?;
    text.append(b" ")?;
    text.append(mode_name(violation.mode).as_bytes())?;
    text.append(b" ")?;
    text.append(semantic_name(violation.semantic).as_bytes())?;
    text.append(b" ")?;
    text.append(violation.file.bytes())?;
    text.append(b":")?;
    put_decimal(&mut text, violation.line)?;
    text.append(b":")?;
    put_decimal(&mut text, violation.column)?;
    text.append(b" ")?;
    text.append(violation.assertion.bytes())?;
    text.append(b": ")?;
    text.append(violation.comment.bytes())?;
    text.append(b"\n")?;
    Ok(text)
}
