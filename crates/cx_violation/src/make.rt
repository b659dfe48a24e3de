ghost use Rattle.std.specs.Prelude.{◌≡◌, ◌++◌, slice_get, IfOk};
ghost use Rattle.cx_code.specs.Violation.{text_at, name_of, assertion_name, violation_of};

use crate::names::{kind_name, put_decimal};
use cx_code::{Assertion, DetectionMode, Image, Semantic, Violation};
use cx_outside::{NoMemory, Text};
use std::alloc::Global;

/// What a handler is told of a violated assertion.
///
/// Arguments: the allocator; the image, whose texts and functions the assertion names by their indices, where an index
/// that is in no table stands for the empty text; the assertion; how its violation was detected; the semantic of its
/// evaluation. The only other answer is want of memory.
///
/// Source: [support.contract.violation]; the assertion's name is this project's own.
pub fn violation_of(
    alloc: Global,
    image: &Image,
    assertion: &Assertion,
    mode: DetectionMode,
    semantic: Semantic,
) -> Result<Violation, NoMemory>
    ensures { IfOk result (λ violation. violation ≡ violation_of image.now assertion.now mode semantic) }
{
    Ok(Violation {
        kind: assertion.kind,
        semantic,
        mode,
        file: Text::copy_of(alloc, text_at(image, assertion.file))?,
        line: assertion.line,
        column: assertion.column,
        assertion: assertion_name(alloc, image, assertion)?,
        comment: Text::copy_of(alloc, text_at(image, assertion.comment))?,
    })
}

/// A text of an image, or the empty one.
fn text_at(image: &Image, index: u32) -> &[u8]
    ensures { result.now ≡ text_at image.now index }
{
    match image.texts.items().get(index as usize) {
        Some(text) => text.bytes(),
        None => &[],
    }
}

/// The name of a function of an image, or the empty one.
fn function_name(image: &Image, index: u32) -> &[u8]
    ensures { result.now ≡ name_of (slice_get image.now.functions index) }
{
    match image.functions.items().get(index as usize) {
        Some(function) => function.name.bytes(),
        None => &[],
    }
}

/// The name of an assertion: its function's, `#`, its kind's and its number among those of the kind.
fn assertion_name(alloc: Global, image: &Image, assertion: &Assertion) -> Result<Text, NoMemory>
    ensures { IfOk result (λ name. name ≡ assertion_name image.now assertion.now) }
{
    let mut name = Text::copy_of(alloc, function_name(image, assertion.function))?;
    name.append(b"#")?;
    name.append(kind_name(assertion.kind).as_bytes())?;
    put_decimal(&mut name, assertion.ordinal)?;
    Ok(name)
}
