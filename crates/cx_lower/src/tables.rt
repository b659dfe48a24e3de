//! The texts and the assertions of an image.
ghost use Rattle.std.specs.Prelude.{◌≡◌, ◌+◌, ◌<◌, ◌≤◌, ◌^◌, [], ◌∷◌, ◌++◌, length, if◌then◌else◌, IfOk, OnOk};
ghost use Rattle.std.specs.Str.{bytes_eq};
ghost use Rattle.cx_typed.specs.Built.{most_weight};
ghost use Rattle.cx_lower.specs.Tables.{comments_of, other_files, texts_of, entries_of};

use cx_code::AssertionKind;
use cx_core::Assertion;
use cx_outside::{Items, NoMemory, Text};
use std::alloc::Global;

/// The unit's name, each assertion's comment, and the names of the other files in which assertions stand.
pub fn texts_of(
    alloc: Global,
    unit_name: &[u8],
    assertions: &[Assertion],
) -> Result<Items<Text>, NoMemory>
    ensures { IfOk result (λ texts. texts ≡ texts_of unit_name.now assertions.now) }
{
    let mut texts = Items::new(alloc);
    texts.push(Text::copy_of(alloc, unit_name)?)?;
    put_comments(alloc, &mut texts, assertions)?;
    put_files(alloc, &mut texts, unit_name, assertions)?;
    Ok(texts)
}

fn put_comments(
    alloc: Global,
    texts: &mut Items<Text>,
    assertions: &[Assertion],
) -> Result<(), NoMemory>
    ensures { OnOk result (texts.new ≡ texts.old ++ comments_of assertions.now) }
{
    for assertion in assertions {
        texts.push(Text::copy_of(alloc, assertion.comment.bytes())?)?;
    }
    Ok(())
}

fn put_files(
    alloc: Global,
    texts: &mut Items<Text>,
    unit_name: &[u8],
    assertions: &[Assertion],
) -> Result<(), NoMemory>
    ensures { OnOk result (texts.new ≡ texts.old ++ other_files unit_name.now assertions.now) }
{
    for assertion in assertions {
        put_file(alloc, texts, unit_name, assertion.file.bytes())?;
    }
    Ok(())
}

fn put_file(
    alloc: Global,
    texts: &mut Items<Text>,
    unit_name: &[u8],
    file: &[u8],
) -> Result<(), NoMemory>
    ensures { OnOk result (texts.new ≡ texts.old ++ (if bytes_eq file.now unit_name.now then [] else file.now ∷ [])) }
{
    if file == unit_name {
        return Ok(());
    }
    texts.push(Text::copy_of(alloc, file)?)
}

/// The unit's assertions in order, each with the texts that name its file and that spell its predicate.
pub fn assertions_of(
    alloc: Global,
    unit_name: &[u8],
    assertions: &[Assertion],
) -> Result<Items<cx_code::Assertion>, NoMemory>
    requires { length assertions.now ≤ most_weight }
    ensures { IfOk result (λ entries. entries ≡ entries_of unit_name.now (length assertions.now + 1) 1 assertions.now) }
{
    let mut entries = Items::new(alloc);
    let mut ordinal = 0u32;
    let mut other = assertions.len() as u32;
    for assertion in assertions {
        ordinal += 1;
        let file = file_text(unit_name, assertion.file.bytes(), other);
        other = other.max(file);
        entries.push(cx_code::Assertion {
            function: 0,
            kind: AssertionKind::Assert,
            ordinal,
            file,
            comment: ordinal,
            line: assertion.line,
            column: assertion.column,
        })?;
    }
    Ok(entries)
}

/// The text with the name of an assertion's file, where `last` is the last text that was taken so far.
fn file_text(unit_name: &[u8], file: &[u8], last: u32) -> u32
    requires { last < 2 ^ 24 }
    ensures { result ≡ (if bytes_eq file.now unit_name.now then 0 else last + 1) }
{
    if file == unit_name { 0 } else { last + 1 }
}
