use crate::judging::{Judged, judge_text};
use cx_outside::{NoMemory, Text};
use std::alloc::Global;
use std::test::Fail;

/// `void f(){` and so many blocks in it, each in the one before it, all closed.
fn nested(alloc: Global, blocks: usize) -> Result<Text, NoMemory> {
    let mut text = Text::copy_of(alloc, b"void f(){")?;
    for _ in 0..blocks {
        text.push(b'{')?;
    }
    for _ in 0..blocks {
        text.push(b'}')?;
    }
    text.push(b'}')?;
    Ok(text)
}

/// What the unit with so many nested blocks is found to be.
fn judge_nested(alloc: Global, blocks: usize) -> Result<Judged, NoMemory> {
    let text = nested(alloc, blocks)?;
    judge_text(alloc, text.bytes())
}

/// Open at the first `}` are the four tokens before the body, the body's `{`, those of the blocks, and the `}`.
#[test]
fn so_many_blocks_may_be_nested(rt: HostRuntime) -> Result<(), Fail> {
    let alloc = rt.alloc();
    assert_eq!(rt; judge_nested(alloc, 1018)?, Judged::Grammatical);
    assert_eq!(rt; judge_nested(alloc, 1019)?, Judged::OpenTokens(1025));
    Ok(())
}

/// A unit of 1,000,000 bytes.
#[test]
fn a_unit_of_nested_blocks_alone_has_too_many(rt: HostRuntime) -> Result<(), Fail> {
    let alloc = rt.alloc();
    let text = nested(alloc, 499_995)?;
    assert_eq!(rt; text.bytes().len(), 1_000_000);
    assert_eq!(rt;
        judge_text(alloc, text.bytes())?,
        Judged::OpenTokens(500_001)
    );
    Ok(())
}

/// `void f() {`, three statements for each round, and what ends the unit.
fn rounds(alloc: Global, count: usize, end: &[u8]) -> Result<Text, NoMemory> {
    let mut text = Text::copy_of(alloc, b"void f() {\n")?;
    for _ in 0..count {
        text.append(b"a = b * 2; int c = a; f(c);\n")?;
    }
    text.append(end)?;
    Ok(text)
}

#[test]
fn a_function_of_60000_statements_is_grammatical(rt: HostRuntime) -> Result<(), Fail> {
    let alloc = rt.alloc();
    let text = rounds(alloc, 20_000, b"}")?;
    assert_eq!(rt; judge_text(alloc, text.bytes())?, Judged::Grammatical);
    Ok(())
}
