ghost use Rattle.std.specs.Prelude.{◌≤◌};

use cx_includes::{AssembleFault, Assembled, Placed, assemble, open_tokens};
use cx_lexer::LexFault;
use cx_outside::{MemFiles, NoMemory, Text};
use std::alloc::Global;
use std::test::Fail;

/// The files `a.cpp` and `b.h`, of which calls fail.
fn two(alloc: Global, unit: &[u8], other: &[u8], failing: &[u32]) -> Result<MemFiles, NoMemory> {
    let mut files = MemFiles::new(alloc, failing)?;
    files.hold(b"a.cpp", unit)?;
    files.hold(b"b.h", other)?;
    Ok(files)
}

/// A lexical fault in numbers: what it is, and where it stands or how long the name is.
fn lexical(fault: LexFault) -> (u32, u32) {
    match fault {
        LexFault::OutOfMemory => (10, 0),
        LexFault::BadByte(at) => (11, at),
        LexFault::OpenComment(at) => (12, at),
        LexFault::OpenText(at) => (13, at),
        LexFault::TooWide(at) => (14, at),
        LexFault::LongName(_, count) => (15, count),
    }
}

/// A fault in numbers: what it is, its line, its column and what is known of a lexical fault.
fn numbers(fault: &AssembleFault) -> [u32; 4] {
    match fault {
        AssembleFault::OutOfMemory => [0, 0, 0, 0],
        AssembleFault::Missing(_) => [1, 0, 0, 0],
        AssembleFault::Failed => [2, 0, 0, 0],
        AssembleFault::BadLine(_, line) => [3, *line, 0, 0],
        AssembleFault::Depth(_, line) => [4, *line, 0, 0],
        AssembleFault::Large(_) => [5, 0, 0, 0],
        AssembleFault::Lex(_, line, column, fault) => {
            let (what, at) = lexical(*fault);
            [what, *line, *column, at]
        }
    }
}

/// A unit, another file, the calls that fail, and the unit's first fault in numbers.
#[derive(Clone, Copy)]
struct Row<'a> {
    unit: &'a [u8],
    other: &'a [u8],
    failing: &'a [u32],
    fault: [u32; 4],
}

/// Whether the unit has that first fault.
fn has_fault(alloc: Global, row: Row) -> Result<bool, NoMemory> {
    let mut files = two(alloc, row.unit, row.other, row.failing)?;
    Ok(match assemble(alloc, b"a.cpp", &mut files) {
        Ok(_) => false,
        Err(fault) => numbers(&fault) == row.fault,
    })
}

fn unit_row<'a>(unit: &'a [u8], other: &'a [u8], failing: &'a [u32], fault: [u32; 4]) -> Row<'a> {
    Row {
        unit,
        other,
        failing,
        fault,
    }
}

#[test]
fn a_fault_has_its_place(rt: HostRuntime) -> Result<(), Fail> {
    let alloc = rt.alloc();
    let rows = [
        unit_row(b"int a;\n\t\r@", b"", &[], [11, 2, 3, 9]),
        unit_row(b"/* \xc3\xa9 */@", b"", &[], [11, 1, 9, 8]),
        unit_row(
            b"#include \"b.h\"\n",
            b"int x;\n/* open\n",
            &[],
            [12, 2, 1, 7],
        ),
        unit_row(b"#include b\n", b"", &[], [3, 1, 0, 0]),
        unit_row(b"\n#include \"c.h\" //\n", b"", &[], [1, 0, 0, 0]),
        unit_row(b"int x;", b"", &[1], [2, 0, 0, 0]),
        unit_row(b"#include \"b.h\"\n", b"", &[2], [2, 0, 0, 0]),
    ];
    for row in rows {
        assert!(rt; has_fault(alloc, row)?);
    }
    Ok(())
}

/// A token's file, line and column.
fn place(placed: Option<&Placed>) -> (u32, u32, u32) {
    match placed {
        Some(placed) => (placed.file, placed.line, placed.column),
        None => (0, 0, 0),
    }
}

/// How many tokens and files a unit has, and how many tokens stand before its first include of each header.
fn counts(list: &Assembled) -> (usize, usize, Option<u32>, Option<u32>) {
    (
        list.items().len(),
        list.file_count(),
        list.contracts,
        list.cstdio,
    )
}

/// Whether two files that include each other are taken once each; a comment holds no directive.
fn are_taken_once(alloc: Global) -> Result<bool, NoMemory> {
    let unit = b"#include <contracts>\n#include \"b.h\"\n#pragma once\n/*\n#include x\n*/ int a;\n";
    let other = b"#include \"a.cpp\"\n#pragma once\n#include <cstdio>\nint b;\n";
    let mut files = two(alloc, unit, other, &[])?;
    Ok(match assemble(alloc, b"a.cpp", &mut files) {
        Ok(list) => {
            counts(&list) == (6, 2, Some(0), Some(0))
                && place(list.items().first()) == (1, 4, 1)
                && place(list.items().get(3)) == (0, 6, 4)
        }
        Err(_) => false,
    })
}

#[test]
fn files_that_include_each_other_are_taken_once(rt: HostRuntime) -> Result<(), Fail> {
    assert!(rt; are_taken_once(rt.alloc())?);
    Ok(())
}

/// Files of which each includes the next: `a` the file `b` and so on, and the last one none.
fn chain(alloc: Global, includes: u8) -> Result<MemFiles, NoMemory>
    requires { includes ≤ 20 }
{
    let mut files = MemFiles::new(alloc, &[])?;
    for place in 0..includes {
        let mut text = Text::copy_of(alloc, b"#include \"")?;
        text.push(b'b' + place)?;
        text.append(b"\"\n")?;
        files.hold(&[b'a' + place], text.bytes())?;
    }
    files.hold(&[b'a' + includes], b"int")?;
    Ok(files)
}

/// Whether an include in the first line of the file `q` goes too deep.
fn is_too_deep(fault: &AssembleFault) -> bool {
    match fault {
        AssembleFault::Depth(name, line) => *line == 1 && name.bytes() == b"q".as_slice(),
        _ => false,
    }
}

/// How many files such a chain has, or 0 where an include in the file `q` goes too deep.
fn chained(alloc: Global, includes: u8) -> Result<usize, NoMemory>
    requires { includes ≤ 20 }
{
    let mut files = chain(alloc, includes)?;
    Ok(match assemble(alloc, b"a", &mut files) {
        Ok(list) => list.file_count(),
        Err(fault) => usize::from(!is_too_deep(&fault)),
    })
}

#[test]
fn sixteen_files_are_open_below_the_unit(rt: HostRuntime) -> Result<(), Fail> {
    assert_eq!(rt; chained(rt.alloc(), 16)?, 17);
    assert_eq!(rt; chained(rt.alloc(), 17)?, 0);
    Ok(())
}

/// A text of so many equal bytes between a front and an end.
fn long(alloc: Global, front: &[u8], byte: u8, count: usize, end: &[u8]) -> Result<Text, NoMemory> {
    let mut text = Text::copy_of(alloc, front)?;
    for _ in 0..count {
        text.push(byte)?;
    }
    text.append(end)?;
    Ok(text)
}

#[test]
fn names_and_units_have_a_limit(rt: HostRuntime) -> Result<(), Fail> {
    let alloc = rt.alloc();
    let name = long(alloc, b"#include \"", b'n', 1024, b"\"\n")?;
    assert!(rt; has_fault(alloc, unit_row(name.bytes(), b"", &[], [1, 0, 0, 0]))?);
    let longer = long(alloc, b"\n #include \"", b'n', 1025, b"\"\n")?;
    assert!(rt; has_fault(alloc, unit_row(longer.bytes(), b"", &[], [15, 2, 12, 1025]))?);
    let whole = long(alloc, b"", b' ', 1_048_575, b"@")?;
    assert!(rt;
        has_fault(
            alloc,
            unit_row(whole.bytes(), b"", &[], [11, 1, 1_048_576, 1_048_575])
        )?
    );
    let large = long(alloc, b"", b' ', 1_048_576, b"@")?;
    assert!(rt; has_fault(alloc, unit_row(large.bytes(), b"", &[], [5, 0, 0, 0]))?);
    Ok(())
}

/// `int main(){ return 1 + 1 + .. + 1; }` with so many ones.
fn ones(alloc: Global, count: usize) -> Result<Text, NoMemory> {
    let mut text = Text::copy_of(alloc, b"int main(){ return 1")?;
    for _ in 1..count {
        text.append(b" + 1")?;
    }
    text.append(b"; }")?;
    Ok(text)
}

/// The most tokens of a unit that are open at once, or 0 where it has a fault.
fn most_open(alloc: Global, unit: &[u8]) -> Result<u32, NoMemory> {
    let mut files = two(alloc, unit, b"", &[])?;
    match assemble(alloc, b"a.cpp", &mut files) {
        Ok(list) => open_tokens(alloc, &list),
        Err(_) => Ok(0),
    }
}

#[test]
fn tokens_are_open_until_their_statement_ends(rt: HostRuntime) -> Result<(), Fail> {
    let alloc = rt.alloc();
    assert_eq!(rt; most_open(alloc, ones(alloc, 509)?.bytes())?, 1024);
    assert_eq!(rt; most_open(alloc, ones(alloc, 510)?.bytes())?, 1026);
    assert_eq!(rt; most_open(alloc, b"{ if (a) b; else c; d; }")?, 10);
    assert_eq!(rt; most_open(alloc, b"{ a; b; }")?, 3);
    Ok(())
}
