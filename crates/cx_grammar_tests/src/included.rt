use crate::judging::{Judged, judge};
use cx_faults::FaultPlace;
use cx_outside::{MemFiles, NoMemory};
use std::alloc::Global;
use std::test::Fail;

/// A unit `a.cpp`, the file `b.h`, and where the unit's syntax fault stands.
#[derive(Clone, Copy)]
struct Included {
    unit: &'static [u8],
    other: &'static [u8],
    file: u32,
    line: u32,
    column: u32,
}

/// Units that include `b.h`: the unit, `b.h`, and the file, the line and the column of the fault.
macro_rules! included {
    ($($unit:literal $other:literal $file:literal $line:literal $column:literal),* $(,)?) => {
        &[$(Included { unit: $unit, other: $other, file: $file, line: $line, column: $column }),*]
    };
}

const FAULTY: &[Included] = included![
    // in the included file
    b"#include \"b.h\"\nint c;\n" b"int a;\nint b c;\n" 1 2 7,
    b"int a;\n\n#include \"b.h\"\n" b"\n\n  ;" 1 3 3,
    b"void f() {\n#include \"b.h\"\n}" b"if (a) ; else ; else ;" 1 1 17,
    b"class T;\n#include \"b.h\"\n" b"void f() { T(1); }" 1 1 13,
    // in the unit's own file, before the include and behind it
    b"int a b;\n#include \"b.h\"\n" b"int c d;" 0 1 7,
    b"#include \"b.h\"\nint c d;\n" b"int a;\nint b;\n" 0 2 7,
    b"#include \"b.h\"\n}" b"int a" 0 2 1,
    b"#include \"b.h\"\nvoid f() { T(1); }" b"class T;" 0 2 13,
    // behind the last byte of the unit's own file
    b"#include \"b.h\"" b"int a" 0 1 15,
    b"#include \"b.h\"\n" b"void f() {\n\n" 0 2 1,
    b"int a\n#include \"b.h\" // more\n " b"// nothing\n" 0 3 2,
];

/// What the unit of two files is found to be.
fn judge_files(alloc: Global, unit: &[u8], other: &[u8]) -> Result<Judged, NoMemory> {
    let mut files = MemFiles::new(alloc, &[])?;
    files.hold(b"a.cpp", unit)?;
    files.hold(b"b.h", other)?;
    judge(alloc, &mut files)
}

#[test]
fn a_fault_stands_in_its_file(rt: HostRuntime) -> Result<(), Fail> {
    let alloc = rt.alloc();
    for (index, row) in FAULTY.iter().enumerate() {
        let place = FaultPlace {
            file: row.file,
            line: row.line,
            column: row.column,
        };
        let found = judge_files(alloc, row.unit, row.other)?;
        assert_eq!(rt; found, Judged::Syntax(place), "unit {index}");
    }
    Ok(())
}

#[test]
fn a_statement_may_stand_in_several_files(rt: HostRuntime) -> Result<(), Fail> {
    let alloc = rt.alloc();
    let unit = b"int\n#include \"b.h\"\n;";
    assert_eq!(rt; judge_files(alloc, unit, b"a")?, Judged::Grammatical);
    let unit = b"void f() {\n#include \"b.h\"\n;\n#include \"b.h\"\n;\n}";
    assert_eq!(rt;
        judge_files(alloc, unit, b"if (a) ;\nelse")?,
        Judged::Grammatical
    );
    Ok(())
}
