use cx_code::{Assertion, AssertionKind, DetectionMode, Function, Image, Semantic, Violation};
use cx_outside::{Items, NoMemory, Text};
use cx_violation::{comment, kind, line, mode, place, semantic, violation_of};
use std::alloc::Global;
use std::test::Fail;

/// An image with one function and the texts of its assertions.
fn image(alloc: Global, function: &[u8], comment: &[u8]) -> Result<Image, NoMemory> {
    let mut texts = Items::new(alloc);
    texts.push(Text::copy_of(alloc, b"a.cpp")?)?;
    texts.push(Text::copy_of(alloc, comment)?)?;
    let mut functions = Items::new(alloc);
    functions.push(Function {
        name: Text::copy_of(alloc, function)?,
        counted: true,
        parameters: 0,
        slots: 0,
        result: true,
        code: Items::new(alloc),
        regions: Items::new(alloc),
    })?;
    Ok(Image {
        texts,
        types: Items::new(alloc),
        globals: Items::new(alloc),
        functions,
        assertions: Items::new(alloc),
        main: 0,
        handler: 0,
    })
}

#[derive(Clone, Copy)]
struct Row<'a> {
    function: &'a [u8],
    kind: AssertionKind,
    ordinal: u32,
    mode: DetectionMode,
    semantic: Semantic,
    place: (u32, u32),
    comment: &'a [u8],
    line: &'a [u8],
    numbers: (u8, u8),
}

#[test]
fn lines_and_what_a_handler_asks(rt: HostRuntime) -> Result<(), Fail> {
    let alloc = rt.alloc();
    let rows = [
        Row {
            function: b"main",
            kind: AssertionKind::Assert,
            ordinal: 1,
            mode: DetectionMode::PredicateFalse,
            semantic: Semantic::Observe,
            place: (1, 26),
            comment: b"k < 0",
            line: b"contract violation: assert predicate_false observe a.cpp:1:26 main#assert1: k < 0\n",
            numbers: (3, 1),
        },
        Row {
            function: b"A::get",
            kind: AssertionKind::Post,
            ordinal: 12,
            mode: DetectionMode::PredicateFalse,
            semantic: Semantic::Enforce,
            place: (40, 7),
            comment: b"r : r == v",
            line: b"contract violation: post predicate_false enforce a.cpp:40:7 A::get#post12: r : r == v\n",
            numbers: (2, 1),
        },
        Row {
            function: b"f",
            kind: AssertionKind::Pre,
            ordinal: 2,
            mode: DetectionMode::EvaluationException,
            semantic: Semantic::QuickEnforce,
            place: (3, 100),
            comment: b"g ( )",
            line: b"contract violation: pre evaluation_exception quick_enforce a.cpp:3:100 f#pre2: g ( )\n",
            numbers: (1, 2),
        },
    ];
    for row in rows {
        let assertion = Assertion {
            function: 0,
            kind: row.kind,
            ordinal: row.ordinal,
            file: 0,
            comment: 1,
            line: row.place.0,
            column: row.place.1,
        };
        let image = image(alloc, row.function, row.comment)?;
        let violation = violation_of(alloc, &image, &assertion, row.mode, row.semantic)?;
        assert!(rt; line(alloc, &violation)?.bytes() == row.line);
        assert_eq!(rt; kind(&violation), row.numbers.0);
        assert_eq!(rt; mode(&violation), row.numbers.1);
        assert_eq!(rt; semantic(&violation), row.semantic);
        assert_eq!(rt; place(&violation), row.place);
        assert!(rt; comment(&violation) == row.comment);
    }
    Ok(())
}
