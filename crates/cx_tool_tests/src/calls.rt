mod journals;
mod operators;
mod statements;
mod words;

use cx_code::{Event, Party, Semantic, Verdict};
use cx_outside::{MemFiles, MemSink, MemSource};
use cx_tool::cx;
use std::alloc::Global;
use std::process::Abort;
use std::test::Fail;

const WORDS: [&str; 4] = ["exec", "-o", "a.img", "a.cpp"];

fn words_of(alloc: Global, texts: &[&str]) -> Result<Vec<String>, Fail> {
    let mut words = Vec::new(alloc);
    for text in texts {
        words.push(String::from_str(alloc, text)?)?;
    }
    Ok(words)
}

/// A call of the program over files in memory, and what it should come to.
#[derive(Clone, Copy)]
struct Case<'a> {
    words: &'a [&'a str],
    text: Option<&'a [u8]>,
    included: Option<&'a [u8]>,
    file_calls_failing: &'a [u32],
    out_calls_failing: &'a [u32],
    err_calls_failing: &'a [u32],
    status: u8,
    out: &'a [u8],
    err: &'a [u8],
}

impl<'a> Case<'a> {
    fn of_unit(text: &'a [u8], status: u8, err: &'a [u8]) -> Self {
        Case {
            words: &WORDS,
            text: Some(text),
            included: None,
            file_calls_failing: &[],
            out_calls_failing: &[],
            err_calls_failing: &[],
            status,
            out: b"",
            err,
        }
    }
}

fn check(rt: &impl Abort, alloc: Global, case: Case<'_>) -> Result<(), Fail> {
    let words = words_of(alloc, case.words)?;
    check_words(rt, alloc, &words, case)
}

/// The same with words that were made before.
fn check_words(
    rt: &impl Abort,
    alloc: Global,
    words: &[String],
    case: Case<'_>,
) -> Result<(), Fail> {
    let mut files = MemFiles::new(alloc, case.file_calls_failing)?;
    if let Some(text) = case.text {
        files.hold(b"a.cpp", text)?;
    }
    if let Some(text) = case.included {
        files.hold(b"b.h", text)?;
    }
    let mut input = MemSource::new(alloc, b"", &[])?;
    let mut out = MemSink::new(alloc, case.out_calls_failing)?;
    let mut err = MemSink::new(alloc, case.err_calls_failing)?;
    let report = cx(alloc, words, &mut files, &mut input, &mut out, &mut err);
    assert_eq!(rt; report.status, case.status);
    assert!(rt; err.taken() == case.err);
    assert!(rt; out.taken() == case.out);
    Ok(())
}

/// The same with one option and its value.
fn check_option(
    rt: &impl Abort,
    alloc: Global,
    option: &str,
    value: &str,
    case: Case<'_>,
) -> Result<(), Fail> {
    let words = words_of(alloc, &["exec", "-o", "a.img", option, value, "a.cpp"])?;
    check_words(rt, alloc, &words, case)
}

#[test]
fn a_unit_runs_to_its_status(rt: HostRuntime) -> Result<(), Fail> {
    let rows = [
        Case::of_unit(
            b"int main(){ contract_assert(1 < 2); return 7; }",
            7,
            b"cx: returned 7\n",
        ),
        Case::of_unit(
            b"int main(){ contract_assert(2 < 1); return 0; }",
            134,
            b"contract violation: assert predicate_false enforce a.cpp:1:13 main#assert1: 2 < 1\ncx: contract-terminated\n",
        ),
        Case::of_unit(
            b"int main(){ return 2147483647; }",
            255,
            b"cx: returned 2147483647\n",
        ),
        Case::of_unit(b"int main(){return 0;}", 0, b"cx: returned 0\n"),
        Case::of_unit(
            b"int main ( ) {\treturn\n1 < 2 < 3\r; }\n",
            1,
            b"cx: returned 1\n",
        ),
        Case::of_unit(
            b"int main(){ return ((1)<(0<(5))); }",
            0,
            b"cx: returned 0\n",
        ),
        Case::of_unit(b"int main(){ return 1'0'2; }", 102, b"cx: returned 102\n"),
        Case::of_unit(
            b"int main(){\n contract_assert(1);\n\tcontract_assert((7)<1'000<0);\n return 3; }",
            134,
            b"contract violation: assert predicate_false enforce a.cpp:3:2 main#assert2: ( 7 ) < 1'000 < 0\ncx: contract-terminated\n",
        ),
        Case::of_unit(
            b"int main(){ /* note */ contract_assert(0); return 3; }",
            134,
            b"contract violation: assert predicate_false enforce a.cpp:1:24 main#assert1: 0\ncx: contract-terminated\n",
        ),
        Case::of_unit(
            b"#pragma once\n#include <contracts> // note\nint main(){ return 2; } // end",
            2,
            b"cx: returned 2\n",
        ),
        Case {
            included: Some(b"contract_assert(1);\n contract_assert(2 < 1);"),
            ..Case::of_unit(
                b"int main(){\n#include \"b.h\"\nreturn 0; }",
                134,
                b"contract violation: assert predicate_false enforce b.h:2:2 main#assert2: 2 < 1\ncx: contract-terminated\n",
            )
        },
        Case {
            words: &["exec", "-o", "a.cpp", "a.cpp"],
            ..Case::of_unit(b"int main(){ return 4; }", 4, b"cx: returned 4\n")
        },
    ];
    for row in rows {
        check(&rt, rt.alloc(), row)?;
    }
    Ok(())
}

#[test]
fn a_unit_outside_the_language_is_not_built(rt: HostRuntime) -> Result<(), Fail> {
    are_unbuilt(
        &rt,
        rt.alloc(),
        &[
            b"",
            b"int f(){ return 1; }",
            b"int main(){ return 1 && 2; }",
            b"int main(){ return 2147483648; }",
            b"int main(){ return 07; }",
        ],
    )
}

/// Units that are grammatical and not built.
fn are_unbuilt(rt: &impl Abort, alloc: Global, texts: &[&[u8]]) -> Result<(), Fail> {
    for text in texts {
        let case = Case::of_unit(text, 77, b"cx: not built: a.cpp\n");
        check(rt, alloc, case)?;
    }
    Ok(())
}

#[test]
fn a_fault_of_a_unit_is_named_by_its_place(rt: HostRuntime) -> Result<(), Fail> {
    let rows = [
        Case::of_unit(
            b"int main(){ return 1$; }",
            65,
            b"cx: a.cpp: a.cpp:1:21: X1\n",
        ),
        Case {
            included: Some(b"int x;\n/* open"),
            ..Case::of_unit(b"#include \"b.h\"\n", 65, b"cx: a.cpp: b.h:2:1: X2\n")
        },
        Case::of_unit(b"#include b", 65, b"cx: a.cpp: a.cpp:1:1: I1\n"),
        Case::of_unit(b"\n  #include b", 65, b"cx: a.cpp: a.cpp:2:1: I1\n"),
        Case::of_unit(b"#include \"a.cpp\"\n", 65, b"cx: a.cpp: a.cpp:1:1: I2\n"),
        Case::of_unit(
            b"int main(){ return 9223372036854775808; }",
            65,
            b"cx: a.cpp: a.cpp:1:20: X4\n",
        ),
        Case::of_unit(
            b"int main(){ puts(\"\\012\"); }",
            65,
            b"cx: a.cpp: a.cpp:1:18: X3\n",
        ),
        Case::of_unit(b"// a \\\nint x;\n", 65, b"cx: a.cpp: a.cpp:1:1: X1\n"),
        Case::of_unit(b"#include \"z.h\"\n", 66, b"cx: no file: z.h\n"),
    ];
    for row in rows {
        check(&rt, rt.alloc(), row)?;
    }
    Ok(())
}

#[test]
fn a_unit_that_is_not_grammatical_is_refused_where_no_program_goes_on(
    rt: HostRuntime,
) -> Result<(), Fail> {
    let rows = [
        Case::of_unit(
            b"int main(){ if (1) return 2; else else return 3; }",
            65,
            b"cx: a.cpp: a.cpp:1:35: Y\n",
        ),
        Case::of_unit(
            b"int main(){ return (1; }",
            65,
            b"cx: a.cpp: a.cpp:1:22: Y\n",
        ),
        Case::of_unit(
            b"int main(){ return 1; };",
            65,
            b"cx: a.cpp: a.cpp:1:24: Y\n",
        ),
        Case::of_unit(b"int main(){ return 1;", 65, b"cx: a.cpp: a.cpp:1:22: Y\n"),
        Case::of_unit(b"int main(){ return 1;\n", 65, b"cx: a.cpp: a.cpp:2:1: Y\n"),
        Case {
            included: Some(b"return (1;"),
            ..Case::of_unit(
                b"int main(){\n#include \"b.h\"\n}",
                65,
                b"cx: a.cpp: b.h:1:10: Y\n",
            )
        },
        Case {
            included: Some(b"int main(){"),
            ..Case::of_unit(b"#include \"b.h\"\n", 65, b"cx: a.cpp: a.cpp:2:1: Y\n")
        },
    ];
    for row in rows {
        check(&rt, rt.alloc(), row)?;
    }
    Ok(())
}

#[test]
fn each_failing_call_has_its_answer(rt: HostRuntime) -> Result<(), Fail> {
    let held: &[u8] = b"int main(){ contract_assert(0); return 0; }";
    let line: &[u8] =
        b"contract violation: assert predicate_false enforce a.cpp:1:13 main#assert1: 0\n";
    let rows = [
        Case {
            text: None,
            ..Case::of_unit(b"", 66, b"cx: no file: a.cpp\n")
        },
        Case {
            file_calls_failing: &[1],
            ..Case::of_unit(held, 74, b"cx: file fault\n")
        },
        Case {
            file_calls_failing: &[2],
            ..Case::of_unit(held, 74, b"cx: file fault\n")
        },
        Case {
            err_calls_failing: &[1],
            ..Case::of_unit(held, 76, b"cx: write fault\n")
        },
        Case {
            err_calls_failing: &[2],
            ..Case::of_unit(held, 76, line)
        },
        Case {
            file_calls_failing: &[1],
            err_calls_failing: &[1],
            ..Case::of_unit(held, 76, b"")
        },
        Case {
            words: &["exec"],
            err_calls_failing: &[1],
            ..Case::of_unit(held, 76, b"")
        },
    ];
    for row in rows {
        check(&rt, rt.alloc(), row)?;
    }
    Ok(())
}

#[test]
fn the_report_has_the_journal(rt: HostRuntime) -> Result<(), Fail> {
    let alloc = rt.alloc();
    let words = words_of(alloc, &WORDS)?;
    let mut files = MemFiles::new(alloc, &[])?;
    files.hold(b"a.cpp", b"int main(){ contract_assert(1 < 2); return 7; }")?;
    let mut input = MemSource::new(alloc, b"x", &[])?;
    let mut out = MemSink::new(alloc, &[])?;
    let mut err = MemSink::new(alloc, &[])?;
    let report = cx(alloc, &words, &mut files, &mut input, &mut out, &mut err);
    let wanted = [
        Event::Begin(0, Party::Definer, Semantic::Enforce),
        Event::Verdict(Verdict::Holds),
    ];
    assert!(rt; report.run.journal.items() == wanted.as_slice());
    assert!(rt; files.held(b"a.img").is_some());
    assert!(rt; input.left() == b"x".as_slice());
    Ok(())
}

/// A unit that returns 1 in so many parentheses: 8 tokens are open at its end, and 2 more for each.
fn nested(alloc: Global, count: usize) -> Result<Vec<u8>, Fail> {
    let mut text = Vec::from_slice(alloc, b"int main(){return ")?;
    for _ in 0..count {
        text.push(b'(')?;
    }
    text.push(b'1')?;
    for _ in 0..count {
        text.push(b')')?;
    }
    text.extend_from_slice(b";}")?;
    Ok(text)
}

#[test]
fn at_most_1024_tokens_are_open_at_one_place(rt: HostRuntime) -> Result<(), Fail> {
    let alloc = rt.alloc();
    let deepest = nested(alloc, 508)?;
    check(&rt, alloc, Case::of_unit(&deepest, 1, b"cx: returned 1\n"))?;
    let deeper = nested(alloc, 509)?;
    let line = b"cx: too many: open-tokens 1026\n";
    check(&rt, alloc, Case::of_unit(&deeper, 69, line))
}

/// A unit of 5 tokens, 5 more for each of so many assertions, and then these.
fn asserting(alloc: Global, count: usize, last: &[u8]) -> Result<Vec<u8>, Fail> {
    let mut text = Vec::from_slice(alloc, b"int main(){")?;
    for _ in 0..count {
        text.extend_from_slice(b"contract_assert(1);")?;
    }
    text.extend_from_slice(last)?;
    Ok(text)
}

#[test]
fn a_unit_has_at_most_4096_tokens(rt: HostRuntime) -> Result<(), Fail> {
    let alloc = rt.alloc();
    let longest = asserting(alloc, 817, b"return (1);}")?;
    check(&rt, alloc, Case::of_unit(&longest, 1, b"cx: returned 1\n"))?;
    let longer = asserting(alloc, 817, b"return ((1));}")?;
    check(
        &rt,
        alloc,
        Case::of_unit(&longer, 77, b"cx: not built: a.cpp\n"),
    )
}
