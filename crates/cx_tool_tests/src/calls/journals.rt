use super::*;

/// A unit, the option and its value that it is run with, and the text of the journal that it leaves.
type Row<'a> = (&'a [u8], &'a str, &'a str, &'a [u8]);

/// The file that the run leaves under a name, where its journal is to have this one.
fn left(alloc: Global, row: Row<'_>, journal: &str, name: &[u8]) -> Result<Vec<u8>, Fail> {
    let (text, option, value, _) = row;
    let words = words_of(
        alloc,
        &[
            "exec",
            "-o",
            "a.img",
            option,
            value,
            "--journal",
            journal,
            "a.cpp",
        ],
    )?;
    let mut files = MemFiles::new(alloc, &[])?;
    files.hold(b"a.cpp", text)?;
    let mut input = MemSource::new(alloc, b"", &[])?;
    let mut out = MemSink::new(alloc, &[])?;
    let mut err = MemSink::new(alloc, &[])?;
    cx(alloc, &words, &mut files, &mut input, &mut out, &mut err);
    match files.held(name) {
        Some(bytes) => Ok(Vec::from_slice(alloc, bytes)?),
        None => Ok(Vec::new(alloc)),
    }
}

const HOLDS: &[u8] = b"int main(){ contract_assert(1 < 2); return 7; }";

const FAILS: &[u8] = b"int main(){ contract_assert(2 < 1); return 0; }";

#[test]
fn a_run_leaves_its_journal(rt: HostRuntime) -> Result<(), Fail> {
    let rows: [Row<'_>; 8] = [
        (
            HOLDS,
            "--semantic",
            "enforce",
            b"begin main#assert1 definer enforce\nverdict holds\nending returned 7\n",
        ),
        (
            FAILS,
            "--semantic",
            "observe",
            b"begin main#assert1 definer observe\nverdict false\nhandler assert predicate_false observe a.cpp:1:13 main#assert1\nending returned 0\n",
        ),
        (
            FAILS,
            "--semantic",
            "enforce",
            b"begin main#assert1 definer enforce\nverdict false\nhandler assert predicate_false enforce a.cpp:1:13 main#assert1\nending contract-terminated\n",
        ),
        (
            FAILS,
            "--semantic",
            "quick_enforce",
            b"begin main#assert1 definer quick_enforce\nverdict false\nending contract-terminated\n",
        ),
        (FAILS, "--semantic", "ignore", b"ending returned 0\n"),
        (
            b"int main(){ while (1) { } return 0; }",
            "--steps",
            "1000",
            b"ending steps spent: 1000\n",
        ),
        (
            b"#include <cstdio>\nint main(){ putchar(65); return 1 / 0; }",
            "--steps",
            "1000",
            b"out 65\nending undefined: division\n",
        ),
        (
            b"int main(){ return - 5; }",
            "--steps",
            "1000",
            b"ending returned -5\n",
        ),
    ];
    for row in rows {
        let text = left(rt.alloc(), row, "a.txt", b"a.txt")?;
        assert!(rt; text.as_slice() == row.3);
    }
    Ok(())
}

#[test]
fn a_journal_may_take_the_place_of_the_image_or_of_the_unit(rt: HostRuntime) -> Result<(), Fail> {
    let row: Row<'_> = (HOLDS, "--semantic", "ignore", b"ending returned 7\n");
    let in_place_of_the_image = left(rt.alloc(), row, "a.img", b"a.img")?;
    assert!(rt; in_place_of_the_image.as_slice() == row.3);
    let in_place_of_the_unit = left(rt.alloc(), row, "a.cpp", b"a.cpp")?;
    assert!(rt; in_place_of_the_unit.as_slice() == row.3);
    Ok(())
}

#[test]
fn a_journal_that_is_not_written_has_its_answer(rt: HostRuntime) -> Result<(), Fail> {
    let case = Case {
        words: &["exec", "-o", "a.img", "--journal", "a.txt", "a.cpp"],
        file_calls_failing: &[3],
        ..Case::of_unit(HOLDS, 74, b"cx: file fault\n")
    };
    check(&rt, rt.alloc(), case)
}
