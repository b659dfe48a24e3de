use super::*;

#[test]
fn other_words_are_refused(rt: HostRuntime) -> Result<(), Fail> {
    let rows: [&[&str]; 15] = [
        &[],
        &["exec"],
        &["exec", "a.cpp"],
        &["exec", "-o", "a.img"],
        &["exec", "-o", "a.img", "a.cpp", "a.cpp"],
        &["exec", "-o", "a.img", "-o", "a.img", "a.cpp"],
        &["run", "-o", "a.img", "a.cpp"],
        &["start", "-o", "a.img", "a.cpp"],
        &["exec", "-p", "a.img", "a.cpp"],
        &["exec", "--help", "-o", "a.img", "a.cpp"],
        &["--version"],
        &["exec", "-o", "", "a.cpp"],
        &["exec", "-o", "a.img", ""],
        &["exec", "-o", "a img", "a.cpp"],
        &["exec", "-o", "a.img", "\u{e4}.cpp"],
    ];
    are_refused(&rt, rt.alloc(), &rows)
}

#[test]
fn words_for_what_is_not_built_are_refused(rt: HostRuntime) -> Result<(), Fail> {
    let rows: [&[&str]; 5] = [
        &["exec", "-o", "a.img", "a.cpp", "b.cpp"],
        &["exec", "-o", "a.img", "--plan", "a.plan", "a.cpp"],
        &["compile", "-o", "a.o", "a.cpp"],
        &["explain", "a.cpp"],
        &["make", "-o", "a.img", "2"],
    ];
    are_refused(&rt, rt.alloc(), &rows)
}

/// Rows of words that ask for nothing that is built.
fn are_refused(rt: &impl Abort, alloc: Global, rows: &[&[&str]]) -> Result<(), Fail> {
    for words in rows {
        let case = Case {
            words,
            ..Case::of_unit(b"int main(){ return 0; }", 64, b"cx: usage\n")
        };
        check(rt, alloc, case)?;
    }
    Ok(())
}

#[test]
fn other_options_are_refused(rt: HostRuntime) -> Result<(), Fail> {
    let rows: [&[&str]; 10] = [
        &["exec", "-o", "a.img", "--steps", "a.cpp"],
        &["exec", "-o", "a.img", "--semantic", "a.cpp"],
        &["exec", "-o", "a.img", "--steps", "5"],
        &["exec", "-o", "a.img", "--limit", "5", "a.cpp"],
        &["exec", "-o", "-a.img", "a.cpp"],
        &["exec", "-o", "a.img", "-a.cpp"],
        &["exec", "-o", "a.img", "--semantic", "Enforce", "a.cpp"],
        &["exec", "-o", "a.img", "--semantic", "", "a.cpp"],
        &["exec", "-o", "a.img", "--journal", "", "a.cpp"],
        &["exec", "-o", "a.img", "a.cpp", "--journal"],
    ];
    are_refused(&rt, rt.alloc(), &rows)
}

#[test]
fn options_stand_once(rt: HostRuntime) -> Result<(), Fail> {
    let rows: [&[&str]; 3] = [
        &["exec", "-o", "a.img", "--steps", "5", "--steps=5", "a.cpp"],
        &[
            "exec",
            "-o",
            "a.img",
            "--semantic=observe",
            "a.cpp",
            "--semantic=observe",
        ],
        &["exec", "-o", "a.img", "--journal=j", "--journal=k", "a.cpp"],
    ];
    are_refused(&rt, rt.alloc(), &rows)
}

#[test]
fn options_stand_in_any_place(rt: HostRuntime) -> Result<(), Fail> {
    let rows: [&[&str]; 7] = [
        &["exec", "a.cpp", "-o", "a.img"],
        &["exec", "--steps", "50", "-o", "a.img", "a.cpp"],
        &["exec", "-o", "a.img", "a.cpp", "--steps", "50"],
        &[
            "exec",
            "-o",
            "a.img",
            "--semantic",
            "observe",
            "--steps=50",
            "a.cpp",
        ],
        &["exec", "-o=a.img", "--semantic=observe", "a.cpp"],
        &["exec", "-o", "a.img", "--", "a.cpp"],
        &["--steps=50", "exec", "-o", "a.img", "a.cpp"],
    ];
    for words in rows {
        let case = Case {
            words,
            ..Case::of_unit(b"int main(){ return 0; }", 0, b"cx: returned 0\n")
        };
        check(&rt, rt.alloc(), case)?;
    }
    Ok(())
}

#[test]
fn other_numbers_of_steps_are_refused(rt: HostRuntime) -> Result<(), Fail> {
    let rows = ["0", "01", "10000001", "+5", "", "5 ", "0x5", "4294967297"];
    for steps in rows {
        let case = Case::of_unit(b"int main(){ return 0; }", 64, b"cx: usage\n");
        check_option(&rt, rt.alloc(), "--steps", steps, case)?;
    }
    Ok(())
}

#[test]
fn a_run_takes_as_many_steps_as_are_asked_for(rt: HostRuntime) -> Result<(), Fail> {
    let text = b"int main(){ contract_assert(1 < 2); return 7; }";
    let rows: [(&str, u8, &[u8]); 4] = [
        ("12", 7, b"cx: returned 7\n"),
        ("11", 138, b"cx: steps spent: 11\n"),
        ("1", 138, b"cx: steps spent: 1\n"),
        ("10000000", 7, b"cx: returned 7\n"),
    ];
    for (steps, status, err) in rows {
        let case = Case::of_unit(text, status, err);
        check_option(&rt, rt.alloc(), "--steps", steps, case)?;
    }
    Ok(())
}

#[test]
fn assertions_have_the_semantic_that_is_asked_for(rt: HostRuntime) -> Result<(), Fail> {
    let text = b"int main(){ contract_assert(2 < 1); return 0; }";
    let rows: [(&str, u8, &[u8]); 4] = [
        ("ignore", 0, b"cx: returned 0\n"),
        (
            "observe",
            0,
            b"contract violation: assert predicate_false observe a.cpp:1:13 main#assert1: 2 < 1\ncx: returned 0\n",
        ),
        (
            "enforce",
            134,
            b"contract violation: assert predicate_false enforce a.cpp:1:13 main#assert1: 2 < 1\ncx: contract-terminated\n",
        ),
        ("quick_enforce", 134, b"cx: contract-terminated\n"),
    ];
    for (semantic, status, err) in rows {
        let case = Case::of_unit(text, status, err);
        check_option(&rt, rt.alloc(), "--semantic", semantic, case)?;
    }
    Ok(())
}

#[test]
fn both_options_are_taken(rt: HostRuntime) -> Result<(), Fail> {
    let case = Case {
        words: &[
            "exec",
            "-o",
            "a.img",
            "--steps",
            "5",
            "--semantic",
            "ignore",
            "a.cpp",
        ],
        ..Case::of_unit(
            b"int main(){ contract_assert(2 < 1); return 3; }",
            3,
            b"cx: returned 3\n",
        )
    };
    check(&rt, rt.alloc(), case)
}

/// So many bytes `x`.
fn long_text(alloc: Global, length: usize) -> Result<String, Fail> {
    let mut text = String::new(alloc);
    for _ in 0..length {
        text.push('x')?;
    }
    Ok(text)
}

/// The words that name this image and this unit.
fn naming(alloc: Global, image: &str, unit: &str) -> Result<Vec<String>, Fail> {
    words_of(alloc, &["exec", "-o", image, unit])
}

#[test]
fn a_name_has_at_most_1024_bytes(rt: HostRuntime) -> Result<(), Fail> {
    let alloc = rt.alloc();
    let name = long_text(alloc, 1024)?;
    let image = naming(alloc, name.as_str(), "a.cpp")?;
    let case = Case::of_unit(b"int main(){ return 0; }", 0, b"cx: returned 0\n");
    check_words(&rt, alloc, &image, case)?;
    let mut absent = Vec::from_slice(alloc, b"cx: no file: ")?;
    absent.extend_from_slice(name.as_bytes())?;
    absent.push(b'\n')?;
    let unit = naming(alloc, "a.img", name.as_str())?;
    check_words(&rt, alloc, &unit, Case::of_unit(b"", 66, &absent))?;
    let case = Case::of_unit(name.as_bytes(), 65, b"cx: a.cpp: a.cpp:1:1: Y\n");
    check(&rt, alloc, case)
}

#[test]
fn a_longer_name_is_too_long(rt: HostRuntime) -> Result<(), Fail> {
    let alloc = rt.alloc();
    let name = long_text(alloc, 1025)?;
    let case = Case::of_unit(name.as_bytes(), 69, b"cx: too many: name 1025\n");
    let image = naming(alloc, name.as_str(), "a.cpp")?;
    check_words(&rt, alloc, &image, case)?;
    let unit = naming(alloc, "a.img", name.as_str())?;
    check_words(&rt, alloc, &unit, case)?;
    check(&rt, alloc, case)
}

#[test]
fn the_first_name_that_is_too_long_is_told(rt: HostRuntime) -> Result<(), Fail> {
    let alloc = rt.alloc();
    let (journal, unit) = (long_text(alloc, 1026)?, long_text(alloc, 1027)?);
    let words = words_of(
        alloc,
        &[
            "exec",
            "-o",
            "a.img",
            unit.as_str(),
            "--journal",
            journal.as_str(),
        ],
    )?;
    let case = Case::of_unit(b"", 69, b"cx: too many: name 1026\n");
    check_words(&rt, alloc, &words, case)
}
