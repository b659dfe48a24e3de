use super::*;

#[test]
fn statements_run_to_the_value_that_is_returned(rt: HostRuntime) -> Result<(), Fail> {
    let rows = [
        Case::of_unit(
            b"int main(){ int k = 0; while (k < 300) k = k + 1; return k; }",
            44,
            b"cx: returned 300\n",
        ),
        Case::of_unit(
            b"int main(){ int k = 1; { int k = 2; k = 3; } return k; }",
            1,
            b"cx: returned 1\n",
        ),
        Case::of_unit(
            b"int main(){ bool b = 5; char c = 200; if (b) return c; else return 1; }",
            200,
            b"cx: returned -56\n",
        ),
        Case::of_unit(b"int main(){ }", 0, b"cx: returned 0\n"),
        Case::of_unit(
            b"int main(){ int k = k; return 0; }",
            136,
            b"cx: undefined: unset\n",
        ),
    ];
    for row in rows {
        check(&rt, rt.alloc(), row)?;
    }
    Ok(())
}

#[test]
fn bytes_that_are_written_before_the_end_come_out(rt: HostRuntime) -> Result<(), Fail> {
    let text =
        b"#include <cstdio>\nint main(){ putchar('a'); putchar('b'); putchar('c'); int k = 2147483647; k = k + 1; return k; }";
    let rows = [
        Case {
            out: b"abc",
            ..Case::of_unit(text, 136, b"cx: undefined: overflow\n")
        },
        Case {
            out_calls_failing: &[1],
            ..Case::of_unit(text, 76, b"cx: write fault\n")
        },
        Case {
            out: b"A\n",
            ..Case::of_unit(
                b"#include <cstdio>\nint main(){ putchar(256 + 65); putchar('\\n'); }",
                0,
                b"cx: returned 0\n",
            )
        },
    ];
    for row in rows {
        check(&rt, rt.alloc(), row)?;
    }
    Ok(())
}

#[test]
fn a_loop_without_end_takes_all_steps(rt: HostRuntime) -> Result<(), Fail> {
    let case = Case {
        words: &["exec", "-o", "a.img", "--steps", "1000", "a.cpp"],
        ..Case::of_unit(
            b"int main(){ while (true) {} }",
            138,
            b"cx: steps spent: 1000\n",
        )
    };
    check(&rt, rt.alloc(), case)
}

#[test]
fn a_false_assertion_in_a_loop_has_the_semantic_that_is_asked_for(
    rt: HostRuntime,
) -> Result<(), Fail> {
    let text =
        b"int main(){ int k = 0; while (k < 2) { contract_assert(false); k = k + 1; } return k; }";
    let rows: [(&str, u8, &[u8]); 4] = [
        ("ignore", 2, b"cx: returned 2\n"),
        (
            "observe",
            2,
            b"contract violation: assert predicate_false observe a.cpp:1:40 main#assert1: false\ncontract violation: assert predicate_false observe a.cpp:1:40 main#assert1: false\ncx: returned 2\n",
        ),
        (
            "enforce",
            134,
            b"contract violation: assert predicate_false enforce a.cpp:1:40 main#assert1: false\ncx: contract-terminated\n",
        ),
        ("quick_enforce", 134, b"cx: contract-terminated\n"),
    ];
    for (semantic, status, err) in rows {
        let case = Case::of_unit(text, status, err);
        check_option(&rt, rt.alloc(), "--semantic", semantic, case)?;
    }
    Ok(())
}

#[test]
fn a_name_that_is_not_visible_is_not_built(rt: HostRuntime) -> Result<(), Fail> {
    are_unbuilt(
        &rt,
        rt.alloc(),
        &[
            b"int main(){ return k; }",
            b"int main(){ k = 1; return 0; }",
            b"int main(){ { int k = 1; } return k; }",
            b"int main(){ int m = k; int k = 1; return m; }",
            b"int main(){ if (true) { int k = 1; } else k = 2; return 0; }",
        ],
    )
}

#[test]
fn a_declaration_of_another_form_is_not_built(rt: HostRuntime) -> Result<(), Fail> {
    are_unbuilt(
        &rt,
        rt.alloc(),
        &[
            b"int main(){ int k = 1; bool k = 2; return k; }",
            b"int main(){ int k = 1; { int m = 2; int m = 3; } return k; }",
            b"#include <cstdio>\nint main(){ int putchar = 1; return putchar; }",
            b"int main(){ int main = 1; return main; }",
            b"int main(){ if (true) int k = 1; return 0; }",
            b"int main(){ if (true) ; else int k = 1; return 0; }",
            b"int main(){ while (false) int k = 1; return 0; }",
            b"int main(){ unsigned k = 1; return 0; }",
            b"int main(){ const int k = 1; return k; }",
            b"int main(){ int k; k = 1; return k; }",
            b"int main(){ int k(1); return k; }",
        ],
    )
}

#[test]
fn a_call_of_another_function_than_putchar_is_not_built(rt: HostRuntime) -> Result<(), Fail> {
    are_unbuilt(
        &rt,
        rt.alloc(),
        &[
            b"int main(){ putchar('a'); return 0; }",
            b"int main(){ putchar('a');\n#include <cstdio>\nreturn 0; }",
            b"#include <cstdio>\nint main(){ putchar('a', 'b'); return 0; }",
            b"#include <cstdio>\nint main(){ putchar(); return 0; }",
            b"#include <cstdio>\nint main(){ return putchar('a'); }",
            b"#include <cstdio>\nint main(){ getchar(); return 0; }",
            b"int f(){ return 1; } int main(){ return f(); }",
            b"int main(){ return main(); }",
        ],
    )
}

#[test]
fn other_statements_are_not_built(rt: HostRuntime) -> Result<(), Fail> {
    are_unbuilt(
        &rt,
        rt.alloc(),
        &[
            b"int main(){ int k = 1; k += 1; return k; }",
            b"int main(){ int k = 1; ++k; return k; }",
            b"int main(){ int k = 1; return k = 2; }",
            b"int main(){ for (int k = 0; k < 3; ) ; return 0; }",
            b"int main(){ while (true) break; return 0; }",
            b"int main(){ while (true) continue; return 0; }",
            b"int main(){ 1; return 0; }",
            b"int main(){ return; }",
            b"int main(){ throw 1; }",
        ],
    )
}
