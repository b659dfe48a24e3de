use crate::judging::{Faulty, first_other, first_refused};
use std::test::Fail;

const GRAMMATICAL: &[&[u8]] = &[
    b"void f() { }",
    b"void f() { ; { } { ; { } } }",
    b"void f() { if (a) ; if (a = b) { } }",
    b"void f() { if (a) ; else ; if (b) { } else { } }",
    b"void f() { if (a) if (b) ; else ; }",
    b"void f() { if (a) if (b) ; else ; else ; }",
    b"void f() { if (a) ; else if (b) ; else ; }",
    b"void f() { if (a) while (b) if (c) ; else ; }",
    b"void f() { if (a) for (;;) if (b) ; else ; else ; }",
    b"void f() { if (a) int b; else int c = 1; }",
    b"void f() { while (a) ; while (a = b) { } while (a) int b; }",
    b"void f() { for (;;) ; for (a;;) ; for (int a;;) ; }",
    b"void f() { for (;a;) ; for (;;a) ; for (a = 1; a < 2; ++a) { } }",
    b"class T; void f() { for (const T* a = b; a; a = c) int d; for (T a(1); a; ) ; }",
    b"void f() { for (std::a; std::b; std::c) ; for (std::contracts::a b; ; ) ; }",
    b"void f() { if (int(1)) ; while (bool(a)) ; for (; int(1); char(2)) ; }",
];

const FAULTY: &[Faulty] = faulty![
    b"void f() { } }" 1 14,
    b"void f() { { ) }" 1 14,
    b"void f() { if a; }" 1 15,
    b"void f() { if () ; }" 1 16,
    b"void f() { if (a ; }" 1 18,
    b"void f() { if (a, b) ; }" 1 17,
    b"void f() { if (int a = 1) ; }" 1 20,
    b"void f() { if (const int a = 1) ; }" 1 16,
    b"void f() { if (a; b) ; }" 1 17,
    b"void f() { if (a) }" 1 19,
    b"void f() { if (a) else ; }" 1 19,
    b"void f() { else ; }" 1 12,
    b"void f() { if (a) ; else }" 1 26,
    b"void f() { if (a) ; else ; else ; }" 1 28,
    b"void f() { if (a) if (b) ; else ; else ; else ; }" 1 42,
    b"void f() { if (a) ; else while (b) ; else ; }" 1 38,
    b"void f() { while (a) ; else ; }" 1 24,
    b"void f() { if (a) { } ; else ; }" 1 25,
    b"void f() { while { } }" 1 18,
    b"void f() { while () ; }" 1 19,
    b"void f() { while (a ; }" 1 21,
    b"void f() { while (int a = 1) ; }" 1 23,
    b"void f() { while (a) }" 1 22,
    b"void f() { for ; }" 1 16,
    b"void f() { for () ; }" 1 17,
    b"void f() { for (a ) ; }" 1 19,
    b"void f() { for ({ } ;) ; }" 1 17,
    b"void f() { for (if (a) ; ;) ; }" 1 17,
    b"void f() { for (int a : b) ; }" 1 23,
    b"void f() { for (int a, b; ;) ; }" 1 22,
    b"void f() { for (;) ; }" 1 18,
    b"void f() { for (; a ) ; }" 1 21,
    b"void f() { for (; int a; ) ; }" 1 23,
    b"void f() { for (;;;) ; }" 1 19,
    b"void f() { for (;; a ; }" 1 22,
    b"void f() { for (;;) }" 1 21,
];

#[test]
fn blocks_branches_and_loops_are_grammatical(rt: HostRuntime) -> Result<(), Fail> {
    assert_eq!(rt; first_refused(rt.alloc(), GRAMMATICAL)?, None);
    Ok(())
}

#[test]
fn blocks_branches_and_loops_are_refused_at_the_first_wrong_token(
    rt: HostRuntime,
) -> Result<(), Fail> {
    assert_eq!(rt; first_other(rt.alloc(), FAULTY)?, None);
    Ok(())
}
