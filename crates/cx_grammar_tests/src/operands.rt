use crate::judging::{Faulty, first_other, first_refused};
use std::test::Fail;

const GRAMMATICAL: &[&[u8]] = &[
    b"int f() { return 1 + 0x1F + 0b11 + 017 + 1'000ull; }",
    b"int f() { return 'x' + '\\n'; }",
    b"void f() { puts(\"text\"); \"text\"; }",
    b"bool f() { return true; } bool g() { return false; }",
    b"int* f() { return nullptr; }",
    b"class T; T* f() { return this; }",
    b"int f() { return a + pre + post + contracts; }",
    b"int f() { return (((a))) + (a = b); }",
    b"class T; void f() { g(T(), T(1), T(1, a = 2, T())); }",
    b"void f() { g(bool(1), char(1), int(1), unsigned(a = 1)); }",
    b"class T; void f() { static_cast<int>(a); static_cast<const T*&>(a = b); }",
    b"int f() { return static_cast<std::contracts::kind>(1); }",
    b"void f() { std::puts(a); g(std::a, std::contracts); }",
    b"int f() { return std::contracts::a::b; }",
    b"void f() { (std::contracts::a::b); }",
    b"class T; void f() { (T(1)); (int(1)); (T()).a; }",
    b"class contracts; int f() { return std::contracts::a::b; }",
];

const FAULTY: &[Faulty] = faulty![
    b"int f() { return (); }" 1 19,
    b"int f() { return (a ; }" 1 21,
    b"int f() { return (a, b); }" 1 20,
    b"int f() { return a b; }" 1 20,
    b"int f() { return 1 2; }" 1 20,
    b"void f() { puts(\"a\" \"b\"); }" 1 21,
    b"int f() { return this nullptr; }" 1 23,
    b"int f() { return void(1); }" 1 18,
    b"int f() { return long(1); }" 1 18,
    b"int f() { return const(1); }" 1 18,
    b"int f() { return new int; }" 1 18,
    b"int f() { return sizeof(a); }" 1 18,
    b"int f() { return [] { }; }" 1 18,
    b"int f() { return { 1 }; }" 1 18,
    b"int f() { return bool ; }" 1 23,
    b"int f() { return int(); }" 1 22,
    b"int f() { return char(a ; }" 1 25,
    b"int f() { return int(1, 2); }" 1 23,
    b"int f() { return unsigned int(1); }" 1 27,
    b"class T; T f() { return T ; }" 1 27,
    b"class T; T f() { return T{}; }" 1 26,
    b"class T; int f() { return T::a; }" 1 28,
    b"class T; T f() { return T(1 ; }" 1 29,
    b"class T; T f() { return T(1, ); }" 1 30,
    b"class T; T f() { return T(, 1); }" 1 27,
    b"int f() { return static_cast (a); }" 1 30,
    b"int f() { return static_cast<1>(a); }" 1 30,
    b"int f() { return static_cast<a>(b); }" 1 30,
    b"int f() { return static_cast<int (a); }" 1 34,
    b"int f() { return static_cast<int>>(a); }" 1 33,
    b"int f() { return static_cast<int> a; }" 1 35,
    b"int f() { return static_cast<int>(); }" 1 35,
    b"int f() { return static_cast<int>(a ; }" 1 37,
    b"int f() { return std ; }" 1 22,
    b"int f() { return std::1; }" 1 23,
    b"class T; int f() { return std::T; }" 1 32,
    b"int f() { return std::a::b; }" 1 24,
    b"int f() { return std::contracts::1; }" 1 34,
    b"int f() { return std::contracts::a ; }" 1 36,
    b"int f() { return std::contracts::a::1; }" 1 37,
    b"int f() { return std::contracts::a::b::c; }" 1 38,
    b"class contracts; int f() { return std::contracts ; }" 1 50,
    b"int f() { return ::a; }" 1 18,
    b"int f() { return a::b; }" 1 19,
];

#[test]
fn operands_of_each_form_are_grammatical(rt: HostRuntime) -> Result<(), Fail> {
    assert_eq!(rt; first_refused(rt.alloc(), GRAMMATICAL)?, None);
    Ok(())
}

#[test]
fn operands_are_refused_at_the_first_wrong_token(rt: HostRuntime) -> Result<(), Fail> {
    assert_eq!(rt; first_other(rt.alloc(), FAULTY)?, None);
    Ok(())
}
