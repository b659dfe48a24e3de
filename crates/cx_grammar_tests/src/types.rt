use crate::judging::{Faulty, first_other, first_refused};
use std::test::Fail;

const GRAMMATICAL: &[&[u8]] = &[
    b"void f() { void a; bool b; char c; int d; unsigned e; }",
    b"void f() { unsigned int a; long long b; unsigned long long c; }",
    b"class T; void f() { T a; const T b; T* c; T& d; T*& e; }",
    b"void f() { std::contracts::a b; const std::contracts::a& c; std::contracts::a* d; }",
    b"void f() { const int* const* const& a = b; }",
    b"void f() { const int* const a; int** b; }",
    b"void f() { int******** a; }",
    b"void f() { int* const* const* const* const* const* const* const* const& a; }",
    b"void f() { int a = 1; int b = a = 2; int c = a ? b : a; }",
    b"void f() { int a(1); int b(1, c = 2, d); }",
    b"class T; class U; void f() { T x(U()); T y(U(a), 1); T z = U(); }",
    b"class contracts; std::contracts::a b;",
    b"void f() { int pre; int post = pre; int contracts(1); }",
];

const FAULTY: &[Faulty] = faulty![
    b"void f() { long a; }" 1 17,
    b"void f() { long int a; }" 1 17,
    b"void f() { long long long a; }" 1 22,
    b"void f() { long long int a; }" 1 22,
    b"void f() { unsigned char a; }" 1 21,
    b"void f() { unsigned unsigned a; }" 1 21,
    b"void f() { unsigned int int a; }" 1 25,
    b"void f() { unsigned long a; }" 1 26,
    b"void f() { unsigned long long int a; }" 1 31,
    b"void f() { short a; }" 1 12,
    b"void f() { signed a; }" 1 12,
    b"void f() { double a; }" 1 12,
    b"void f() { auto a; }" 1 12,
    b"void f() { const a b; }" 1 18,
    b"void f() { const const int a; }" 1 18,
    b"void f() { const * a; }" 1 18,
    b"void f() { int const a; }" 1 16,
    b"void f() { int* const const a; }" 1 23,
    b"void f() { int& const a; }" 1 17,
    b"void f() { int& & a; }" 1 17,
    b"void f() { int && a; }" 1 16,
    b"void f() { int& * a; }" 1 17,
    b"void f() { int********* a; }" 1 23,
    b"void f() { int = 1; }" 1 16,
    b"void f() { int 1; }" 1 16,
    b"void f() { int (a); }" 1 16,
    b"void f() { unsigned(a); }" 1 20,
    b"void f() { bool(a) == b; }" 1 16,
    b"void f() { int ; }" 1 16,
    b"void f() { const std a; }" 1 22,
    b"void f() { const std::a b; }" 1 23,
    b"void f() { std::contracts ; }" 1 27,
    b"void f() { std::contracts::1; }" 1 28,
    b"class T; void f() { std::contracts::T a; }" 1 37,
    b"void f() { std::contracts::a ; }" 1 30,
    b"void f() { std::contracts::a::b; }" 1 29,
    b"void f() { int a }" 1 18,
    b"void f() { int a = ; }" 1 20,
    b"void f() { int a = { 1 }; }" 1 20,
    b"void f() { int a { 1 }; }" 1 18,
    b"void f() { int a[3]; }" 1 17,
    b"void f() { int a, b; }" 1 17,
    b"void f() { int a = 1, b = 2; }" 1 21,
    b"void f() { int a(); }" 1 18,
    b"void f() { int a(1, ); }" 1 21,
    b"void f() { int a(1 ; }" 1 20,
    b"void f() { int a(1) = 2; }" 1 21,
];

#[test]
fn types_and_variables_of_each_form_are_grammatical(rt: HostRuntime) -> Result<(), Fail> {
    assert_eq!(rt; first_refused(rt.alloc(), GRAMMATICAL)?, None);
    Ok(())
}

#[test]
fn types_and_variables_are_refused_at_the_first_wrong_token(rt: HostRuntime) -> Result<(), Fail> {
    assert_eq!(rt; first_other(rt.alloc(), FAULTY)?, None);
    Ok(())
}
