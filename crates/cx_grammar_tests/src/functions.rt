use crate::judging::{Faulty, first_other, first_refused};
use std::test::Fail;

const GRAMMATICAL: &[&[u8]] = &[
    b"int f(); void g() { } inline int h(); inline void i() { }",
    b"class T; int f(int a, T, const T& b, std::contracts::c d, void); T& g(int*);",
    b"int f() noexcept; void g() noexcept { } int h() noexcept pre(true);",
    b"int f(int a) pre(a) pre(a > 0) post(a) post(r : r > a) post(r : int(r)) { return a; }",
    b"int f(int a) pre(a ? a : a = 1) pre((a = 1)) post(a ? a : a) post(r : r ? r : r = 1);",
    b"int f(int a) post(a.b) post(a()) post(a + 1) post((a)) post(1) post(std::a) post(int(a));",
    b"class T; int T::f() { } inline T* T::g(int a, T) const noexcept pre(a) post(r : r) { return a; }",
    b"class T; T T::f() const { } const T& T::g() noexcept { } std::contracts::a T::h() post(1) { }",
    b"class T; class U; U T::f() { } U U::f() { } U::T() { }",
    b"class T; T::T() { } inline T::T(int a, T) noexcept pre(a) post(a) : b(a), c(), d(1, 2) { }",
    b"class T; T::T(const T& a) : b(a = 1) { ; }",
    b"class T; T::~T() { } inline T::~T() noexcept pre(1) post(2) { }",
];

const FAULTY: &[Faulty] = faulty![
    b"int f(;" 1 7,
    b"int f(a);" 1 7,
    b"int f(, int a);" 1 7,
    b"int f(int ;" 1 11,
    b"int f(int 1);" 1 11,
    b"int f(int int);" 1 11,
    b"int f(int a ;" 1 13,
    b"int f(int a = 1);" 1 13,
    b"int f(int a[]);" 1 12,
    b"int f(int a, );" 1 14,
    b"int f(int a, ...);" 1 14,
    b"int f(...);" 1 7,
    b"int f() }" 1 9,
    b"int f() = 0;" 1 9,
    b"int f() const;" 1 9,
    b"int f() : a() { }" 1 9,
    b"int f() try { } catch (...) { }" 1 9,
    b"int f() noexcept noexcept;" 1 18,
    b"int f() noexcept(true);" 1 17,
    b"int f() pre(true) noexcept;" 1 19,
    b"int f() virtual;" 1 9,
    b"int f() a;" 1 9,
    b"int f() pre ;" 1 13,
    b"int f() pre();" 1 13,
    b"int f() pre(a = b);" 1 15,
    b"int f() pre(a, b);" 1 14,
    b"int f() pre(a : b);" 1 15,
    b"int f() pre(a ;" 1 15,
    b"int f() pre(a) , pre(b);" 1 16,
    b"int f() post { }" 1 14,
    b"int f() post();" 1 14,
    b"int f() post(r : );" 1 18,
    b"int f() post(r : a = b);" 1 20,
    b"int f() post(r : a : b);" 1 20,
    b"int f() post(r = 1);" 1 16,
    b"int f() post(r, s : a);" 1 15,
    b"int f() post(1 : a);" 1 16,
    b"int f() post(r.a : b);" 1 18,
    b"int f() post(r : a ;" 1 20,
    b"inline int f() pre(true) int g();" 1 26,
];

#[test]
fn functions_of_each_form_are_grammatical(rt: HostRuntime) -> Result<(), Fail> {
    assert_eq!(rt; first_refused(rt.alloc(), GRAMMATICAL)?, None);
    Ok(())
}

#[test]
fn functions_are_refused_at_the_first_wrong_token(rt: HostRuntime) -> Result<(), Fail> {
    assert_eq!(rt; first_other(rt.alloc(), FAULTY)?, None);
    Ok(())
}
