use crate::judging::{Faulty, first_other, first_refused};
use std::test::Fail;

const GRAMMATICAL: &[&[u8]] = &[
    b"class T; struct U; class V { }; struct W { };",
    b"class T { public: private: public: int a; private: int b; };",
    b"struct T { int a; const T* b; T& c; std::contracts::d e; unsigned long long f; };",
    b"class T { int f(); int g(int a, T) const noexcept pre(a) post(r : r) { return a; } };",
    b"class T { virtual int f(); virtual T* g() const { } virtual const T& h() noexcept; };",
    b"class T { T f(); T& g(); T* h(); T a; const T b; };",
    b"class T { T(); explicit T(int a) noexcept pre(a) : b(a), c(1, 2) { } T(T); };",
    b"class T { T() { } explicit T(); T() pre(1) { } T() : a() { } T() noexcept; };",
    b"class T { ~T(); }; class U { ~U() noexcept pre(1) post(2) { } };",
    b"class T { virtual ~T(); virtual ~T() { } };",
    b"class T; class U { T(); ~T(); T a; T f(); };",
];

const FAULTY: &[Faulty] = faulty![
    b"class ;" 1 7,
    b"class { };" 1 7,
    b"class int;" 1 7,
    b"class T int;" 1 9,
    b"class T : public U { };" 1 9,
    b"class T { ; };" 1 11,
    b"class T { a b; };" 1 11,
    b"class T { 1 };" 1 11,
    b"class T { protected: };" 1 11,
    b"class T { public ; };" 1 18,
    b"class T { public int a; };" 1 18,
    b"class T { private }" 1 19,
    b"class T { class U; };" 1 11,
    b"class T { inline int f(); };" 1 11,
    b"class T { static int a; };" 1 11,
    b"class T { friend class U; };" 1 11,
    b"class T { int ; };" 1 15,
    b"class T { int a }" 1 17,
    b"class T { int a = 1; };" 1 17,
    b"class T { int a, b; };" 1 16,
    b"class T { int a[3]; };" 1 16,
    b"class T { int T(); };" 1 15,
    b"class T { int operator+(); };" 1 15,
    b"class T { int f(; };" 1 17,
    b"class T { int f() }" 1 19,
    b"class T { int f() : a() { } };" 1 19,
    b"class T { int f() const const; };" 1 25,
    b"class T { int f() noexcept const; };" 1 28,
    b"class T { int f() = 0; };" 1 19,
    b"class T { int f() override; };" 1 19,
    b"class T { int f() { } ; };" 1 23,
    b"class T { virtual ; };" 1 19,
    b"class T { virtual virtual int f(); };" 1 19,
    b"class T { virtual int ; };" 1 23,
    b"class T { virtual int a ; };" 1 25,
    b"class T { virtual T (); };" 1 21,
    b"class T { } int a;" 1 13,
    b"class T { } a;" 1 13,
    b"class T { }; }" 1 14,
];

#[test]
fn members_of_each_form_are_grammatical(rt: HostRuntime) -> Result<(), Fail> {
    assert_eq!(rt; first_refused(rt.alloc(), GRAMMATICAL)?, None);
    Ok(())
}

#[test]
fn members_are_refused_at_the_first_wrong_token(rt: HostRuntime) -> Result<(), Fail> {
    assert_eq!(rt; first_other(rt.alloc(), FAULTY)?, None);
    Ok(())
}
