use crate::judging::{Faulty, first_other};
use std::test::Fail;

const FAULTY: &[Faulty] = faulty![
    b"class T; int T f() { }" 1 16,
    b"class T; int T::1" 1 17,
    b"class T; int T::T() { }" 1 17,
    b"class T; int T::~T() { }" 1 17,
    b"class T; int T::f { }" 1 19,
    b"class T; int T::f(;" 1 19,
    b"class T; int T::f(int 1) { }" 1 23,
    b"class T; int T::f(int a { }" 1 25,
    b"class T; int T::f() ;" 1 21,
    b"class T; int T::f() : a() { }" 1 21,
    b"class T; int T::f() const const { }" 1 27,
    b"class T; int T::f() noexcept const { }" 1 30,
    b"class T; int T::f() pre(1) const { }" 1 28,
    b"class T; int T::f() pre(1) ;" 1 28,
    b"class T; int T::f::g() { }" 1 18,
    b"class T; inline int T::f() ;" 1 28,
    b"class T; T () { }" 1 12,
    b"class T; T ;" 1 12,
    b"class T; T::1" 1 13,
    b"class T; T::f() { }" 1 13,
    b"class T; T::int f() { }" 1 13,
    b"class T; T::T ;" 1 15,
    b"class T; T::T::T() { }" 1 14,
    b"class T; T::T(1) { }" 1 15,
    b"class T; T::T(int a ;" 1 21,
    b"class T; T::T() ;" 1 17,
    b"class T; T::T() const { }" 1 17,
    b"class T; T::T() : { }" 1 19,
    b"class T; T::T() : a { }" 1 21,
    b"class T; T::T() : a(, 1) { }" 1 21,
    b"class T; T::T() : a(1, ) { }" 1 24,
    b"class T; T::T() : a(1 { }" 1 23,
    b"class T; T::T() : a() b() { }" 1 23,
    b"class T; T::T() : a() ;" 1 23,
    b"class T; T::T() : a(), { }" 1 24,
    b"class T; T::T() : a() pre(1) { }" 1 23,
    b"class T; T::T() : a{} { }" 1 20,
    b"class T; T::~f() { }" 1 14,
    b"class T; T::~T { }" 1 16,
    b"class T; T::~T(int a) { }" 1 16,
    b"class T; T::~T() ;" 1 18,
    b"class T; T::~T() const { }" 1 18,
    b"class T; T::~T() : a() { }" 1 18,
    b"class T; explicit T::T() { }" 1 10,
];

#[test]
fn members_outside_are_refused_at_the_first_wrong_token(rt: HostRuntime) -> Result<(), Fail> {
    assert_eq!(rt; first_other(rt.alloc(), FAULTY)?, None);
    Ok(())
}
