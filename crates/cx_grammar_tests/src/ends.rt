use crate::judging::{Faulty, first_other};
use std::test::Fail;

const FAULTY: &[Faulty] = faulty![
    b"int" 1 4,
    b"int a" 1 6,
    b"int a " 1 7,
    b"int a  \t " 1 10,
    b"int a\n" 2 1,
    b"int a\n\n  " 3 3,
    b"int a\r\n" 2 1,
    b"int a // more" 1 14,
    b"int a // more\n" 2 1,
    b"int a /* more */" 1 17,
    b"int a /* more\n */ " 2 5,
    b"int a\n#pragma once" 2 13,
    b"int a\n#pragma once\n" 3 1,
    b"int a\n#pragma once // more\n \t" 3 3,
    b"class" 1 6,
    b"class T" 1 8,
    b"class T { }" 1 12,
    b"class T {\n" 2 1,
    b"class T { public" 1 17,
    b"extern" 1 7,
    b"inline" 1 7,
    b"int f(" 1 7,
    b"int f()" 1 8,
    b"int f() noexcept\n" 2 1,
    b"int f() pre(a" 1 14,
    b"int f() post(r :" 1 17,
    b"void f() {" 1 11,
    b"void f() { a" 1 13,
    b"void f() { {\n} " 2 3,
    b"void f() { if (a) ;" 1 20,
    b"void f() { if (a) ; else" 1 25,
    b"void f() { try { }" 1 19,
    b"void f() { return a +" 1 22,
    b"void f() { std::contracts" 1 26,
    b"class T; T::T() : a()" 1 22,
    b"int a;\nint b;\nint" 3 4,
];

#[test]
fn units_that_end_too_early_are_refused_behind_their_last_byte(
    rt: HostRuntime,
) -> Result<(), Fail> {
    assert_eq!(rt; first_other(rt.alloc(), FAULTY)?, None);
    Ok(())
}
