use crate::judging::{Faulty, first_other, first_refused};
use std::test::Fail;

const GRAMMATICAL: &[&[u8]] = &[
    b"",
    b" \t\r\n// nothing\n/* nothing */",
    b"int a; int b = 1; int c = -1; char d = 'x'; bool e = true; bool f = false; int* g = nullptr;",
    b"extern int a; class T; extern const T& b; extern std::contracts::c d; extern int* const e;",
    b"class T; T a; const T* const b = nullptr; T& c = 1; void d; T* e = 'x';",
    b"int a; // the end",
    b"int f() { }\n#pragma once",
    b"class T { };\n\n\n",
];

const FAULTY: &[Faulty] = faulty![
    b"1" 1 1,
    b";" 1 1,
    b"}" 1 1,
    b"a" 1 1,
    b"\"text\";" 1 1,
    b"return;" 1 1,
    b"~T();" 1 1,
    b"friend class T;" 1 1,
    b"namespace a { }" 1 1,
    b"template" 1 1,
    b"static int a;" 1 1,
    b"explicit T();" 1 1,
    b"*a;" 1 1,
    b"&a;" 1 1,
    b"int ;" 1 5,
    b"int = 1;" 1 5,
    b"int (a);" 1 5,
    b"int a int b;" 1 7,
    b"int a + 1;" 1 7,
    b"int a, b;" 1 6,
    b"int a[3];" 1 6,
    b"int a{1};" 1 6,
    b"int a(1);" 1 7,
    b"int a = ;" 1 9,
    b"int a = b;" 1 9,
    b"int a = \"text\";" 1 9,
    b"int a = (1);" 1 9,
    b"int a = +1;" 1 9,
    b"int a = this;" 1 9,
    b"int a = -'x';" 1 10,
    b"int a = - -1;" 1 11,
    b"int a = -true;" 1 10,
    b"int a = 1 + 2;" 1 11,
    b"int a = 1, b;" 1 10,
    b"extern a;" 1 8,
    b"extern extern int a;" 1 8,
    b"extern inline int f();" 1 8,
    b"extern int ;" 1 12,
    b"extern int a = 1;" 1 14,
    b"extern int a, b;" 1 13,
    b"extern int a();" 1 13,
    b"inline class T;" 1 8,
    b"inline extern int a;" 1 8,
    b"inline inline int f();" 1 8,
    b"inline int a ;" 1 14,
    b"inline int a = 1;" 1 14,
];

#[test]
fn units_and_globals_of_each_form_are_grammatical(rt: HostRuntime) -> Result<(), Fail> {
    assert_eq!(rt; first_refused(rt.alloc(), GRAMMATICAL)?, None);
    Ok(())
}

#[test]
fn units_and_globals_are_refused_at_the_first_wrong_token(rt: HostRuntime) -> Result<(), Fail> {
    assert_eq!(rt; first_other(rt.alloc(), FAULTY)?, None);
    Ok(())
}
