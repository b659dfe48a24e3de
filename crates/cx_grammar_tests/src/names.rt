use crate::judging::{Faulty, first_other, first_refused};
use std::test::Fail;

const GRAMMATICAL: &[&[u8]] = &[
    b"class T; T a;",
    b"class T { T* a; };",
    b"class T { }; T f(T a, T) { return T(); }",
    b"int T; class T; T* a;",
    b"void f() { T(1); T = 2; T.a; } class T; void g(T a) { T b; }",
    b"struct T; class T; struct T { }; T a;",
    b"int pre(int post) { return pre(post); }",
    b"int pre() pre(pre) post(post : post) post(post) post(pre == post);",
    b"class pre; pre a; int f() pre(true) post(1);",
    b"class post { post(); }; int f(post a) post(r : r);",
    b"class pre { int pre2; pre() pre(true); };",
    b"int contracts; struct T { int pre; int post; int contracts; };",
    b"class main; main f();",
];

const FAULTY: &[Faulty] = faulty![
    b"T a; class T;" 1 1,
    b"void f() { T a; } class T;" 1 14,
    b"class T; void f() { T(1); }" 1 22,
    b"class T; void f() { T.a; }" 1 22,
    b"class T; void f() { T = 1; }" 1 23,
    b"class T; void f() { T T; }" 1 23,
    b"class T; void f() { int T; }" 1 25,
    b"class T; int T;" 1 15,
    b"class T; extern int T;" 1 21,
    b"class T; void f(int T);" 1 21,
    b"class T; int f() post(T : 1);" 1 25,
    b"class T; class T { int T; };" 1 24,
    b"class T; void f() { try { } catch (int T) { } }" 1 40,
    b"class T; T::T() : T() { }" 1 19,
    b"class T; struct 1;" 1 17,
    b"class std;" 1 7,
    b"int std;" 1 5,
    b"void f() { int std; }" 1 16,
    b"pre a;" 1 1,
    b"class pre; int pre() pre(true);" 1 19,
];

#[test]
fn names_take_the_part_that_their_place_gives(rt: HostRuntime) -> Result<(), Fail> {
    assert_eq!(rt; first_refused(rt.alloc(), GRAMMATICAL)?, None);
    Ok(())
}

#[test]
fn names_are_refused_at_places_of_another_part(rt: HostRuntime) -> Result<(), Fail> {
    assert_eq!(rt; first_other(rt.alloc(), FAULTY)?, None);
    Ok(())
}
