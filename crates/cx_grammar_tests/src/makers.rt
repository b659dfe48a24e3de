use crate::judging::{Faulty, first_other};
use std::test::Fail;

const FAULTY: &[Faulty] = faulty![
    b"class T { explicit int a; };" 1 20,
    b"class T { explicit ~T(); };" 1 20,
    b"class T { explicit a(); };" 1 20,
    b"class T { explicit virtual T(); };" 1 20,
    b"class T { explicit T ; };" 1 22,
    b"class T { explicit T a; };" 1 22,
    b"class T { T ; };" 1 13,
    b"class T { T T; };" 1 13,
    b"class T { T ::T(); };" 1 13,
    b"class T { T(1); };" 1 13,
    b"class T { T(int a ; };" 1 19,
    b"class T { T() }" 1 15,
    b"class T { T() const; };" 1 15,
    b"class T { T() = a; };" 1 15,
    b"class T { T() : ; };" 1 17,
    b"class T { T() : T() { } };" 1 17,
    b"class T { T() : a { } };" 1 19,
    b"class T { T() : a() ; };" 1 21,
    b"class T { T() : a() b() { } };" 1 21,
    b"class T { T() : a(), { } };" 1 22,
    b"class T { T() { } : };" 1 19,
    b"class T { T() noexcept noexcept; };" 1 24,
    b"class T { ~a(); };" 1 12,
    b"class T { ~int(); };" 1 12,
    b"class T { ~T ; };" 1 14,
    b"class T { ~T(int a); };" 1 14,
    b"class T { ~T(void); };" 1 14,
    b"class T { ~T() const; };" 1 16,
    b"class T { ~T() : a() { } };" 1 16,
    b"class T { ~T() }" 1 16,
    b"class T { virtual ~1 };" 1 20,
    b"class T { ~~T(); };" 1 12,
];

#[test]
fn constructors_and_destructors_are_refused_at_the_first_wrong_token(
    rt: HostRuntime,
) -> Result<(), Fail> {
    assert_eq!(rt; first_other(rt.alloc(), FAULTY)?, None);
    Ok(())
}
