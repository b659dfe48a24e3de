use crate::judging::{Faulty, first_other, first_refused};
use std::test::Fail;

const GRAMMATICAL: &[&[u8]] = &[
    b"void f() { return; return a; return a = b; return (a); }",
    b"void f() { break; continue; }",
    b"void f() { throw; throw a; throw a = b; throw 1; }",
    b"class T; void f() { return T(1); throw T(1); }",
    b"void f() { try { } catch (...) { } }",
    b"class T; void f() { try { a; } catch (int) { b; } catch (const T& c) { d; } catch (...) { throw; } }",
    b"void f() { try { } catch (...) { } catch (int a) { } try { } catch (std::contracts::a b) { } ; }",
    b"void f() { if (a) try { } catch (...) { } else ; }",
    b"void f() { contract_assert(a); contract_assert(a ? b : c = d); contract_assert((a = b)); }",
    b"void f() { contract_assert(int(a)); contract_assert(std::contracts::a::b == c); }",
    b"void f() { a; a = b; (a); -a; \"text\"; 1; this; ++a; &a; *a = b; static_cast<int>(a); }",
    b"void f() { pre(1); post = 2; contracts; }",
];

const FAULTY: &[Faulty] = faulty![
    b"void f() { return }" 1 19,
    b"void f() { return ) }" 1 19,
    b"void f() { return a }" 1 21,
    b"void f() { break a; }" 1 18,
    b"void f() { break }" 1 18,
    b"void f() { continue 1; }" 1 21,
    b"void f() { continue }" 1 21,
    b"void f() { throw }" 1 18,
    b"void f() { throw int ; }" 1 22,
    b"void f() { throw a }" 1 20,
    b"void f() { try ; }" 1 16,
    b"void f() { try try { } }" 1 16,
    b"void f() { try { } }" 1 20,
    b"void f() { try { } ; }" 1 20,
    b"void f() { try { } catch { } }" 1 26,
    b"void f() { try { } catch () { } }" 1 27,
    b"void f() { try { } catch (a) { } }" 1 27,
    b"void f() { try { } catch (int = 1) { } }" 1 31,
    b"void f() { try { } catch (int a, int b) { } }" 1 32,
    b"void f() { try { } catch (... a) { } }" 1 31,
    b"void f() { try { } catch (int) ; }" 1 32,
    b"void f() { try { } catch (int) { } catch ; }" 1 42,
    b"void f() { catch (...) { } }" 1 12,
    b"void f() { contract_assert a; }" 1 28,
    b"void f() { contract_assert(); }" 1 28,
    b"void f() { contract_assert(a = b); }" 1 30,
    b"void f() { contract_assert(a, b); }" 1 29,
    b"void f() { contract_assert(a ; }" 1 30,
    b"void f() { contract_assert(a) }" 1 31,
    b"void f() { contract_assert(a) { }" 1 31,
    b"void f() { a }" 1 14,
    b"void f() { a b; }" 1 14,
    b"void f() { a : b; }" 1 14,
    b"void f() { a) }" 1 13,
    b"void f() { goto a; }" 1 12,
    b"void f() { do ; }" 1 12,
    b"void f() { switch (a) { } }" 1 12,
    b"void f() { case 1: ; }" 1 12,
    b"void f() { class T; }" 1 12,
    b"void f() { extern int a; }" 1 12,
    b"void f() { inline int g(); }" 1 12,
    b"void f() { using a; }" 1 12,
];

#[test]
fn jumps_handlers_and_assertions_are_grammatical(rt: HostRuntime) -> Result<(), Fail> {
    assert_eq!(rt; first_refused(rt.alloc(), GRAMMATICAL)?, None);
    Ok(())
}

#[test]
fn jumps_handlers_and_assertions_are_refused_at_the_first_wrong_token(
    rt: HostRuntime,
) -> Result<(), Fail> {
    assert_eq!(rt; first_other(rt.alloc(), FAULTY)?, None);
    Ok(())
}
