use crate::judging::{Faulty, first_other, first_refused};
use std::test::Fail;

const GRAMMATICAL: &[&[u8]] = &[
    b"int f() { return a.b + a->b + a.b->c.d; }",
    b"void f() { a(); a(1); a(1, b = 2, \"x\"); a()()(1); }",
    b"void f() { a++; a--; a++--; a.b(1)++->c--; }",
    b"int f() { return -+!~*&++--a; }",
    b"int f() { return a || b && c | d ^ e & f == g < h << i + j * k; }",
    b"int f() { return a * b + c << d < e == f & g ^ h | i && j || k; }",
    b"bool f() { return a == b != c; }",
    b"bool f() { return a < b <= c > d >= e; }",
    b"int f() { return a << b >> c; }",
    b"int f() { return a + b - c; }",
    b"int f() { return a * b / c % d - -e; }",
    b"int f() { return a ? b : c ? d : e; }",
    b"int f() { return a ? b ? c : d : e; }",
    b"int f() { return a ? b = c : d = e; }",
    b"void f() { a = b += c -= d *= e /= g %= h &= i |= j ^= k <<= l >>= m; }",
    b"void f() { a || b = c; -a = b; a ? b : c = d; a = b ? c : d; }",
    b"void f() { std::a = 1; std::a + b; std::a(b).c; std::a ? b : c; std::a; }",
];

const FAULTY: &[Faulty] = faulty![
    b"int f() { return a.1; }" 1 20,
    b"class T; int f() { return a.T; }" 1 29,
    b"int f() { return a.~b(); }" 1 20,
    b"int f() { return a->(b); }" 1 21,
    b"int f() { return a[0]; }" 1 19,
    b"int f() { return a(, b); }" 1 20,
    b"int f() { return a(,); }" 1 20,
    b"int f() { return a(b, ); }" 1 23,
    b"int f() { return a(b c); }" 1 22,
    b"int f() { return a(b ; }" 1 22,
    b"int f() { return a ++ b; }" 1 23,
    b"int f() { return !; }" 1 19,
    b"int f() { return -/ a; }" 1 19,
    b"int f() { return / a; }" 1 18,
    b"int f() { return == a; }" 1 18,
    b"int f() { return ? a : b; }" 1 18,
    b"int f() { return = a; }" 1 18,
    b"int f() { return a * ; }" 1 22,
    b"int f() { return a + % b; }" 1 22,
    b"int f() { return a << ; }" 1 23,
    b"int f() { return a < > b; }" 1 22,
    b"int f() { return a == ; }" 1 23,
    b"int f() { return a & | b; }" 1 22,
    b"int f() { return a ^ ; }" 1 22,
    b"int f() { return a | || b; }" 1 22,
    b"int f() { return a && ; }" 1 23,
    b"int f() { return a || ); }" 1 23,
    b"int f() { return a ? : b; }" 1 22,
    b"int f() { return a ? b ; }" 1 24,
    b"int f() { return a ? b, c : d; }" 1 23,
    b"int f() { return a ? b : ; }" 1 26,
    b"void f() { a = ; }" 1 16,
    b"void f() { a += = b; }" 1 17,
    b"void f() { a, b; }" 1 13,
    b"int f() { return a <=> b; }" 1 20,
    b"int f() { return a.*b; }" 1 19,
    b"int f() { return a->*b; }" 1 19,
    b"int f() { return a ~ b; }" 1 20,
    b"int f() { return a and b; }" 1 20,
    b"int f() { return a : b; }" 1 20,
];

#[test]
fn operators_of_each_level_are_grammatical(rt: HostRuntime) -> Result<(), Fail> {
    assert_eq!(rt; first_refused(rt.alloc(), GRAMMATICAL)?, None);
    Ok(())
}

#[test]
fn operators_are_refused_at_the_first_wrong_token(rt: HostRuntime) -> Result<(), Fail> {
    assert_eq!(rt; first_other(rt.alloc(), FAULTY)?, None);
    Ok(())
}
