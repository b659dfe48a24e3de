use super::*;

/// What a unit that returns this comes to.
fn check_value(
    rt: &impl Abort,
    alloc: Global,
    value: &[u8],
    status: u8,
    err: &[u8],
) -> Result<(), Fail> {
    let mut text = Vec::from_slice(alloc, b"int main(){ return ")?;
    text.extend_from_slice(value)?;
    text.extend_from_slice(b"; }")?;
    check(rt, alloc, Case::of_unit(&text, status, err))
}

#[test]
fn operators_compute_numbers(rt: HostRuntime) -> Result<(), Fail> {
    let rows: [(&[u8], u8, &[u8]); 12] = [
        (b"7 / 2 * 100 + 7 % 4 - 1", 46, b"cx: returned 302\n"),
        (b"-1", 255, b"cx: returned -1\n"),
        (b"!0 + !5", 1, b"cx: returned 1\n"),
        (b"~0 & 6 | 8 ^ 1", 15, b"cx: returned 15\n"),
        (b"1 << 4 >> 1", 8, b"cx: returned 8\n"),
        (b"-7 >> 1", 252, b"cx: returned -4\n"),
        (b"-7 / 2", 253, b"cx: returned -3\n"),
        (b"-7 % 2", 255, b"cx: returned -1\n"),
        (b"true + true", 2, b"cx: returned 2\n"),
        (b"3 >= 3 != false", 1, b"cx: returned 1\n"),
        (b"2 > 1 == true", 1, b"cx: returned 1\n"),
        (b"(1 <= 0) < 1", 1, b"cx: returned 1\n"),
    ];
    for (value, status, err) in rows {
        check_value(&rt, rt.alloc(), value, status, err)?;
    }
    Ok(())
}

#[test]
fn what_has_no_value_is_undefined(rt: HostRuntime) -> Result<(), Fail> {
    let rows: [(&[u8], &[u8]); 8] = [
        (b"2147483647 + 1", b"cx: undefined: overflow\n"),
        (b"-2147483647 - 2", b"cx: undefined: overflow\n"),
        (b"65536 * 65536", b"cx: undefined: overflow\n"),
        (b"1 / 0", b"cx: undefined: division\n"),
        (b"1 % (1 - 1)", b"cx: undefined: division\n"),
        (b"(-2147483647 - 1) / -1", b"cx: undefined: division\n"),
        (b"1 << 32", b"cx: undefined: shift\n"),
        (b"1 >> -1", b"cx: undefined: shift\n"),
    ];
    for (value, err) in rows {
        check_value(&rt, rt.alloc(), value, 136, err)?;
    }
    Ok(())
}

#[test]
fn a_violation_tells_the_operators_of_its_predicate(rt: HostRuntime) -> Result<(), Fail> {
    let rows = [
        Case::of_unit(
            b"int main(){ contract_assert(2*3 ==7); return 0; }",
            134,
            b"contract violation: assert predicate_false enforce a.cpp:1:13 main#assert1: 2 * 3 == 7\ncx: contract-terminated\n",
        ),
        Case::of_unit(
            b"int main(){ contract_assert(!(-1<~0)); contract_assert(1<<2&3); return 0; }",
            134,
            b"contract violation: assert predicate_false enforce a.cpp:1:40 main#assert2: 1 << 2 & 3\ncx: contract-terminated\n",
        ),
        Case::of_unit(
            b"int main(){ contract_assert(1 / 0 == 1); return 0; }",
            136,
            b"cx: undefined: division\n",
        ),
    ];
    for row in rows {
        check(&rt, rt.alloc(), row)?;
    }
    Ok(())
}

/// A unit that returns the sum of so many ones: 6 tokens are open at its end, and 2 for each.
fn sum(alloc: Global, count: usize) -> Result<Vec<u8>, Fail> {
    let mut text = Vec::from_slice(alloc, b"int main(){return 1")?;
    for _ in 1..count {
        text.extend_from_slice(b"+1")?;
    }
    text.extend_from_slice(b";}")?;
    Ok(text)
}

#[test]
fn a_sum_has_at_most_509_ones(rt: HostRuntime) -> Result<(), Fail> {
    let alloc = rt.alloc();
    let longest = sum(alloc, 509)?;
    check(
        &rt,
        alloc,
        Case::of_unit(&longest, 253, b"cx: returned 509\n"),
    )?;
    let longer = sum(alloc, 510)?;
    let line = b"cx: too many: open-tokens 1026\n";
    check(&rt, alloc, Case::of_unit(&longer, 69, line))
}
