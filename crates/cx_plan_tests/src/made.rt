use cx_generated::{plan_text, summary_line, unit_name, unit_text};
use std::test::Fail;

#[test]
fn the_second_of_two_units_ends_with_main(rt: HostRuntime) -> Result<(), Fail> {
    let alloc = rt.alloc();
    let text = unit_text(alloc, 2, 2)?;
    let first: &[u8] = b"int f1_16(const int x) pre(x >= 0) post(r : r >= x);\n\
        int f2_1(const int x) pre(x >= 0) post(r : r >= x) { return f1_16(x) + 1; }\n\
        int f2_2(const int x) pre(x >= 0) post(r : r >= x) { return f2_1(x) + 1; }\n";
    let last: &[u8] =
        b"int f2_16(const int x) pre(x >= 0) post(r : r >= x) { return f2_15(x) + 1; }\n\
        int main() { return f2_16(0); }\n";
    assert!(rt; text.bytes().starts_with(first));
    assert!(rt; text.bytes().ends_with(last));
    Ok(())
}

#[test]
fn units_have_names_a_plan_and_a_summary(rt: HostRuntime) -> Result<(), Fail> {
    let alloc = rt.alloc();
    assert!(rt; unit_name(alloc, 64)?.bytes() == b"m64.cpp".as_slice());
    let plan: &[u8] = b"unit m1.cpp observe pre 1\nunit m2.cpp enforce all 2\n";
    assert!(rt; plan_text(alloc, 2)?.bytes() == plan);
    let summary: &[u8] = b"make 2: functions 32, begins 292, returned 31\n";
    assert!(rt; summary_line(alloc, 2, 292, 31)?.bytes() == summary);
    Ok(())
}
