ghost use Rattle.std.specs.Prelude.{◌<◌, ◌^◌, length};

use cx_code::Semantic;
use cx_core::{Calls, Choice};
use cx_plan::{PlanFault, chosen, names, read_plan, unit_choice};
use std::alloc::Global;
use std::test::Fail;

/// A text, and the number of its first bad line, or none.
#[derive(Clone, Copy)]
struct Row<'a> {
    text: &'a [u8],
    bad: u32,
}

/// No text of these tests has as many lines as the last arm says.
fn bad_line(alloc: Global, text: &[u8]) -> u32
    requires { length text.now < 2 ^ 32 }
{
    match read_plan(alloc, text, Semantic::Enforce) {
        Ok(_) => 0,
        Err(PlanFault::BadPlanLine(line)) => line,
        Err(_) => 1_000,
    }
}

#[test]
fn the_first_bad_line_of_a_plan_is_told(rt: HostRuntime) -> Result<(), Fail> {
    let alloc = rt.alloc();
    let rows = [
        Row { text: b"", bad: 0 },
        Row {
            text: b"\n# unit\nunit a.cpp enforce none 0\nat a.cpp f#pre1 ignore",
            bad: 0,
        },
        Row {
            text: b"unit a.cpp sometimes none 0",
            bad: 1,
        },
        Row {
            text: b"unit a.cpp enforce none 0\n\nunit a.cpp enforce none 0\n",
            bad: 3,
        },
        Row {
            text: b"unit a.cpp enforce none 8\n",
            bad: 1,
        },
        Row {
            text: b"at a.cpp f#pre1 ignore \n",
            bad: 1,
        },
    ];
    for row in rows {
        assert!(rt; row.text.len() < 1_000);
        assert_eq!(rt; bad_line(alloc, row.text), row.bad);
    }
    Ok(())
}

#[test]
fn a_plan_chooses_for_units_and_assertions(rt: HostRuntime) -> Result<(), Fail> {
    let text = b"unit a.cpp observe pre 2\nat a.cpp f#pre1 ignore\n";
    let plan = read_plan(rt.alloc(), text, Semantic::QuickEnforce)?;
    let observed = Choice {
        semantic: Semantic::Observe,
        calls: Calls::Pre,
        repeat: 2,
    };
    let usual = Choice {
        semantic: Semantic::QuickEnforce,
        calls: Calls::Nothing,
        repeat: 0,
    };
    assert_eq!(rt; unit_choice(&plan, b"a.cpp"), observed);
    assert_eq!(rt; unit_choice(&plan, b"b.cpp"), usual);
    assert_eq!(rt; chosen(&plan, b"a.cpp", b"f#pre1"), Semantic::Ignore);
    assert_eq!(rt; chosen(&plan, b"a.cpp", b"f#pre2"), Semantic::Observe);
    assert_eq!(rt; chosen(&plan, b"b.cpp", b"f#pre1"), Semantic::QuickEnforce);
    assert_eq!(rt; names(&plan, &[]), Err(PlanFault::UnknownUnit(1)));
    Ok(())
}
