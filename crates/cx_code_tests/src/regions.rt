use cx_code::Region;
use cx_unwind::{BuildFault, build, find};
use std::test::Fail;

fn region(start: u32, end: u32) -> Region {
    Region {
        start,
        end,
        kind: 1,
        of: 0,
        target: 0,
        depth: 0,
    }
}

#[test]
fn the_innermost_region_is_found_first(rt: HostRuntime) -> Result<(), Fail> {
    let table = build(rt.alloc(), &[region(2, 6), region(0, 9)])?;
    assert_eq!(rt; find(&table, 3, None), Some(0));
    assert_eq!(rt; find(&table, 3, Some(0)), Some(1));
    assert_eq!(rt; find(&table, 3, Some(1)), None);
    assert_eq!(rt; find(&table, 9, None), None, "an end isn't covered");
    assert_eq!(rt;
        find(&table, 7, Some(0)),
        Some(1),
        "behind a region that ends before"
    );
    Ok(())
}

#[test]
fn a_region_that_crosses_an_earlier_one_is_refused(rt: HostRuntime) {
    let alloc = rt.alloc();
    let crossing = [region(0, 4), region(2, 6)];
    assert!(rt; matches!(build(alloc, &crossing), Err(BuildFault::Crossing(1))));
    let inside_out = [region(7, 8), region(0, 6), region(2, 4), region(1, 3)];
    assert!(rt; matches!(build(alloc, &inside_out), Err(BuildFault::Crossing(2))));
}
