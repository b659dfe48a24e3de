use cx_code::{Function, Image, Instruction, Region};
use cx_outside::{Items, NoMemory, Text};
use cx_reach::{Arrival, Depths, arrivals};
use std::alloc::Global;
use std::test::Fail;

/// The arrivals of a function with this code and these regions, in an image that has nothing else.
fn arrivals_of(
    alloc: Global,
    code: &[(u8, u32)],
    regions: &[Region],
) -> Result<Vec<Arrival>, NoMemory> {
    let mut function = Function {
        name: Text::new(alloc),
        counted: true,
        parameters: 0,
        slots: 0,
        result: false,
        code: Items::new(alloc),
        regions: Items::new(alloc),
    };
    for (code, a) in code {
        function.code.push(Instruction {
            code: *code,
            a: *a,
            b: 0,
        })?;
    }
    for region in regions {
        function.regions.push(*region)?;
    }
    arrivals(alloc, &empty(alloc), &function)
}

fn empty(alloc: Global) -> Image {
    Image {
        texts: Items::new(alloc),
        types: Items::new(alloc),
        globals: Items::new(alloc),
        functions: Items::new(alloc),
        assertions: Items::new(alloc),
        main: 0,
        handler: 0,
    }
}

const fn plain(depths: Depths) -> Arrival {
    Arrival {
        depths,
        plain: true,
        cleanup: false,
    }
}

const NOWHERE: Arrival = Arrival {
    depths: Depths::None,
    plain: false,
    cleanup: false,
};

/// `push_null`, and back to it: more operands each turn. The `return` behind the jump isn't reached.
#[test]
fn a_loop_that_pushes_has_several_depths(rt: HostRuntime) -> Result<(), Fail> {
    let found = arrivals_of(rt.alloc(), &[(3, 0), (35, 0), (39, 0)], &[])?;
    let several = plain(Depths::Several);
    assert!(rt; found.as_slice() == [several, several, NOWHERE].as_slice());
    Ok(())
}

/// `return`, and then a Cleanup's target with three operands: `drop`, a jump on 0 to it, `resume`.
#[test]
fn a_cleanup_is_reached_from_its_region(rt: HostRuntime) -> Result<(), Fail> {
    let region = Region {
        start: 0,
        end: 1,
        kind: 1,
        of: 0,
        target: 1,
        depth: 3,
    };
    let found = arrivals_of(rt.alloc(), &[(39, 0), (5, 0), (36, 3), (53, 0)], &[region])?;
    let cleanup = |depth| Arrival {
        depths: Depths::One(depth),
        plain: false,
        cleanup: true,
    };
    let want = [plain(Depths::One(0)), cleanup(3), cleanup(2), cleanup(1)];
    assert!(rt; found.as_slice() == want.as_slice());
    Ok(())
}

/// `drop` where there is nothing, and a code that means nothing, behind which nothing is reached.
#[test]
fn there_can_be_fewer_operands_than_none(rt: HostRuntime) -> Result<(), Fail> {
    let found = arrivals_of(rt.alloc(), &[(5, 0), (0, 0), (39, 0)], &[])?;
    let want = [plain(Depths::One(0)), plain(Depths::One(-1)), NOWHERE];
    assert!(rt; found.as_slice() == want.as_slice());
    Ok(())
}
