ghost use Rattle.std.specs.Prelude.{◌≡◌, [], ◌∷◌, ◌++◌, true, false, IfOk, IsTrue};
ghost use Rattle.cx_machine_tests.specs.Checked.{is_valid};
ghost use Rattle.cx_machine_tests.specs.Named.{called, dropper, image_of};

use cx_code::{
    Assertion, AssertionKind, Function, GlobalEntry, Image, Initial, Instruction, Region, TypeEntry,
};
use cx_image::{Valid, verify};
use cx_outside::{Items, NoMemory, Text};
use std::alloc::Global;

/// A function without a name, which counts for the depth.
#[derive(Clone, Copy)]
pub struct Part<'a> {
    pub parameters: u32,
    pub slots: u32,
    pub result: bool,
    pub code: &'a [Instruction],
    pub regions: &'a [Region],
}

fn code(alloc: Global, code: &[Instruction]) -> Result<Items<Instruction>, NoMemory>
    ensures { IfOk result (λ items. items ≡ code.now) }
{
    let mut items = Items::new(alloc);
    for i in code {
        items.push(*i)?;
    }
    Ok(items)
}

fn regions(alloc: Global, regions: &[Region]) -> Result<Items<Region>, NoMemory>
    ensures { IfOk result (λ items. items ≡ regions.now) }
{
    let mut items = Items::new(alloc);
    for region in regions {
        items.push(*region)?;
    }
    Ok(items)
}

pub fn function(alloc: Global, part: Part<'_>) -> Result<Function, NoMemory>
    ensures { IfOk result (λ function. function ≡ called part.entry.parameters part.entry.slots part.entry.result part.entry.code.now part.entry.regions.now) }
{
    Ok(Function {
        name: Text::new(alloc),
        counted: true,
        parameters: part.parameters,
        slots: part.slots,
        result: part.result,
        code: code(alloc, part.code)?,
        regions: regions(alloc, part.regions)?,
    })
}

fn dropper(alloc: Global) -> Result<Function, NoMemory>
    ensures { IfOk result (λ function. function ≡ dropper) }
{
    function(
        alloc,
        Part {
            parameters: 1,
            slots: 1,
            result: false,
            code: code![7 0 0, 54 0 0, 7 0 0, 10 0 0, 39 0 0],
            regions: &[],
        },
    )
}

fn types(alloc: Global, other: u32) -> Result<Items<TypeEntry>, NoMemory>
    ensures { IfOk result (λ types. types ≡ record { name = []; leaves = 1; dropper = 2 } ∷ record { name = []; leaves = 2; dropper = other } ∷ []) }
{
    let mut types = Items::new(alloc);
    types.push(TypeEntry {
        name: Text::new(alloc),
        leaves: 1,
        dropper: 2,
    })?;
    types.push(TypeEntry {
        name: Text::new(alloc),
        leaves: 2,
        dropper: other,
    })?;
    Ok(types)
}

/// The image of `main`, the dropper and another function.
pub fn image(
    alloc: Global,
    main: Part<'_>,
    last: Part<'_>,
    handler: u32,
    other: u32,
) -> Result<Image, NoMemory>
    ensures { IfOk result (λ image. image ≡ image_of (called main.entry.parameters main.entry.slots main.entry.result main.entry.code.now main.entry.regions.now ∷ dropper ∷ called last.entry.parameters last.entry.slots last.entry.result last.entry.code.now last.entry.regions.now ∷ []) handler other) }
{
    let mut texts = Items::new(alloc);
    texts.push(Text::copy_of(alloc, &[65, 66])?)?;
    texts.push(Text::new(alloc))?;
    let mut globals = Items::new(alloc);
    globals.push(GlobalEntry {
        name: Text::new(alloc),
        initial: Initial::Number(0, 7),
    })?;
    globals.push(GlobalEntry {
        name: Text::new(alloc),
        initial: Initial::Null,
    })?;
    let mut functions = Items::new(alloc);
    functions.push(function(alloc, main)?)?;
    functions.push(dropper(alloc)?)?;
    functions.push(function(alloc, last)?)?;
    let mut assertions = Items::new(alloc);
    assertions.push(Assertion {
        function: 0,
        kind: AssertionKind::Pre,
        ordinal: 1,
        file: 0,
        comment: 1,
        line: 4,
        column: 13,
    })?;
    Ok(Image {
        texts,
        types: types(alloc, other)?,
        globals,
        functions,
        assertions,
        main: 0,
        handler,
    })
}

/// The image, which is valid by the test.
pub fn valid(
    alloc: Global,
    main: Part<'_>,
    last: Part<'_>,
    handler: u32,
    other: u32,
) -> Result<Valid, NoMemory>
    requires { IsTrue (is_valid (image_of (called main.parameters main.slots main.result main.code.now main.regions.now ∷ dropper ∷ called last.parameters last.slots last.result last.code.now last.regions.now ∷ []) handler other)) }
    ensures { IfOk result (λ image. image ≡ image_of (called main.entry.parameters main.entry.slots main.entry.result main.entry.code.now main.entry.regions.now ∷ dropper ∷ called last.entry.parameters last.entry.slots last.entry.result last.entry.code.now last.entry.regions.now ∷ []) handler other) }
{
    match verify(alloc, image(alloc, main, last, handler, other)?) {
        Ok(valid) => Ok(valid),
        Err(_) => Err(NoMemory),
    }
}
