ghost use Rattle.std.specs.Prelude.{◌≡◌, [], ◌∷◌, IfOk, codes, true, false};
ghost use Rattle.cx_code.specs.Storable.{IsStorable};

use cx_code::{
    Assertion, AssertionKind, Function, GlobalEntry, Image, Initial, Instruction, Region, TypeEntry,
};
use cx_image::{encode, verify};
use cx_outside::{Items, NoMemory, Text};
use std::alloc::Global;
use std::test::Fail;

/// The code of `return 258;`.
fn code(alloc: Global) -> Result<Items<Instruction>, NoMemory>
    ensures { IfOk result (λ code. code ≡ record { code = 1; a = 0; b = 258 } ∷ record { code = 39; a = 0; b = 0 } ∷ []) }
{
    let mut code = Items::new(alloc);
    code.push(Instruction {
        code: 1,
        a: 0,
        b: 258,
    })?;
    code.push(Instruction {
        code: 39,
        a: 0,
        b: 0,
    })?;
    Ok(code)
}

/// A function of that code, which catches what is thrown at its end and begins again.
fn body(alloc: Global) -> Result<Function, NoMemory>
    ensures { IfOk result (λ function. function ≡ record { name = codes "m"; counted = true; parameters = 0; slots = 3; result = true; code = record { code = 1; a = 0; b = 258 } ∷ record { code = 39; a = 0; b = 0 } ∷ []; regions = record { start = 1; end = 2; kind = 2; of = 1; target = 0; depth = 0 } ∷ [] }) }
{
    let mut regions = Items::new(alloc);
    regions.push(Region {
        start: 1,
        end: 2,
        kind: 2,
        of: 1,
        target: 0,
        depth: 0,
    })?;
    Ok(Function {
        name: Text::copy_of(alloc, b"m")?,
        counted: true,
        parameters: 0,
        slots: 3,
        result: true,
        code: code(alloc)?,
        regions,
    })
}

/// A function that takes a value and gives none.
fn hook(alloc: Global) -> Result<Function, NoMemory>
    ensures { IfOk result (λ function. function ≡ record { name = codes "h"; counted = false; parameters = 1; slots = 1; result = false; code = record { code = 39; a = 0; b = 0 } ∷ []; regions = [] }) }
{
    let mut code = Items::new(alloc);
    code.push(Instruction {
        code: 39,
        a: 0,
        b: 0,
    })?;
    Ok(Function {
        name: Text::copy_of(alloc, b"h")?,
        counted: false,
        parameters: 1,
        slots: 1,
        result: false,
        code,
        regions: Items::new(alloc),
    })
}

/// An image with one of each thing that an image has.
fn sample(alloc: Global) -> Result<Image, NoMemory>
    ensures { IfOk result IsStorable }
{
    let mut texts = Items::new(alloc);
    texts.push(Text::copy_of(alloc, b"a")?)?;
    let mut types = Items::new(alloc);
    types.push(TypeEntry {
        name: Text::copy_of(alloc, b"E")?,
        leaves: 256,
        dropper: 2,
    })?;
    let mut globals = Items::new(alloc);
    globals.push(GlobalEntry {
        name: Text::copy_of(alloc, b"g")?,
        initial: Initial::Number(1, 2),
    })?;
    let mut functions = Items::new(alloc);
    functions.push(body(alloc)?)?;
    functions.push(hook(alloc)?)?;
    let mut assertions = Items::new(alloc);
    assertions.push(Assertion {
        function: 0,
        kind: AssertionKind::Assert,
        ordinal: 1,
        file: 0,
        comment: 0,
        line: 4,
        column: 5,
    })?;
    Ok(Image {
        texts,
        types,
        globals,
        functions,
        assertions,
        main: 0,
        handler: 2,
    })
}

#[test]
fn an_image_has_the_bytes_of_the_format(rt: HostRuntime) -> Result<(), Fail> {
    let alloc = rt.alloc();
    let bytes = encode(alloc, &sample(alloc)?)?;
    let want: &[u8] = b"CXIM\x01\
        \x00\x00\x00\x01\x00\x00\x00\x01a\
        \x00\x00\x00\x01\x00\x00\x00\x01E\x00\x00\x01\x00\x00\x00\x00\x02\
        \x00\x00\x00\x01\x00\x00\x00\x01g\x00\x00\x00\x00\x01\x00\x00\x00\x02\
        \x00\x00\x00\x02\x00\x00\x00\x01m\x01\x00\x00\x00\x00\x00\x00\x00\x03\x01\
        \x00\x00\x00\x02\x01\x00\x00\x00\x00\x00\x00\x01\x02\x27\x00\x00\x00\x00\x00\x00\x00\x00\
        \x00\x00\x00\x01\x00\x00\x00\x01\x00\x00\x00\x02\x02\x00\x00\x00\x01\
        \x00\x00\x00\x00\x00\x00\x00\x00\
        \x00\x00\x00\x01h\x00\x00\x00\x00\x01\x00\x00\x00\x01\x00\
        \x00\x00\x00\x01\x27\x00\x00\x00\x00\x00\x00\x00\x00\
        \x00\x00\x00\x00\
        \x00\x00\x00\x01\x00\x00\x00\x00\x03\x00\x00\x00\x01\x00\x00\x00\x00\x00\x00\x00\x00\
        \x00\x00\x00\x04\x00\x00\x00\x05\
        \x00\x00\x00\x00\x00\x00\x00\x02";
    assert!(rt; bytes.bytes() == want);
    Ok(())
}

#[test]
fn an_image_that_keeps_the_rules_is_accepted(rt: HostRuntime) -> Result<(), Fail> {
    let alloc = rt.alloc();
    let valid = verify(alloc, sample(alloc)?)?;
    assert!(rt; valid.image().handler == 2);
    Ok(())
}
