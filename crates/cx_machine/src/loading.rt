ghost use Rattle.std.specs.Prelude.{◌≡◌, ◌≤◌, ◌<◌, ◌^◌, length, map, Some, IsSome, IfOk, IfSome, option_map, slice_get};
ghost use Rattle.std.specs.List.{All};
ghost use Rattle.std.specs.Option.{option_and_then};
ghost use Rattle.cx_code.specs.declared.image.Function.{Function as Code};
ghost use Rattle.cx_code.specs.Run.{code_of};
ghost use Rattle.cx_code.specs.Operation.{operation_of};
ghost use Rattle.cx_code.specs.Rules.{IsValid, IsNested};
ghost use Rattle.cx_machine.specs.Loading.{known_of, meaning_of, IsLoaded};

use cx_code::{Function, Image, Instruction, Operation, Region};
use cx_outside::NoMemory;
use cx_unwind::{BuildFault, Table, build};
use std::alloc::Global;

/// What is found out of a function before the first step.
#[derive(Debug, Drop)]
pub struct Routine {
    /// What each instruction does.
    pub operations: Vec<Operation>,
    /// The regions, so that those that cover a place are found fast.
    pub regions: Table,
}

/// What is found out of an image before the first step.
#[derive(Debug, Drop)]
pub struct Program {
    pub routines: Vec<Routine>,
}

/// Finds out what each instruction of an image does, and which regions cover a place.
pub fn load(alloc: Global, image: &Image) -> Result<Program, NoMemory>
    requires { IsValid image.now }
    ensures { IfOk result (IsLoaded image.now) }
{
    let functions = image.functions.items();
    let mut routines = Vec::with_capacity(alloc, functions.len())?;
    for function in functions {
        routines.push(routine_of(alloc, function)?)?;
    }
    Ok(Program { routines })
}

/// What was found out of the function of this index.
#[inline(always)]
pub fn routine_at<'a>(image: &Image, program: &'a Program, index: u32) -> &'a Routine
    requires loaded { IsLoaded image.now program.now }
    requires within { index < length image.now.functions }
    ensures { option_map meaning_of (slice_get image.now.functions index) ≡ Some (known_of result.now) }
{
    &program.routines[index as usize]
}

/// What the instruction at a place of a function does.
#[inline(always)]
pub fn operation_at(image: &Image, program: &Program, function: u32, place: u32) -> Operation
    requires loaded { IsLoaded image.now program.now }
    requires within { function < length image.now.functions }
    requires place { IfSome (slice_get image.now.functions function) (λ (its : Code). place < length its.code) }
    ensures { option_and_then operation_of (slice_get (code_of (slice_get image.now.functions function)) place) ≡ Some result }
{
    let routine = routine_at(image, program, function);
    routine.operations[place as usize]
}

fn routine_of(alloc: Global, function: &Function) -> Result<Routine, NoMemory>
    requires in_range { All (λ i. IsSome (operation_of i)) function.now.code }
    requires few { length function.now.regions < 2 ^ 32 }
    requires nested { IsNested function.now.regions }
    ensures { IfOk result (λ routine. known_of routine ≡ meaning_of function.now) }
{
    let operations = decoded(alloc, function.code.items())?;
    let regions = table_of(alloc, function.regions.items())?;
    Ok(Routine {
        operations,
        regions,
    })
}

/// The table of some regions. Those of a valid image are nested, so that memory is all that can be wanting.
fn table_of(alloc: Global, regions: &[Region]) -> Result<Table, NoMemory>
    requires few { length regions.now < 2 ^ 32 }
    requires nested { IsNested regions.now }
    ensures { IfOk result (λ table. table ≡ regions.now) }
{
    match build(alloc, regions) {
        Ok(table) => Ok(table),
        Err(BuildFault::OutOfMemory) => Err(NoMemory),
        Err(BuildFault::Crossing(_)) => unreachable!(),
    }
}

fn decoded(alloc: Global, code: &[Instruction]) -> Result<Vec<Operation>, NoMemory>
    requires { All (λ i. IsSome (operation_of i)) code.now }
    ensures { IfOk result (λ operations. map Some operations.items ≡ map operation_of code.now) }
{
    let mut operations = Vec::with_capacity(alloc, code.len())?;
    for instruction in code {
        operations.push(instruction.operation().unwrap())?;
    }
    Ok(operations)
}
