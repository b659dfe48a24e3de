ghost use Rattle.std.specs.Prelude.{◌≡◌, ◌+◌, ◌≤◌, ◌<◌, ◌^◌, [], length, IfOk, OnOk, IfErr, IfSome, IsSome, slice_get, Some, ◌∷◌};
ghost use Rattle.cx_outside.specs.Fault.{Rose};
ghost use Rattle.cx_code.specs.Store.{nothing_made, made_of};
ghost use Rattle.cx_code.specs.State.{initial, initial_value, with_globals};
ghost use Rattle.cx_code.specs.Rules.{IsValid};
ghost use Rattle.cx_frame.specs.Stores.{IsSmall};
ghost use Rattle.cx_machine.specs.States.{state_of, IsCounted};
ghost use Rattle.cx_machine.specs.Outcome.{TakesAll};
ghost use Rattle.cx_machine.specs.Start.{IsReadCause, IsStarted};

use crate::calls::function_at;
use crate::kept::Kept;
use crate::state::{Frames, Input, Machine};
use cx_code::{Cause, GlobalEntry, Image, Initial, Memory, Value};
use cx_frame::{Exceptions, Frame, Operands};
use cx_outside::{Items, Next, NoMemory, Source};
use std::alloc::Global;

/// The whole input.
pub fn read_all<I: Source>(alloc: Global, input: &mut I) -> Result<Vec<u8>, Cause>
    ensures ok { IfOk result (λ bytes. TakesAll (I.left input.old) (I.left input.new) bytes.items) }
    ensures cause { IfErr result (λ cause. IsReadCause cause (Rose (I.faults input.old) (I.faults input.new))) }
    ensures later { I.faults input.old ≤ I.faults input.new }
{
    let mut bytes = Vec::new(alloc);
    for _read in 0..u64::MAX {
        match input.next() {
            Next::Byte(byte) => {
                if bytes.push(byte).is_err() {
                    return Err(Cause::NoMemory);
                }
            }
            Next::End => return Ok(bytes),
            Next::Failed => return Err(Cause::Read),
        }
    }
    Err(Cause::NoMemory)
}

/// What a global holds at first.
fn initial_value(initial: Initial) -> Value
    ensures { result ≡ initial_value initial }
{
    match initial {
        Initial::Number(high, low) => {
            let bits = u64::from(high) * 0x1_0000_0000 + u64::from(low);
            Value::Number(i128::from(bits.cast_signed()))
        }
        Initial::Null => Value::Null,
    }
}

/// The machine before its first step. The globals are made in the memory.
pub fn started<M: Memory>(
    alloc: Global,
    image: &Image,
    memory: &mut M,
    bytes: Vec<u8>,
) -> Result<Machine, NoMemory>
    requires valid { IsValid image.now }
    requires empty { M.store memory.old ≡ nothing_made }
    ensures started { IfOk result (λ machine. IsStarted image.now machine (M.store memory.new)) }
    ensures input { IfOk result (λ machine. machine.input ≡ bytes.items) }
{
    make_globals(image.globals.items(), memory)?;
    let function = function_at(image, image.main);
    let mut operands = Operands::new(alloc);
    let slots = operands.take_arguments(alloc, 0, function.slots)?;
    let frame = Frame {
        function: image.main,
        place: 0,
        operands: Operands::new(alloc),
        slots,
        pending: Exceptions::new(alloc),
    };
    Ok(Machine {
        frame,
        below: Frames::new(alloc),
        held: Exceptions::new(alloc),
        kept: Kept::new(alloc),
        violations: Items::new(alloc),
        thrown: 0,
        input: Input::new(bytes),
        unwinding: None,
        after: None,
        counted: u32::from(function.counted),
    })
}

/// Makes the globals, in their order.
fn make_globals<M: Memory>(globals: &[GlobalEntry], memory: &mut M) -> Result<(), NoMemory>
    requires few { length globals.now < 2 ^ 32 }
    requires empty { M.store memory.old ≡ nothing_made }
    ensures store { OnOk result (M.store memory.new ≡ with_globals nothing_made globals.now) }
    ensures small { OnOk result (IsSmall (M.store memory.new)) }
    ensures next { OnOk result ((M.store memory.new).next ≡ 1 + length globals.now) }
{
    for global in globals {
        make_global(memory, initial_value(global.initial))?;
    }
    Ok(())
}

/// Makes a global with a value.
fn make_global<M: Memory>(memory: &mut M, value: Value) -> Result<(), NoMemory>
    requires room { (M.store memory.old).next < 2 ^ 63 }
    ensures made { OnOk result (M.store memory.new ≡ made_of (M.store memory.old) (Some value ∷ [])) }
{
    let number = memory.make(1)?;
    memory.store(number, 0, value);
    Ok(())
}
