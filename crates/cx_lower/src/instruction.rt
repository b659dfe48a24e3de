//! The machine's instructions that are used, by name.
ghost use Rattle.std.specs.Prelude.{◌≡◌, ◌≤◌};
ghost use Rattle.cx_lower.specs.Code.{instruction, push, discard, swap, get, make, end, load, store, jump, jump_zero, jump_nonzero, call, returns, out, begin, verdict, violate, contract_end, number_of};

use cx_code::{Instruction, Semantic};

/// The number of a violation whose predicate was false, to which that of the semantic is added.
const PREDICATE_FALSE: u32 = 8;

fn instruction(code: u8, a: u32, b: u32) -> Instruction
    ensures { result ≡ instruction code a b }
{
    Instruction { code, a, b }
}

/// A number.
pub fn push(value: u32) -> Instruction
    ensures { result ≡ push value }
{
    instruction(1, 0, value)
}

/// The operand on top is given up.
pub fn discard() -> Instruction
    ensures { result ≡ discard }
{
    instruction(5, 0, 0)
}

/// The two operands on top change places.
pub fn swap() -> Instruction
    ensures { result ≡ swap }
{
    instruction(6, 0, 0)
}

/// The place of the object in a slot.
pub fn get(slot: u32) -> Instruction
    ensures { result ≡ get slot }
{
    instruction(7, slot, 0)
}

/// An object of one leaf is made in a slot.
pub fn make(slot: u32) -> Instruction
    ensures { result ≡ make slot }
{
    instruction(9, 1, slot)
}

/// The object at the place on top ends.
pub fn end() -> Instruction
    ensures { result ≡ end }
{
    instruction(10, 0, 0)
}

/// What the object at the place on top holds.
pub fn load() -> Instruction
    ensures { result ≡ load }
{
    instruction(11, 0, 0)
}

/// The operand on top is written at the place below it.
pub fn store() -> Instruction
    ensures { result ≡ store }
{
    instruction(12, 0, 0)
}

pub fn jump(to: u32) -> Instruction
    ensures { result ≡ jump to }
{
    instruction(35, to, 0)
}

pub fn jump_zero(to: u32) -> Instruction
    ensures { result ≡ jump_zero to }
{
    instruction(36, to, 0)
}

pub fn jump_nonzero(to: u32) -> Instruction
    ensures { result ≡ jump_nonzero to }
{
    instruction(37, to, 0)
}

/// A call without arguments.
pub fn call(function: u32) -> Instruction
    ensures { result ≡ call function }
{
    instruction(38, function, 0)
}

pub fn returns() -> Instruction
    ensures { result ≡ returns }
{
    instruction(39, 0, 0)
}

/// A byte is written.
pub fn out() -> Instruction
    ensures { result ≡ out }
{
    instruction(41, 0, 0)
}

/// The definer evaluates an assertion.
pub fn begin(semantic: Semantic, index: u32) -> Instruction
    ensures { result ≡ begin semantic index }
{
    instruction(44, index, semantic_number(semantic))
}

pub fn verdict(index: u32) -> Instruction
    ensures { result ≡ verdict index }
{
    instruction(45, index, 0)
}

/// The predicate of an assertion was false.
pub fn violate(semantic: Semantic, index: u32) -> Instruction
    ensures { result ≡ violate semantic index }
{
    instruction(46, index, PREDICATE_FALSE + semantic_number(semantic))
}

/// A contract ends the program.
pub fn contract_end() -> Instruction
    ensures { result ≡ contract_end }
{
    instruction(48, 0, 0)
}

/// The number of a semantic in an instruction.
fn semantic_number(semantic: Semantic) -> u32
    ensures number { result ≡ number_of semantic }
    ensures few { result ≤ 4 }
{
    match semantic {
        Semantic::Ignore => 1,
        Semantic::Observe => 2,
        Semantic::Enforce => 3,
        Semantic::QuickEnforce => 4,
    }
}
