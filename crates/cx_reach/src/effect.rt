ghost use Rattle.std.specs.Prelude.{◌≡◌, ◌↔◌, ℕ, ◌+◌, ◌<◌, ◌^◌, Option, Some, IsTrue, length};
ghost use Rattle.cx_code.specs.Reached.{taken_count, given_count, HasIndices, Follows, operation_at};
ghost use Rattle.cx_reach.specs.Effects.{LeadsTo, IsEffectAt, IsEffect};

use cx_code::{Function, Image, Operation};

/// Where the code may go on behind an instruction. (This project's own.)
#[derive(Clone, Copy, Debug)]
pub struct Nexts {
    /// At the place behind it.
    pub behind: Option<usize>,
    /// At the place of a jump.
    pub target: Option<usize>,
}

/// What an instruction does to the number of operands, and where the code may go on behind it.
#[derive(Clone, Copy, Debug)]
pub struct Effect {
    /// How many operands it takes.
    pub taken: u32,
    /// How many it gives.
    pub given: u32,
    /// Where the code may go on.
    pub nexts: Nexts,
}

/// The effect of the instruction at a place of the code. `None` where its numbers or its index are
/// out of range.
pub fn effect_at(image: &Image, function: &Function, place: usize) -> Option<Effect>
    requires { place < length function.now.code }
    ensures { IsEffectAt image.now function.now place result }
{
    let operation = function.code.items()[place].operation()?;
    if !has_indices(image, operation) {
        return None;
    }
    Some(Effect {
        taken: taken(function, operation),
        given: given(image, operation),
        nexts: nexts_of(operation, place),
    })
}

/// Where the code may go on behind an instruction at a place: both where it is a jump on a condition.
/// Whether the code has these places isn't asked. (This project's own.)
pub fn nexts_of(operation: Operation, place: usize) -> Nexts
    requires { place + 1 < 2 ^ 64 }
    ensures { (next : ℕ) → Follows operation place next ↔ LeadsTo result next }
{
    match operation {
        Operation::Jump(to) => Nexts {
            behind: None,
            target: Some(to as usize),
        },
        Operation::JumpZero(to) | Operation::JumpNonzero(to) => Nexts {
            behind: Some(place + 1),
            target: Some(to as usize),
        },
        Operation::Return
        | Operation::ContractEnd
        | Operation::Throw(_)
        | Operation::Rethrow
        | Operation::Resume
        | Operation::Flow => Nexts {
            behind: None,
            target: None,
        },
        _ => Nexts {
            behind: Some(place + 1),
            target: None,
        },
    }
}

/// How many operands an instruction of a function takes: for a call as many as it passes, for
/// `return` the function's result, where it has one. (This project's own.)
pub fn taken(function: &Function, operation: Operation) -> u32
    ensures { result ≡ taken_count function.now operation }
{
    match operation {
        Operation::Call(_, count) => count,
        Operation::Return => u32::from(function.result),
        Operation::Swap
        | Operation::Store
        | Operation::Copy
        | Operation::Add(_)
        | Operation::Subtract(_)
        | Operation::Multiply(_)
        | Operation::Divide(_)
        | Operation::Remainder(_)
        | Operation::ShiftLeft(_)
        | Operation::ShiftRight(_)
        | Operation::BitAnd(_)
        | Operation::BitOr(_)
        | Operation::BitXor(_)
        | Operation::Equal
        | Operation::NotEqual
        | Operation::Less
        | Operation::LessOrEqual
        | Operation::Greater
        | Operation::GreaterOrEqual
        | Operation::TextAt => 2,
        Operation::Duplicate
        | Operation::Discard
        | Operation::Set(_)
        | Operation::End
        | Operation::Load
        | Operation::Offset(_)
        | Operation::Negate(_)
        | Operation::Not(_)
        | Operation::Complement(_)
        | Operation::Convert(_)
        | Operation::JumpZero(_)
        | Operation::JumpNonzero(_)
        | Operation::Out
        | Operation::TextOf(_)
        | Operation::Verdict(_)
        | Operation::Field(_)
        | Operation::Throw(_)
        | Operation::Destroyed(_) => 1,
        Operation::Push(_)
        | Operation::PushBig(_)
        | Operation::PushNull
        | Operation::Get(_)
        | Operation::Make(_, _)
        | Operation::Jump(_)
        | Operation::Global(_)
        | Operation::In
        | Operation::Begin(_, _, _)
        | Operation::Violate(_, _, _)
        | Operation::ContractEnd
        | Operation::Rethrow
        | Operation::Held
        | Operation::Release
        | Operation::Resume
        | Operation::Flow => 0,
    }
}

/// The operands that an instruction gives.
fn given(image: &Image, operation: Operation) -> u32
    requires { HasIndices image.now operation }
    ensures { result ≡ given_count image.now operation }
{
    match operation {
        Operation::Call(callee, _) => { u32::from(image.functions.items()[callee as usize].result) }
        Operation::Duplicate | Operation::Swap => 2,
        Operation::Discard
        | Operation::Set(_)
        | Operation::Make(_, _)
        | Operation::End
        | Operation::Store
        | Operation::Copy
        | Operation::Jump(_)
        | Operation::JumpZero(_)
        | Operation::JumpNonzero(_)
        | Operation::Return
        | Operation::Begin(_, _, _)
        | Operation::Violate(_, _, _)
        | Operation::ContractEnd
        | Operation::Throw(_)
        | Operation::Rethrow
        | Operation::Release
        | Operation::Resume
        | Operation::Destroyed(_)
        | Operation::Flow => 0,
        _ => 1,
    }
}

/// Whether each index of an instruction is in its table of the image: that of a function, a global, a
/// text, an assertion or a type. (This project's own.)
pub fn has_indices(image: &Image, operation: Operation) -> bool
    ensures { IsTrue result ↔ HasIndices image.now operation }
{
    match operation {
        Operation::Call(function, _) => (function as usize) < image.functions.items().len(),
        Operation::Global(global) => (global as usize) < image.globals.items().len(),
        Operation::TextOf(text) => (text as usize) < image.texts.items().len(),
        Operation::Begin(assertion, _, _)
        | Operation::Verdict(assertion)
        | Operation::Violate(assertion, _, _) => {
            (assertion as usize) < image.assertions.items().len()
        }
        Operation::Throw(of) | Operation::Destroyed(of) => {
            (of as usize) < image.types.items().len()
        }
        _ => true,
    }
}
