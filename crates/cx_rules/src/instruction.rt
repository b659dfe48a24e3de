ghost use Rattle.std.specs.Prelude.{◌≡◌, ◌≢◌, ◌↔◌, ℕ, ◌<◌, ◌≤◌, length, Some, IsTrue};
ghost use Rattle.cx_code.specs.declared.code.Instruction.{Instruction as Coded};
ghost use Rattle.cx_code.specs.Operation.{operation_of};
ghost use Rattle.cx_code.specs.Reached.{HasIndices};
ghost use Rattle.cx_code.specs.Rules.{HasPlaces, PassesArguments};
ghost use Rattle.cx_reach.specs.Broken.{BreaksAt};
ghost use Rattle.cx_reach.specs.Comes.{IsArrival};
ghost use Rattle.cx_rules.specs.First.{IsFirstOf};
ghost use Rattle.cx_rules.specs.Judged.{AreBadDepths, LeadsOff, IsBadArrival};

use cx_code::{Function, Image, Instruction, Operation};
use cx_reach::effect::{has_indices, nexts_of, taken};
use cx_reach::{Arrival, Depths, Rule};

/// The most operands that an instruction may find.
const MOST_OPERANDS: i128 = 4096;

/// The first rule that an instruction of a function's code breaks. (This project's own.)
///
/// - `image` has the tables that the instruction's indices name.
/// - `function` is the function, one of the image or not.
/// - `place` is a place of its code, and `instruction` is judged as if it stood there.
/// - `arrival` tells how the place is reached.
///
/// `None` comes exactly where the instruction breaks no rule.
pub fn instruction_rule(
    image: &Image,
    function: &Function,
    place: usize,
    instruction: Instruction,
    arrival: Arrival,
) -> Option<Rule>
    requires place { place < length function.now.code }
    requires arrival { IsArrival image.now function.now place arrival }
    ensures { IsFirstOf (BreaksAt image.now function.now place instruction) result }
{
    match instruction.operation() {
        Some(operation) if has_indices(image, operation) => {
            operation_rule(image, function, place, operation, arrival)
        }
        _ => Some(Rule::V1),
    }
}

/// The first rule that an operation breaks whose indices are in their tables.
fn operation_rule(
    image: &Image,
    function: &Function,
    place: usize,
    operation: Operation,
    arrival: Arrival,
) -> Option<Rule>
    requires place { place < length function.now.code }
    requires arrival { IsArrival image.now function.now place arrival }
    requires indices { HasIndices image.now operation }
    ensures { (instruction : Coded) → operation_of instruction ≡ Some operation → IsFirstOf (BreaksAt image.now function.now place instruction) result }
{
    if !has_places(function, operation) {
        return Some(Rule::V2);
    }
    if are_bad_depths(function, operation, arrival.depths) {
        return Some(Rule::V3);
    }
    if !passes_arguments(image, operation) {
        return Some(Rule::V5);
    }
    if runs_off(function, place, operation, arrival.depths) || is_bad_arrival(operation, arrival) {
        return Some(Rule::V6);
    }
    None
}

/// Places and slots are the function's.
fn has_places(function: &Function, operation: Operation) -> bool
    ensures { IsTrue result ↔ HasPlaces function.now (Some operation) }
{
    match operation {
        Operation::Jump(to) | Operation::JumpZero(to) | Operation::JumpNonzero(to) => {
            (to as usize) < function.code.items().len()
        }
        Operation::Get(slot) | Operation::Set(slot) | Operation::Make(_, slot) => {
            slot < function.slots
        }
        _ => true,
    }
}

/// Fewer operands come than the instruction takes, or too many, or not always as many.
fn are_bad_depths(function: &Function, operation: Operation, depths: Depths) -> bool
    ensures { IsTrue result ↔ AreBadDepths function.now operation depths }
{
    match depths {
        Depths::None => false,
        Depths::One(depth) => {
            depth < i128::from(taken(function, operation)) || MOST_OPERANDS < depth
        }
        Depths::Several => true,
    }
}

/// A call passes as many arguments as there are parameters.
fn passes_arguments(image: &Image, operation: Operation) -> bool
    requires { HasIndices image.now operation }
    ensures { IsTrue result ↔ PassesArguments image.now (Some operation) }
{
    match operation {
        Operation::Call(callee, count) => {
            image.functions.items()[callee as usize].parameters == count
        }
        _ => true,
    }
}

/// The place is reached, and a place behind the code can come next.
fn runs_off(function: &Function, place: usize, operation: Operation, depths: Depths) -> bool
    requires { place < length function.now.code }
    ensures { IsTrue result ↔ ((depths ≢ Depths.None) × LeadsOff function.now place operation) }
{
    depths != Depths::None && leads_off(function, place, operation)
}

/// A place behind the code can come next.
fn leads_off(function: &Function, place: usize, operation: Operation) -> bool
    requires { place < length function.now.code }
    ensures { IsTrue result ↔ LeadsOff function.now place operation }
{
    let length = function.code.items().len();
    let nexts = nexts_of(operation, place);
    is_behind(nexts.behind, length) || is_behind(nexts.target, length)
}

/// There is a next place, and it isn't in a code of this length.
fn is_behind(next: Option<usize>, length: usize) -> bool
    ensures { IsTrue result ↔ ((place : ℕ) × (next ≡ Some place) × (length ≤ place)) }
{
    match next {
        Some(place) => length <= place,
        None => false,
    }
}

/// The place is reached from both sorts of origin, or the instruction is a `resume` where no Cleanup
/// leads, or a `return` where one does.
fn is_bad_arrival(operation: Operation, arrival: Arrival) -> bool
    ensures { IsTrue result ↔ IsBadArrival operation arrival }
{
    let both = arrival.plain && arrival.cleanup;
    match operation {
        Operation::Resume => both || !arrival.cleanup,
        Operation::Return => arrival.cleanup,
        _ => both,
    }
}
