ghost use Rattle.std.specs.Prelude.{◌≡◌, ◌↔◌, ◌<◌, length, IsTrue};
ghost use Rattle.cx_rules.specs.Tables.{IsLowest, lesser_of, HasNoDropper, IsLostAt, IsLostIn, IsLost};

use cx_code::{Function, Image, Operation};

/// The first type of an image that has no dropper and is thrown by an instruction, reached or not.
/// In time linear in the code of the image. (This project's own.)
pub fn first_lost(image: &Image) -> Option<usize>
    ensures { IsLowest (IsLost image.now) result }
{
    let mut lowest = None;
    for index in 0..image.functions.items().len() {
        lowest = lesser(lowest, lost_in(image, &image.functions.items()[index]));
    }
    lowest
}

/// The first type without a dropper that an instruction of a function throws.
fn lost_in(image: &Image, function: &Function) -> Option<usize>
    ensures { IsLowest (IsLostIn image.now function.now) result }
{
    let mut lowest = None;
    for place in 0..function.code.items().len() {
        lowest = lesser(lowest, lost_at(image, function, place));
    }
    lowest
}

/// The type that the instruction at a place throws, where it has no dropper.
fn lost_at(image: &Image, function: &Function, place: usize) -> Option<usize>
    requires { place < length function.now.code }
    ensures { IsLowest (IsLostAt image.now function.now place) result }
{
    match function.code.items()[place].operation() {
        Some(Operation::Throw(of)) if has_no_dropper(image, of as usize) => Some(of as usize),
        _ => None,
    }
}

/// There is such a type, and it has no dropper.
fn has_no_dropper(image: &Image, of: usize) -> bool
    ensures { IsTrue result ↔ HasNoDropper image.now of }
{
    match image.types.items().get(of) {
        Some(entry) => entry.dropper == 0,
        None => false,
    }
}

/// The lesser of two numbers, where there are two.
pub fn lesser(a: Option<usize>, b: Option<usize>) -> Option<usize>
    ensures { result ≡ lesser_of a b }
{
    match (a, b) {
        (Some(a), Some(b)) => Some(a.min(b)),
        (None, b) => b,
        (a, None) => a,
    }
}
