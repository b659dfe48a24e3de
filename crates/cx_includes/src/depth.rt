ghost use Rattle.std.specs.Prelude.{◌≡◌, ◌<◌, map, drop, length, slice_get, IfOk, IfSome};
ghost use Rattle.std.specs.List.{All};
ghost use Rattle.cx_includes.specs.Assembled.{bytes_of_placed, IsWithin};
ghost use Rattle.cx_includes.specs.OpenTokens.{most_open_tokens, shape_of};
ghost use Rattle.cx_includes.specs.Counting.{is_else_next, shapes_of};

use crate::assembled::Assembled;
use crate::counts::Counting;
use crate::shape::{Shape, shape_of};
use cx_outside::NoMemory;
use std::alloc::Global;

/// The most tokens of a unit that are open at one place, which bounds how deep its trees can be: a token is open until
/// the statement or the braces end that it stands in. The only other answer is want of memory. This project's own.
pub fn open_tokens(alloc: Global, unit: &Assembled) -> Result<u32, NoMemory>
    requires { All (IsWithin unit.now.files) unit.now.placed }
    ensures { IfOk result (λ count. count ≡ most_open_tokens (map (λ placed. shape_of (bytes_of_placed unit.now placed)) unit.now.placed)) }
{
    let count = unit.items().len();
    let mut counting = Counting::new(alloc);
    let mut most: u32 = 0;
    for at in 0..count {
        most = most.max(counting.total + 1);
        let shape = shape_of(bytes_at(unit, at));
        counting.pass(shape, is_else_at(unit, at + 1))?;
    }
    Ok(most)
}

/// Whether the token with this index is an `else`, if there is one.
fn is_else_at(unit: &Assembled, at: usize) -> bool
    requires { All (IsWithin unit.now.files) unit.now.placed }
    ensures { result ≡ is_else_next (drop at (shapes_of unit.now)) }
{
    if at >= unit.items().len() {
        return false;
    }
    match shape_of(bytes_at(unit, at)) {
        Shape::Else => true,
        _ => false,
    }
}

/// The bytes of the token with this index.
fn bytes_at(unit: &Assembled, at: usize) -> &[u8]
    requires inside { at < length unit.now.placed }
    requires within { All (IsWithin unit.now.files) unit.now.placed }
    ensures { IfSome (slice_get unit.now.placed at) (λ placed. result.now ≡ bytes_of_placed unit.now placed) }
{
    let placed = unit.items()[at];
    let text = unit.file_text(placed.file);
    &text[placed.token.start as usize..placed.token.end as usize]
}
