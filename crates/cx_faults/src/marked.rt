ghost use Rattle.std.specs.Prelude.{◌≡◌, ◌<◌, ◌^◌, ◌-◌, length, IfOk};
ghost use Rattle.std.specs.List.{All};
ghost use Rattle.cx_includes.specs.Assembled.{IsWithin};
ghost use Rattle.cx_faults.specs.Faults.{marks_of};

use crate::spelled::spelled;
use cx_includes::Assembled;
use cx_marks::marks_of;
use cx_outside::NoMemory;
use cx_syntax::Mark;
use std::alloc::Global;

/// The marks of an assembled list, one for each of its tokens: what the grammar asks of them.
///
/// Arguments: the allocator; a list of fewer than 2^32 - 3 tokens, each of which lies in its file, as `assemble` gives
/// them.
///
/// Errors: want of memory alone.
///
/// Source: this project's own, over the marks of cx_marks.
pub fn marks(alloc: Global, list: &Assembled) -> Result<Vec<Mark>, NoMemory>
    requires within { All (IsWithin list.now.files) list.now.placed }
    requires few { length list.now.placed < 2 ^ 32 - 3 }
    ensures { IfOk result (λ told. told.items ≡ marks_of list.now) }
{
    let tokens = spelled(alloc, list)?;
    match marks_of(alloc, tokens.as_slice()) {
        Ok(told) => Ok(told),
        Err(_) => Err(NoMemory),
    }
}
