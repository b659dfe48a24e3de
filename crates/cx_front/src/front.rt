ghost use Rattle.std.specs.Prelude.{◌<◌, ◌-◌, ◌^◌, length, IfOk, MatchOption};
ghost use Rattle.std.specs.List.{All};
ghost use Rattle.cx_includes.specs.Assembled.{IsWithin};
ghost use Rattle.cx_core.specs.declared.unit.CoreUnit.{CoreUnit as Unit};
ghost use Rattle.cx_front.specs.Front.{IsUnitOf};

use crate::unit::unit_in;
use cx_core::CoreUnit;
use cx_faults::marks;
use cx_includes::Assembled;
use cx_outside::NoMemory;
use cx_parser::ParseFault;
use cx_tree::parse;
use std::alloc::Global;

/// The unit of the typed program of an assembled list, or nothing where it is none that is built.
///
/// Arguments: the allocator; a list of fewer than 2^32 - 3 tokens, each of which lies in its file, as `assemble` gives
/// them. Calls go as deep as the list's tree, which is at most as deep as the list has tokens; a level takes little
/// stack.
///
/// Result: the unit that is that of the list's only tree, exactly where there is one.
///
/// Errors: want of memory alone.
///
/// Source: [expr], [stmt], [basic.scope] and [basic.start.main], as far as they are built; the trees follow [gram], and
/// the names of assertions and the slots of variables are this project's own.
pub fn unit_of(alloc: Global, list: &Assembled) -> Result<Option<CoreUnit>, NoMemory>
    requires within { All (IsWithin list.now.files) list.now.placed }
    requires few { length list.now.placed < 2 ^ 32 - 3 }
    ensures { IfOk result (λ told. MatchOption told ((unit : Unit) → ¬ (IsUnitOf list.now unit)) (IsUnitOf list.now)) }
{
    let marks = marks(alloc, list)?;
    match parse(alloc, marks.as_slice()) {
        Ok(tree) => unit_in(alloc, list, &tree),
        Err(ParseFault::SyntaxAt(_)) => Ok(None),
        Err(ParseFault::OutOfMemory) => Err(NoMemory),
    }
}
