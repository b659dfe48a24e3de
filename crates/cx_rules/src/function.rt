ghost use Rattle.std.specs.Prelude.{◌≡◌, ◌<◌, ◌^◌, length, Some, slice_get, IfOk};
ghost use Rattle.cx_rules.specs.Parts.{IsOf, IsFirstAmong, IsKnown};

use crate::{code_rule, region_rule};
use cx_code::{Function, Image};
use cx_outside::NoMemory;
use cx_reach::{Item, Rule, arrivals};
use std::alloc::Global;

/// The first item of a function at which a rule is broken, with the first rule that is: of its
/// instructions, the count of them and its regions. (This project's own.)
///
/// - `alloc` gives the memory that it takes.
/// - `image` is the image, and `function` its function of index `index`.
///
/// `None` comes exactly where no rule is broken at an item of the function, and `NoMemory` for want
/// of memory alone.
pub fn function_rule(
    alloc: Global,
    image: &Image,
    function: &Function,
    index: usize,
) -> Result<Option<(Item, Rule)>, NoMemory>
    requires function { slice_get image.now.functions index ≡ Some function.now }
    requires few { length function.now.regions < 2 ^ 32 }
    ensures first { IfOk result (IsFirstAmong image.now (IsOf index)) }
    ensures known { IfOk result (λ _. IsKnown image.now function.now) }
{
    let arrivals = arrivals(alloc, image, function)?;
    if let Some((place, rule)) = code_rule(image, function, arrivals.as_slice()) {
        return Ok(Some((Item::Instruction(index, place), rule)));
    }
    if function.code.items().is_empty() {
        return Ok(Some((Item::Count(index), Rule::V6)));
    }
    match region_rule(alloc, image, function, arrivals.as_slice())? {
        Some((region, rule)) => Ok(Some((Item::Region(index, region), rule))),
        None => Ok(None),
    }
}
