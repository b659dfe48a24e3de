ghost use Rattle.std.specs.Prelude.{◌≡◌, ◌↔◌, ℕ, ◌+◌, ◌<◌, ◌^◌, length, None, Some, slice_get, IsTrue, IsFalse, IfOk};
ghost use Rattle.cx_code.specs.Rules.{HasType};
ghost use Rattle.cx_reach.specs.Broken.{RegionBreaks};
ghost use Rattle.cx_reach.specs.Comes.{AreArrivals};
ghost use Rattle.cx_rules.specs.First.{IsFirstOf, IsFirstInCode, IsFirstAtRegion, IsFirstInRegions};
ghost use Rattle.cx_rules.specs.Spans.{AreSpans, IsCrossed, EnclosesFirst, EnclosesEarlier, IsMisplaced};
ghost use Rattle.cx_unwind.specs.Crossing.{IsCrossing};

use crate::spans::{Spans, single_spans};
use cx_code::{Function, Image, Region};
use cx_outside::NoMemory;
use cx_reach::{Arrival, Rule};
use cx_unwind::{BuildFault, build};
use std::alloc::Global;

/// The kind of a region that catches exceptions of a type.
const CATCH: u8 = 2;

/// The first region of a function that breaks a rule, with the first rule that it breaks. Each span
/// of the code is passed over once more by a region around it, and is then part of that region's
/// span. (This project's own.)
///
/// - `alloc` gives the memory for the spans and for the table that finds what crosses.
/// - `image` has the types that regions catch.
/// - `function` is the function, one of the image or not. No instruction of it breaks a rule.
/// - `arrivals` tell how each place is reached, as [`cx_reach::arrivals`] gives them.
///
/// `None` comes exactly where no region breaks a rule, and `NoMemory` for want of memory alone.
pub fn region_rule(
    alloc: Global,
    image: &Image,
    function: &Function,
    arrivals: &[Arrival],
) -> Result<Option<(usize, Rule)>, NoMemory>
    requires arrivals { AreArrivals image.now function.now arrivals.now }
    requires code { IsFirstInCode image.now function.now None }
    requires few { length function.now.regions < 2 ^ 32 }
    ensures { IfOk result (IsFirstInRegions image.now function.now) }
{
    let crossing = first_crossing(alloc, function.regions.items())?;
    let mut spans = single_spans(alloc, function, arrivals)?;
    for index in 0..function.regions.items().len() {
        let crosses = is_at(crossing, index);
        if let Some(rule) = next_rule(image, function, &mut spans, index, crosses) {
            return Ok(Some((index, rule)));
        }
    }
    Ok(None)
}

/// The first region that crosses an earlier one.
fn first_crossing(alloc: Global, regions: &[Region]) -> Result<Option<u32>, NoMemory>
    requires { length regions.now < 2 ^ 32 }
    ensures { IfOk result (IsCrossed regions.now) }
{
    match build(alloc, regions) {
        Ok(_) => Ok(None),
        Err(BuildFault::Crossing(index)) => Ok(Some(index)),
        Err(BuildFault::OutOfMemory) => Err(NoMemory),
    }
}

/// An index is the one that was found.
fn is_at(found: Option<u32>, index: usize) -> bool
    ensures { IsTrue result ↔ (found ≡ Some index) }
{
    match found {
        Some(at) => at as usize == index,
        None => false,
    }
}

/// The first rule that the next region breaks. Where it breaks none, it becomes a span.
fn next_rule(
    image: &Image,
    function: &Function,
    spans: &mut Spans,
    index: usize,
    crosses: bool,
) -> Option<Rule>
    requires index { index < length function.now.regions }
    requires spans { AreSpans image.now function.now index spans.old.ends.items spans.old.least.items }
    requires crossing { IsTrue crosses → IsCrossing function.now.regions index }
    requires around { IsFalse crosses → EnclosesEarlier function.now.regions index }
    ensures rule { IsFirstAtRegion image.now function.now index result }
    ensures around { result ≡ None → IsFalse crosses }
    ensures spans { result ≡ None → AreSpans image.now function.now (index + 1) spans.new.ends.items spans.new.least.items }
{
    let region = function.regions.items()[index];
    rule_of(image, function, spans, index, region, crosses)
}

/// The first rule that a region of an index breaks. Where it breaks none, it becomes a span.
fn rule_of(
    image: &Image,
    function: &Function,
    spans: &mut Spans,
    index: usize,
    region: Region,
    crosses: bool,
) -> Option<Rule>
    requires region { slice_get function.now.regions index ≡ Some region }
    requires spans { AreSpans image.now function.now index spans.old.ends.items spans.old.least.items }
    requires crossing { IsTrue crosses → IsCrossing function.now.regions index }
    requires around { IsFalse crosses → EnclosesFirst function.now.regions index region }
    ensures rule { IsFirstOf (RegionBreaks image.now function.now index region) result }
    ensures around { result ≡ None → IsFalse crosses }
    ensures spans { result ≡ None → AreSpans image.now function.now (index + 1) spans.new.ends.items spans.new.least.items }
{
    if !has_type(image, region) {
        return Some(Rule::V1);
    }
    if region.target as usize >= function.code.items().len() {
        return Some(Rule::V2);
    }
    if crosses || is_misplaced(function, region) {
        return Some(Rule::V4);
    }
    let least = spans.least_over(region);
    if least < region.depth {
        return Some(Rule::V4);
    }
    spans.mark(region, least);
    None
}

/// A Catch names a type of the image, or none.
fn has_type(image: &Image, region: Region) -> bool
    ensures { IsTrue result ↔ HasType image.now region }
{
    region.kind != CATCH || region.of as usize <= image.types.items().len()
}

/// The region covers no place, or places behind the code, or its own target.
fn is_misplaced(function: &Function, region: Region) -> bool
    ensures { IsTrue result ↔ IsMisplaced function.now region }
{
    let covers_target = region.start <= region.target && region.target < region.end;
    region.end <= region.start || function.code.items().len() < region.end as usize || covers_target
}
