ghost use Rattle.std.specs.Prelude.{◌≡◌, ℕ, ◌+◌, ◌<◌, ◌^◌, length, Some, None, IsNone, IsSome, IfOk, IfSome, OnOk, MatchOption};
ghost use Rattle.std.specs.Bool.{OnTrue, OnFalse};
ghost use Rattle.std.specs.BTreeMap.{get};
ghost use Rattle.std.specs.Ordering.{nat_cmp};
ghost use Rattle.cx_unwind.specs.Crossing.{IsCrossing};
ghost use Rattle.cx_unwind.specs.Painting.{value_at, painted, IsPainted, IsLaidOut};

use cx_code::Region;
use cx_outside::NoMemory;
use std::alloc::Global;
use std::collections::BTreeMap;
use std::ops::Bound;

/// The places where the innermost region changes, each with that region from there on.
pub type Changes = BTreeMap<u32, Option<u32>>;

/// The innermost region at a place.
pub fn innermost_at(changes: &Changes, place: u32) -> Option<u32>
    ensures { result ≡ value_at (get nat_cmp changes.now) place }
{
    match changes.range(..=place).next_back() {
        Some((_, innermost)) => *innermost,
        None => None,
    }
}

/// Something changes between two places.
pub fn has_change_between(changes: &Changes, start: u32, end: u32) -> bool
    requires { start < end }
    ensures change { OnTrue result ((place : ℕ) × (start < place) × (place < end) × IsSome (get nat_cmp changes.now place)) }
    ensures none { OnFalse result ((place : ℕ) → start < place → place < end → get nat_cmp changes.now place ≡ None) }
{
    changes
        .range((Bound::Excluded(start), Bound::Excluded(end)))
        .next()
        .is_some()
}

/// Paints a region over those that enclose it. The answer is the innermost of these.
pub fn paint(changes: &mut Changes, region: Region, index: u32) -> Result<Option<u32>, NoMemory>
    requires some { region.start < region.end }
    ensures outer { IfOk result (λ outer. outer ≡ value_at (get nat_cmp changes.old) region.start) }
    ensures changes { OnOk result ((place : ℕ) → get nat_cmp changes.new place ≡ painted (get nat_cmp changes.old) region index place) }
{
    let outer = innermost_at(changes, region.start);
    if !changes.contains_key(&region.end) {
        changes.insert(region.end, outer)?;
    }
    changes.insert(region.start, Some(index))?;
    Ok(outer)
}
