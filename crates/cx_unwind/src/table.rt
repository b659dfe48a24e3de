ghost use Rattle.std.specs.Prelude.{◌≡◌, ℕ, ◌+◌, ◌<◌, ◌^◌, length, slice_get, None, Some, Err, IfOk, IfErr, IsOk, IsNone, IsSome, IfSome, IsTrue, IsFalse};
ghost use Rattle.std.specs.BTreeMap.{get};
ghost use Rattle.std.specs.Ordering.{nat_cmp};
ghost use Rattle.cx_code.specs.Rules.{IsNested};
ghost use Rattle.cx_code.specs.Unwind.{next_region};
ghost use Rattle.cx_unwind.specs.Crossing.{IsCrossing, IsFirstCrossing};
ghost use Rattle.cx_unwind.specs.Painting.{covers_at, IsPainted, IsLaidOut};

use crate::BuildFault;
use crate::paint::{Changes, has_change_between, innermost_at, paint};
use cx_code::Region;
use cx_outside::NoMemory;
use std::alloc::Global;
use std::marker::Model;

/// The regions of a function, so that those that cover a place are found fast. Contracts see the
/// list of the regions. (This project's own.)
#[derive(Debug, Drop)]
pub struct Table {
    regions: Vec<Region>,
    /// For each region the next one that covers its places.
    parents: Vec<Option<u32>>,
    changes: Changes,
}

impl Model for Table {
    ghost use Rattle.std.specs.Prelude.{List};
    ghost use Rattle.cx_code.specs.declared.code.Region.{Region as Entry};
    ghost use Rattle.std.specs.BTreeMap.{get};
    ghost use Rattle.std.specs.Ordering.{nat_cmp};
    ghost use Rattle.cx_unwind.specs.Painting.{IsPainted};

    ghost Value = { List Entry };

    ghost view = { λ table. table.regions.items };

    ghost invariant = { λ table. IsPainted table.regions.items 0 (get nat_cmp table.changes) table.parents.items };
}

/// What is known of some regions, which are nested.
#[derive(Debug, Drop)]
struct Painting {
    parents: Vec<Option<u32>>,
    changes: Changes,
}

/// Makes the table of some regions. (This project's own.)
///
/// - `alloc` gives the memory of the table.
/// - `regions` are the regions of one function in their order. A region that covers no place is
///   allowed, and never found.
///
/// `OutOfMemory` comes for want of memory alone. `Crossing(index)` comes exactly where a later
/// region overlaps an earlier one without enclosing it, and `index` is the first such region.
pub fn build(alloc: Global, regions: &[Region]) -> Result<Table, BuildFault>
    requires { length regions.now < 2 ^ 32 }
    ensures table { IfOk result (λ table. table ≡ regions.now) }
    ensures nested { IsOk result → IsNested regions.now }
    ensures crossing { (index : ℕ) → result ≡ Err (BuildFault.Crossing index) → IsFirstCrossing regions.now index }
{
    match paint_all(alloc, regions)? {
        Some(painting) => table_of(alloc, regions, painting),
        None => Err(BuildFault::Crossing(first_crossing(alloc, regions)?)),
    }
}

/// The next region that covers a place. (This project's own.)
///
/// - `table` has the regions.
/// - `place` is the place in the code.
/// - `after` is the region that was tried last. With `None` the innermost region is found.
///
/// The result is the least index greater than `after` whose region covers `place`: its start is at
/// most `place`, and its end is greater. `None` comes exactly where there is none.
pub fn find(table: &Table, place: u32, after: Option<u32>) -> Option<u32>
    ensures { result ≡ next_region table.now place after }
{
    let Some(after) = after else {
        return innermost_at(&table.changes, place);
    };
    if covers(table, after, place) {
        table.parents[after as usize]
    } else {
        climb(table, place, after)
    }
}

/// The region of an index covers a place.
fn covers(table: &Table, index: u32, place: u32) -> bool
    ensures { result ≡ covers_at (slice_get table.now index) place }
{
    match table.regions.get(index as usize) {
        Some(region) => region.start <= place && place < region.end,
        None => false,
    }
}

/// The next region that covers a place which the last one that was tried doesn't cover: climbs from
/// the innermost one outwards.
fn climb(table: &Table, place: u32, after: u32) -> Option<u32>
    ensures { result ≡ next_region table.now place (Some after) }
{
    let mut found = innermost_at(&table.changes, place);
    'outwards: while let Some(index) = found {
        if index > after {
            return found;
        }
        found = table.parents[index as usize];
    }
    None
}

fn table_of(alloc: Global, regions: &[Region], painting: Painting) -> Result<Table, BuildFault>
    requires { IsPainted regions.now 0 (get nat_cmp painting.changes) painting.parents.items }
    ensures ok { IfOk result (λ table. table ≡ regions.now) }
    ensures err { IfErr result (λ fault. fault ≡ BuildFault.OutOfMemory) }
{
    let regions = copied(alloc, regions)?;
    Ok(Table {
        regions,
        parents: painting.parents,
        changes: painting.changes,
    })
}

fn copied(alloc: Global, regions: &[Region]) -> Result<Vec<Region>, NoMemory>
    ensures { IfOk result (λ copy. copy.items ≡ regions.now) }
{
    Ok(Vec::from_slice(alloc, regions)?)
}

/// Paints the regions, the last one first. There is no painting where one crosses another.
fn paint_all(alloc: Global, regions: &[Region]) -> Result<Option<Painting>, NoMemory>
    requires { length regions.now < 2 ^ 32 }
    ensures painted { IfOk result (λ made. IfSome made (λ p. IsPainted regions.now 0 (get nat_cmp p.changes) p.parents.items)) }
    ensures nested { IfOk result (λ made. IsSome made → IsNested regions.now) }
    ensures crossing { IfOk result (λ made. IsNone made → (later : ℕ) × IsCrossing regions.now later) }
{
    let mut parents = vec![in alloc; None; regions.len()]?;
    let mut changes = Changes::new(alloc);
    let mut from = regions.len();
    'regions: while from > 0 {
        from -= 1;
        if !paint_next(&mut changes, &mut parents, regions, from)? {
            return Ok(None);
        }
    }
    Ok(Some(Painting { parents, changes }))
}

/// Paints one region over those behind it. The answer is false where it crosses one of them.
fn paint_next(
    changes: &mut Changes,
    parents: &mut Vec<Option<u32>>,
    regions: &[Region],
    from: usize,
) -> Result<bool, NoMemory>
    requires within { from < length regions.now }
    requires few { length regions.now < 2 ^ 32 }
    requires painted { IsPainted regions.now (from + 1) (get nat_cmp changes.old) parents.old.items }
    requires laid { IsLaidOut regions.now (from + 1) (get nat_cmp changes.old) }
    ensures painted { IfOk result (λ nested. IsTrue nested → IsPainted regions.now from (get nat_cmp changes.new) parents.new.items) }
    ensures laid { IfOk result (λ nested. IsTrue nested → IsLaidOut regions.now from (get nat_cmp changes.new)) }
    ensures crossing { IfOk result (λ nested. IsFalse nested → (later : ℕ) × IsCrossing regions.now later) }
{
    let region = regions[from];
    if region.end <= region.start {
        return Ok(true);
    }
    if has_change_between(changes, region.start, region.end) {
        return Ok(false);
    }
    let outer = paint(changes, region, from as u32)?;
    parents[from] = outer;
    Ok(true)
}

/// The first region that crosses an earlier one, by halving the distance between a front that is
/// nested and one that isn't.
fn first_crossing(alloc: Global, regions: &[Region]) -> Result<u32, NoMemory>
    requires few { length regions.now < 2 ^ 32 }
    requires crossing { (later : ℕ) × IsCrossing regions.now later }
    ensures { IfOk result (IsFirstCrossing regions.now) }
{
    let mut nested = 0;
    let mut crossing = regions.len();
    'halves: while nested + 1 < crossing {
        let middle = nested + (crossing - nested) / 2;
        if paint_all(alloc, &regions[..middle])?.is_some() {
            nested = middle;
        } else {
            crossing = middle;
        }
    }
    Ok(nested as u32)
}
