ghost use Rattle.std.specs.Prelude.{◌≡◌, ℕ, ◌+◌, ◌<◌, ◌≤◌, length, min, IfOk, slice_get, slice_index, slice_set, Some, pos, ◌≤ℤ◌};
ghost use Rattle.cx_code.specs.declared.image.Image.{Image as Whole};
ghost use Rattle.cx_code.specs.declared.image.Function.{Function as Its};
ghost use Rattle.cx_code.specs.Reached.{operation_at};
ghost use Rattle.cx_reach.specs.declared.arriving.Arrival.{Arrival as Reached};
ghost use Rattle.cx_rules.specs.Spans.{AreSpans, EnclosesFirst, IsLeast, IsSpare, IsEnough, IsEnoughEach, AreSingle};

use cx_code::{Function, Operation, Region};
use cx_outside::NoMemory;
use cx_reach::effect::taken;
use cx_reach::{Arrival, Depths};
use std::alloc::Global;

/// For each place of a code a span that begins there, with the least number of operands that a
/// region over it can keep.
#[derive(Debug, Drop)]
pub struct Spans {
    /// Where the span ends.
    pub ends: Vec<usize>,
    /// The least of its places' operands, without those that their instructions take.
    pub least: Vec<u32>,
}

/// The spans of the places alone.
pub fn single_spans(
    alloc: Global,
    function: &Function,
    arrivals: &[Arrival],
) -> Result<Spans, NoMemory>
    requires each { length arrivals.now ≡ length function.now.code }
    requires enough { IsEnoughEach function.now arrivals.now }
    ensures single { IfOk result (λ spans. AreSingle function.now arrivals.now spans.ends.items spans.least.items) }
    ensures each { IfOk result (λ spans. length spans.ends.items ≡ length function.now.code) }
{
    let mut ends = Vec::new(alloc);
    let mut least = Vec::new(alloc);
    for place in 0..function.code.items().len() {
        ends.push(place + 1)?;
        least.push(spare_at(function, arrivals, place))?;
    }
    Ok(Spans { ends, least })
}

/// The operands at a place behind those that its instruction takes.
fn spare_at(function: &Function, arrivals: &[Arrival], place: usize) -> u32
    requires each { length arrivals.now ≡ length function.now.code }
    requires place { place < length function.now.code }
    requires enough { IsEnoughEach function.now arrivals.now }
    ensures { (arrival : Reached) → slice_get arrivals.now place ≡ Some arrival → IsSpare function.now (operation_at function.now.code place) arrival.depths result }
{
    let operation = function.code.items()[place].operation();
    spare(function, operation, arrivals[place].depths)
}

/// The operands behind those that an instruction takes; any number where none comes to it.
fn spare(function: &Function, operation: Option<Operation>, depths: Depths) -> u32
    requires { IsEnough function.now operation depths }
    ensures { IsSpare function.now operation depths result }
{
    let Some(operation) = operation else {
        return u32::MAX;
    };
    let Depths::One(depth) = depths else {
        return u32::MAX;
    };
    without(depth, taken(function, operation))
}

/// What is left of a depth.
fn without(depth: i128, taken: u32) -> u32
    requires enough { pos taken ≤ℤ depth }
    requires shallow { depth ≤ℤ pos 4096 }
    ensures { pos (result + taken) ≡ depth }
{
    (depth - i128::from(taken)) as u32
}

impl Spans {
    /// The least over a region's places. It goes from span to span.
    pub fn least_over(&self, region: Region) -> u32
        requires within { region.end ≤ length self.now.ends.items }
        requires same { length self.now.least.items ≡ length self.now.ends.items }
        requires ahead { (place : ℕ) → place < length self.now.ends.items → place < slice_index self.now.ends.items place }
        ensures { (image : Whole) (function : Its) (count : ℕ) → AreSpans image function count self.now.ends.items self.now.least.items → EnclosesFirst function.regions count region
            → region.start < region.end → IsLeast image function region.start region.end result }
    {
        let mut least = u32::MAX;
        let mut place = region.start as usize;
        'spans: while place < region.end as usize {
            least = least.min(self.least[place]);
            place = self.ends[place];
        }
        least
    }

    /// Makes a region a span.
    pub fn mark(&mut self, region: Region, least: u32)
        requires some { region.start < region.end }
        requires within { region.end ≤ length self.old.ends.items }
        requires same { length self.old.least.items ≡ length self.old.ends.items }
        ensures ends { self.new.ends.items ≡ slice_set self.old.ends.items region.start region.end }
        ensures least { self.new.least.items ≡ slice_set self.old.least.items region.start least }
    {
        self.ends[region.start as usize] = region.end as usize;
        self.least[region.start as usize] = least;
    }
}
