ghost use Rattle.std.specs.Prelude.{◌≡◌, ◌<◌, ◌^◌, length, Some, replicate, IfOk, OnOk, false, []};
ghost use Rattle.cx_code.specs.declared.image.Image.{Image as Whole};
ghost use Rattle.cx_reach.specs.Comes.{AreArrivals};
ghost use Rattle.cx_reach.specs.Says.{AreSmall, HasJoined, HasTold, HasLooked, IsSearched};

use crate::effect::effect_at;
use crate::{Arrival, Depths};
use cx_code::{Function, Image, Region};
use cx_outside::NoMemory;
use std::alloc::Global;

/// How each place of a function's code is reached, by the place, from the start and from the targets
/// of its regions. The indices of its instructions are those of the image's tables, whether the
/// function is one of the image or not. An instruction whose numbers or index are out of range leads
/// nowhere, and a place outside the code isn't followed. In time linear in the code and the regions.
/// `NoMemory` where memory for the arrivals, or for the places that are to be looked at, is lacking.
/// (This project's own.)
pub fn arrivals(alloc: Global, image: &Image, function: &Function) -> Result<Vec<Arrival>, NoMemory>
    ensures { IfOk result (λ arrivals. AreArrivals image.now function.now arrivals.items) }
{
    let mut search = begun(alloc, function)?;
    while let Some(place) = search.pending.pop() {
        search.look_at(image, function, place)?;
    }
    Ok(search.arrivals)
}

/// What is known so far of the places of a function.
#[derive(Debug, Drop)]
struct Search {
    /// How each place is reached, as far as is known.
    arrivals: Vec<Arrival>,
    /// The places whose arrival grew since they were looked at.
    pending: Vec<usize>,
}

/// A search that knows of the start and of the regions' targets.
fn begun(alloc: Global, function: &Function) -> Result<Search, NoMemory>
    ensures { IfOk result (λ search. (image : Whole) → IsSearched image function.now search.arrivals.items search.pending.items) }
{
    let mut search = blank(alloc, function.code.items().len())?;
    search.join(Some(0), Arrival::start())?;
    search.join_targets(function.regions.items())?;
    Ok(search)
}

/// A search that knows of nothing.
fn blank(alloc: Global, length: usize) -> Result<Search, NoMemory>
    ensures arrivals { IfOk result (λ search. search.arrivals.items ≡ replicate length (record { depths = Depths.None; plain = false; cleanup = false })) }
    ensures pending { IfOk result (λ search. search.pending.items ≡ []) }
{
    Ok(Search {
        arrivals: vec![in alloc; Arrival::none(); length]?,
        pending: Vec::new(alloc),
    })
}

impl Search {
    /// Joins an arrival to that of a place of the code, which is looked at again if it grew.
    fn grow(&mut self, place: usize, arrival: Arrival) -> Result<(), NoMemory>
        requires { place < length self.old.arrivals.items }
        ensures { OnOk result (HasJoined (Some place) arrival self.old.arrivals.items self.new.arrivals.items self.old.pending.items self.new.pending.items) }
    {
        let known = self.arrivals[place];
        let joined = known.joined(arrival);
        if joined != known {
            self.arrivals[place] = joined;
            self.pending.push(place)?;
        }
        Ok(())
    }

    /// Joins an arrival to that of a place, where there is one and the code has it.
    fn join(&mut self, place: Option<usize>, arrival: Arrival) -> Result<(), NoMemory>
        ensures { OnOk result (HasJoined place arrival self.old.arrivals.items self.new.arrivals.items self.old.pending.items self.new.pending.items) }
    {
        match place {
            Some(place) if place < self.arrivals.len() => self.grow(place, arrival),
            _ => Ok(()),
        }
    }

    /// Tells of the targets of regions.
    fn join_targets(&mut self, regions: &[Region]) -> Result<(), NoMemory>
        ensures { OnOk result (HasTold regions.now (length regions.now) self.old.arrivals.items self.new.arrivals.items self.old.pending.items self.new.pending.items) }
    {
        for region in regions {
            self.join(Some(region.target as usize), Arrival::target_of(region))?;
        }
        Ok(())
    }

    /// Hands on what is known of a place to those that may come next.
    fn look_at(&mut self, image: &Image, function: &Function, place: usize) -> Result<(), NoMemory>
        requires place { place < length self.old.arrivals.items }
        requires code { length self.old.arrivals.items ≡ length function.now.code }
        requires small { AreSmall (2 ^ 100) self.old.arrivals.items }
        ensures { OnOk result (HasLooked image.now function.now place self.old.arrivals.items self.new.arrivals.items self.old.pending.items self.new.pending.items) }
    {
        let Some(effect) = effect_at(image, function, place) else {
            return Ok(());
        };
        let arrival = self.arrivals[place].behind(effect.taken, effect.given);
        self.join(effect.nexts.behind, arrival)?;
        self.join(effect.nexts.target, arrival)?;
        Ok(())
    }
}
