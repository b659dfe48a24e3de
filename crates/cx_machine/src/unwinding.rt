ghost use Rattle.std.specs.Prelude.{◌≡◌, ◌+◌, ◌≤◌, ◌<◌, ◌^◌, length, IfOk, IfErr, OnOk, Some, slice_get};
ghost use Rattle.cx_code.specs.declared.image.Image.{Image};
ghost use Rattle.cx_code.specs.Store.{Store};
ghost use Rattle.cx_frame.specs.Made.{IsMade, IsStop};
ghost use Rattle.cx_machine.specs.States.{state_of, IsCounted, Keeps};
ghost use Rattle.cx_code.specs.Unwind.{unwound, cleans, catches, tried, gone};
ghost use Rattle.cx_machine.specs.Loading.{IsLoaded};

use crate::calls::function_at;
use crate::loading::{Program, routine_at};
use crate::state::Machine;
use cx_code::{Ending, Event, Function, Image, Region, Verdict};
use cx_frame::{Acted, Exception, Stop};
use cx_unwind::find;

impl Machine {
    /// One move of an exception that is unwound: a region is tried, or the last frame is left.
    #[tactic(auto, unfolding(cx_code::specs::Unwind::unwound))]
    #[inline(always)]
    pub fn unwind(
        &mut self,
        image: &Image,
        program: &Program,
        exception: Exception,
        after: Option<u32>,
    ) -> Acted
        requires its_function { self.old.frame.function < length image.now.functions }
        requires loaded { IsLoaded image.now program.now }
        requires counted { IsCounted image.now self.old }
        ensures ok { (store : Store) → IfOk result (λ event. IsMade (unwound image.now (state_of self.old store) exception after) (state_of self.new store) event) }
        ensures err { (store : Store) → IfErr result (λ stop. IsStop stop (unwound image.now (state_of self.old store) exception after)) }
        ensures keeps { OnOk result (Keeps image.now self.old self.new) }
    {
        let function = function_at(image, self.frame.function);
        let routine = routine_at(image, program, self.frame.function);
        let Some(index) = find(&routine.regions, self.frame.place, after) else {
            return self.give_up(image, exception);
        };
        let region = region_at(function, index);
        self.try_region(exception, index, region)
    }

    /// A region is tried.
    #[inline(always)]
    fn try_region(&mut self, exception: Exception, index: u32, region: Region) -> Acted
        ensures ok { (store : Store) → IfOk result (λ event. IsMade (tried (state_of self.old store) exception index region) (state_of self.new store) event) }
        ensures err { (store : Store) → IfErr result (λ stop. IsStop stop (tried (state_of self.old store) exception index region)) }
        ensures keeps { (image : Image) → OnOk result (Keeps image self.old self.new) }
    {
        match region.kind {
            1 => self.clean(exception, region),
            2 if region.of == 0 || region.of - 1 == exception.of => {
                self.catch(exception, region, Event::Catch(exception.of))
            }
            2 => {
                self.unwinding = Some(exception);
                self.after = Some(index);
                Ok(None)
            }
            3 => self.catch(exception, region, Event::Verdict(Verdict::Threw)),
            _ => Err(Stop::Ended(Ending::Terminated)),
        }
    }

    /// The exception waits while the code at the target runs.
    #[inline(always)]
    fn clean(&mut self, exception: Exception, region: Region) -> Acted
        ensures ok { (store : Store) → IfOk result (λ event. IsMade (cleans (state_of self.old store) exception region) (state_of self.new store) event) }
        ensures err { (made : _) → IfErr result (λ stop. IsStop stop made) }
        ensures keeps { (image : Image) → OnOk result (Keeps image self.old self.new) }
    {
        self.frame.pending.push(exception)?;
        self.kept.note(exception)?;
        self.frame.operands.cut(region.depth);
        self.frame.place = region.target;
        self.unwinding = None;
        Ok(None)
    }

    /// The exception is held while the code at the target runs.
    #[inline(always)]
    fn catch(&mut self, exception: Exception, region: Region, event: Event) -> Acted
        ensures ok { (store : Store) → IfOk result (λ noted. IsMade (catches (state_of self.old store) exception region event) (state_of self.new store) noted) }
        ensures err { (made : _) → IfErr result (λ stop. IsStop stop made) }
        ensures keeps { (image : Image) → OnOk result (Keeps image self.old self.new) }
    {
        self.held.push(exception)?;
        self.kept.note(exception)?;
        self.frame.operands.cut(region.depth);
        self.frame.place = region.target;
        self.unwinding = None;
        Ok(Some(event))
    }

    /// No region is left in the last frame.
    #[inline(always)]
    fn give_up(&mut self, image: &Image, exception: Exception) -> Acted
        requires its_function { self.old.frame.function < length image.now.functions }
        requires counted { IsCounted image.now self.old }
        ensures ok { (store : Store) → IfOk result (λ event. IsMade (gone (state_of self.old store) exception self.old.below) (state_of self.new store) event) }
        ensures err { (store : Store) → IfErr result (λ stop. IsStop stop (gone (state_of self.old store) exception self.old.below)) }
        ensures keeps { OnOk result (Keeps image.now self.old self.new) }
    {
        if !self.uncover(image) {
            return Err(Stop::Ended(Ending::Terminated));
        }
        self.unwinding = Some(exception);
        self.after = None;
        Ok(None)
    }
}

fn region_at(function: &Function, index: u32) -> Region
    requires { index < length function.now.regions }
    ensures { slice_get function.now.regions index ≡ Some result }
{
    function.regions.items()[index as usize]
}
