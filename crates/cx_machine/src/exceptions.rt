ghost use Rattle.std.specs.Prelude.{◌≡◌, ◌+◌, ◌≤◌, ◌<◌, ◌^◌, length, IfOk, IfErr, OnOk, ◌-◌, ◌≢◌, [], None, Some, IsSome, IfSome, slice_get, ◌∷◌};
ghost use Rattle.cx_code.specs.declared.image.Image.{Image};
ghost use Rattle.cx_code.specs.declared.operation.Operation.TheVariants as does;
ghost use Rattle.cx_code.specs.Store.{Store};
ghost use Rattle.cx_code.specs.Act.{act, is_kept};
ghost use Rattle.cx_frame.specs.Made.{IsMade, IsStop};
ghost use Rattle.cx_machine.specs.States.{state_of, IsCounted, IsTold, Keeps};
ghost use Rattle.std.specs.List.{All};
ghost use Rattle.cx_frame.specs.Frames.{frame_in};
ghost use Rattle.cx_code.specs.declared.image.Function.{Function};
ghost use Rattle.cx_code.specs.declared.image.TypeEntry.{TypeEntry as Entry};
ghost use Rattle.cx_machine.specs.Due.{HasDroppers};
ghost use Rattle.cx_machine.specs.Kept.{counts_in, counts_due};

use crate::state::Machine;
use cx_code::{Ending, Event, Image, Value};
use cx_frame::{Acted, Exception, Stop, take_object};
use std::alloc::Global;

// Codes 49 to 53.
impl Machine {
    /// Takes the address of an exception object, and begins to unwind it.
    #[inline(always)]
    pub fn throw(&mut self, of: u32) -> Acted
        requires some { 1 ≤ length self.old.frame.operands }
        requires few { self.old.thrown < 2 ^ 63 }
        ensures ok { (image : Image) (store : Store) → IfOk result (λ event. IsMade (act image (does.Throw of) (state_of self.old store)) (state_of self.new store) event) }
        ensures err { (image : Image) (store : Store) → IfErr result (λ stop. IsStop stop (act image (does.Throw of) (state_of self.old store))) }
        ensures keeps { (image : Image) → OnOk result (Keeps image self.old self.new) }
    {
        let Some((object, leaf)) = take_object(&mut self.frame.operands) else {
            return Err(Stop::MIXED);
        };
        let exception = Exception {
            number: self.thrown,
            of,
            object,
            leaf,
        };
        self.thrown += 1;
        self.unwinding = Some(exception);
        self.after = None;
        Ok(Some(Event::Throw(of)))
    }

    /// The innermost exception that is held is thrown again.
    #[inline(always)]
    pub fn rethrow(&mut self) -> Acted
        ensures ok { (image : Image) (store : Store) → IfOk result (λ event. IsMade (act image does.Rethrow (state_of self.old store)) (state_of self.new store) event) }
        ensures err { (image : Image) (store : Store) → IfErr result (λ stop. IsStop stop (act image does.Rethrow (state_of self.old store))) }
        ensures keeps { (image : Image) → OnOk result (Keeps image self.old self.new) }
    {
        let Some(exception) = self.held.last() else {
            return Err(Stop::Ended(Ending::Terminated));
        };
        self.unwinding = Some(exception);
        self.after = None;
        Ok(Some(Event::Throw(exception.of)))
    }

    /// Gives the address of the innermost exception that is held.
    #[inline(always)]
    pub fn give_held(&mut self) -> Acted
        requires room { self.old.frame.place + 1 < 2 ^ 32 }
        ensures ok { (image : Image) (store : Store) → IfOk result (λ event. IsMade (act image does.Held (state_of self.old store)) (state_of self.new store) event) }
        ensures err { (image : Image) (store : Store) → IfErr result (λ stop. IsStop stop (act image does.Held (state_of self.old store))) }
        ensures keeps { (image : Image) → OnOk result (Keeps image self.old self.new) }
    {
        let Some(exception) = self.held.last() else {
            return Err(Stop::MIXED);
        };
        self.frame
            .give(Value::Address(exception.object, exception.leaf))
    }

    /// The last pending exception is unwound again.
    #[inline(always)]
    pub fn resume(&mut self) -> Acted
        requires pending { self.old.frame.pending ≢ [] }
        ensures ok { (image : Image) (store : Store) → IfOk result (λ event. IsMade (act image does.Resume (state_of self.old store)) (state_of self.new store) event) }
        ensures err { (image : Image) (store : Store) → IfErr result (λ stop. IsStop stop (act image does.Resume (state_of self.old store))) }
        ensures keeps { (image : Image) → OnOk result (Keeps image self.old self.new) }
    {
        let exception = self.frame.pending.take();
        self.kept.drop_one(exception);
        self.unwinding = Some(exception);
        self.after = None;
        Ok(None)
    }

    /// Gives up the innermost exception that is held. Where it is held no more, and isn't pending, its type's dropper is called.
    #[inline(always)]
    pub fn release(&mut self, alloc: Global, image: &Image) -> Acted
        requires room { self.old.frame.place + 1 < 2 ^ 32 }
        requires counted { IsCounted image.now self.old }
        requires told { IsTold self.old }
        requires droppers { All (HasDroppers image.now) self.old.held }
        ensures ok { (store : Store) → IfOk result (λ event. IsMade (act image.now does.Release (state_of self.old store)) (state_of self.new store) event) }
        ensures err { (store : Store) → IfErr result (λ stop. IsStop stop (act image.now does.Release (state_of self.old store))) }
        ensures keeps { OnOk result (Keeps image.now self.old self.new) }
    {
        let Some(exception) = self.held.pop() else {
            return Err(Stop::MIXED);
        };
        if self.let_go(exception) {
            self.frame.place += 1;
            return Ok(None);
        }
        let dropper = dropper_of(image, exception);
        let address = Value::Address(exception.object, exception.leaf);
        self.enter_with(alloc, image, dropper, address, None)
    }

    /// An exception is held once less. The answer is whether it is still held, or pending.
    fn let_go(&mut self, exception: Exception) -> bool
        requires { counts_in self.old.kept ≡ counts_due (exception ∷ self.old.held) self.old.frame.pending self.old.below }
        ensures kept { result ≡ is_kept exception self.old.held (frame_in self.old.frame ∷ self.old.below) }
        ensures told { IsTold self.new }
        ensures others { self.new ≡ record self.old { kept = self.new.kept } }
    {
        self.kept.drop_one(exception)
    }
}

/// The function that ends an exception's object.
fn dropper_of(image: &Image, exception: Exception) -> u32
    requires { HasDroppers image.now exception }
    ensures dropper { IfSome (slice_get image.now.types exception.of) (λ (entry : Entry). entry.dropper ≡ result + 1) }
    ensures some { IsSome (slice_get image.now.types exception.of) }
    ensures within { result < length image.now.functions }
    ensures slots { IfSome (slice_get image.now.functions result) (λ (dropper : Function). 1 ≤ dropper.slots) }
{
    image.types.items()[exception.of as usize].dropper - 1
}
