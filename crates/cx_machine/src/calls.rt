ghost use Rattle.std.specs.Prelude.{◌≡◌, ◌+◌, ◌≤◌, ◌<◌, ◌^◌, length, IfOk, IfErr, OnOk, take, drop, reverse, IsSome, IfSome, slice_get, ◌∷◌, [], None, Some, true};
ghost use Rattle.cx_code.specs.declared.image.Image.{Image};
ghost use Rattle.cx_code.specs.declared.operation.Operation.TheVariants as does;
ghost use Rattle.cx_code.specs.Store.{Store};
ghost use Rattle.cx_code.specs.Act.{act, entered, left, returned, is_too_deep, counts};
ghost use Rattle.cx_frame.specs.Made.{IsMade, IsStop};
ghost use Rattle.cx_machine.specs.States.{state_of, IsCounted, IsTold, Keeps};
ghost use Rattle.std.specs.Bool.{OnTrue, OnFalse};
ghost use Rattle.cx_code.specs.Act.{Ends};
ghost use Rattle.cx_code.specs.Reached.{result_count};
ghost use Rattle.cx_code.specs.declared.image.Function.{Function as Callee};
ghost use Rattle.cx_code.specs.State.{Frame as Waiting};
ghost use Rattle.cx_frame.specs.Frames.{frame_in};
ghost use Rattle.cx_frame.specs.Made.{IsOwn};

use crate::state::Machine;
use cx_arithmetic::int_value;
use cx_code::{Ending, Event, Function, Image, Kind, Value};
use cx_frame::{Acted, Exceptions, Frame, Operands, Stop};
use std::alloc::Global;
use std::mem;

/// How many frames may count for the depth.
const DEPTH: u32 = 4096;

// Codes 38 and 39, and the calls that the machine makes by itself.
impl Machine {
    /// Calls a function: its frame comes on top, and the last operands, so many, are the arguments. The event is what the
    /// instruction appends.
    #[inline(always)]
    pub fn enter(
        &mut self,
        alloc: Global,
        image: &Image,
        index: u32,
        count: u32,
        event: Option<Event>,
    ) -> Acted
        requires within { index < length image.now.functions }
        requires enough { count ≤ length self.old.frame.operands }
        requires slots { IfSome (slice_get image.now.functions index) (λ (callee : Callee). count ≤ callee.slots) }
        requires counted { IsCounted image.now self.old }
        ensures ok { (store : Store) → IfOk result (λ noted. IsMade (entered image.now (state_of self.old store) index (reverse (take count self.old.frame.operands)) (drop count self.old.frame.operands) event) (state_of self.new store) noted) }
        ensures err { (store : Store) → IfErr result (λ stop. IsStop stop (entered image.now (state_of self.old store) index (reverse (take count self.old.frame.operands)) (drop count self.old.frame.operands) event)) }
        ensures counted { OnOk result (IsCounted image.now self.new) }
        ensures told { IsTold self.old → OnOk result (IsTold self.new) }
        ensures thrown { self.new.thrown ≡ self.old.thrown }
    {
        let function = function_at(image, index);
        if self.is_too_deep(function) {
            return Err(Stop::Ended(Ending::TooDeep));
        }
        let operands = &mut self.frame.operands;
        let slots = operands.take_arguments(alloc, count, function.slots)?;
        let callee = Frame {
            function: index,
            place: 0,
            operands: Operands::new(alloc),
            slots,
            pending: Exceptions::new(alloc),
        };
        self.cover(callee, function.counted)?;
        Ok(event)
    }

    /// Calls a function that takes one argument.
    #[inline(always)]
    pub fn enter_with(
        &mut self,
        alloc: Global,
        image: &Image,
        index: u32,
        argument: Value,
        event: Option<Event>,
    ) -> Acted
        requires within { index < length image.now.functions }
        requires slots { IfSome (slice_get image.now.functions index) (λ (callee : Callee). 1 ≤ callee.slots) }
        requires counted { IsCounted image.now self.old }
        ensures ok { (store : Store) → IfOk result (λ noted. IsMade (entered image.now (state_of self.old store) index (argument ∷ []) self.old.frame.operands event) (state_of self.new store) noted) }
        ensures err { (store : Store) → IfErr result (λ stop. IsStop stop (entered image.now (state_of self.old store) index (argument ∷ []) self.old.frame.operands event)) }
        ensures counted { OnOk result (IsCounted image.now self.new) }
        ensures told { IsTold self.old → OnOk result (IsTold self.new) }
        ensures thrown { self.new.thrown ≡ self.old.thrown }
    {
        self.frame.operands.push(argument)?;
        self.enter(alloc, image, index, 1, event)
    }

    /// Whether a call of a function is one too many.
    #[inline(always)]
    fn is_too_deep(&self, function: &Function) -> bool
        ensures value { (image : Image) (store : Store) → IsCounted image self.now → result ≡ is_too_deep image (state_of self.now store) function.now }
        ensures few { OnFalse result (function.now.counted ≡ true → self.now.counted < 4096) }
    {
        function.counted && self.counted >= DEPTH
    }

    /// A frame comes on top, of a function that counts for the depth or doesn't.
    // Kept out of the machine's loop, which is faster without it.
    #[inline(never)]
    fn cover(&mut self, callee: Frame, is_counted: bool) -> Result<(), Stop>
        requires few { is_counted ≡ true → self.old.counted < 4096 }
        ensures ok { OnOk result (self.new ≡ record self.old { frame = callee; below = frame_in self.old.frame ∷ self.old.below; counted = self.new.counted }) }
        ensures err { (made : _) → IfErr result (λ stop. IsStop stop made) }
        ensures counted { (image : Image) → is_counted ≡ counts (slice_get image.functions callee.function) → IsCounted image self.old → OnOk result (IsCounted image self.new) }
        ensures thrown { self.new.thrown ≡ self.old.thrown }
    {
        let caller = mem::replace(&mut self.frame, callee);
        self.below.push(caller)?;
        if is_counted {
            self.counted += 1;
        }
        Ok(())
    }

    /// Leaves the last frame for the one below it. The answer is false, and nothing is changed, where there is none.
    // Kept out of the machine's loop, which is faster without it.
    #[inline(never)]
    pub fn uncover(&mut self, image: &Image) -> bool
        requires its_function { self.old.frame.function < length image.now.functions }
        requires counted { IsCounted image.now self.old }
        ensures uncovered { OnTrue result (self.old.below ≡ frame_in self.new.frame ∷ self.new.below) }
        ensures others { self.new ≡ record self.old { frame = self.new.frame; below = self.new.below; kept = self.new.kept; counted = self.new.counted } }
        ensures counted { OnTrue result (IsCounted image.now self.new) }
        ensures told { IsTold self.old → OnTrue result (IsTold self.new) }
        ensures last { OnFalse result (self.old.below ≡ []) }
        ensures same { OnFalse result (self.new.frame ≡ self.old.frame) }
    {
        let Some(caller) = self.below.pop() else {
            return false;
        };
        self.kept.drop_all(&mut self.frame.pending);
        let counted = function_at(image, self.frame.function).counted;
        self.frame = caller;
        if counted {
            self.counted -= 1;
        }
        true
    }

    /// Leaves the last frame with a result or without one. In the first frame the result is the program's.
    #[inline(always)]
    fn leave(&mut self, image: &Image, value: Option<Value>) -> Acted
        requires its_function { self.old.frame.function < length image.now.functions }
        requires counted { IsCounted image.now self.old }
        requires room { (caller : Waiting) (below : _) → self.old.below ≡ caller ∷ below → caller.place + 1 < 2 ^ 32 }
        ensures ok { (store : Store) → IfOk result (λ event. IsMade (left (state_of self.old store) self.old.below value) (state_of self.new store) event) }
        ensures err { (store : Store) → IfErr result (λ stop. IsStop stop (left (state_of self.old store) self.old.below value)) }
        ensures counted { OnOk result (IsCounted image.now self.new) }
        ensures told { IsTold self.old → OnOk result (IsTold self.new) }
        ensures thrown { self.new.thrown ≡ self.old.thrown }
    {
        if !self.uncover(image) {
            return Err(Stop::Ended(ending_of(value)));
        }
        if let Some(value) = value {
            self.frame.operands.push(value)?;
        }
        self.frame.place += 1;
        Ok(None)
    }

    /// Calls a function with so many arguments.
    #[inline(always)]
    pub fn call(&mut self, alloc: Global, image: &Image, function: u32, count: u32) -> Acted
        requires within { function < length image.now.functions }
        requires enough { count ≤ length self.old.frame.operands }
        requires slots { IfSome (slice_get image.now.functions function) (λ (callee : Callee). count ≤ callee.slots) }
        requires counted { IsCounted image.now self.old }
        ensures ok { (store : Store) → IfOk result (λ event. IsMade (act image.now (does.Call function count) (state_of self.old store)) (state_of self.new store) event) }
        ensures err { (store : Store) → IfErr result (λ stop. IsStop stop (act image.now (does.Call function count) (state_of self.old store))) }
        ensures keeps { OnOk result (Keeps image.now self.old self.new) }
    {
        self.enter(alloc, image, function, count, None)
    }

    /// Takes the result, where there is one, and leaves the function.
    #[inline(always)]
    pub fn give_back(&mut self, image: &Image) -> Acted
        requires its_function { self.old.frame.function < length image.now.functions }
        requires counted { IsCounted image.now self.old }
        requires some { IfSome (slice_get image.now.functions self.old.frame.function) (λ (function : Callee). result_count (Some function) ≤ length self.old.frame.operands) }
        requires room { (caller : Waiting) (below : _) → self.old.below ≡ caller ∷ below → caller.place + 1 < 2 ^ 32 }
        ensures ok { (store : Store) → IfOk result (λ event. IsMade (act image.now does.Return (state_of self.old store)) (state_of self.new store) event) }
        ensures err { (store : Store) → IfErr result (λ stop. IsStop stop (act image.now does.Return (state_of self.old store))) }
        ensures keeps { OnOk result (Keeps image.now self.old self.new) }
    {
        if function_at(image, self.frame.function).result {
            let value = self.frame.operands.pop();
            self.leave(image, Some(value))
        } else {
            self.leave(image, None)
        }
    }
}

/// How the program ends that has this value.
#[inline(always)]
fn ending_of(value: Option<Value>) -> Ending
    ensures ends { Ends result None ≡ returned value }
    ensures own { IsOwn result }
{
    let Some(Value::Number(n)) = value else {
        return Ending::Undefined(Kind::Mixed);
    };
    match int_value(n) {
        Some(n) => Ending::Returned(n),
        None => Ending::Undefined(Kind::Mixed),
    }
}

/// The function of this index.
#[inline(always)]
pub fn function_at(image: &Image, index: u32) -> &Function
    requires { index < length image.now.functions }
    ensures { slice_get image.now.functions index ≡ Some result.now }
{
    &image.functions.items()[index as usize]
}
