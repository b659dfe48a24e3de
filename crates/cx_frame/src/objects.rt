ghost use Rattle.std.specs.Prelude.{◌≡◌, ◌+◌, ◌≤◌, ◌<◌, ◌^◌, length, IfOk, IfErr, OnOk};
ghost use Rattle.cx_code.specs.declared.image.Image.{Image};
ghost use Rattle.cx_code.specs.declared.operation.Operation.TheVariants as does;
ghost use Rattle.cx_code.specs.State.{State};
ghost use Rattle.cx_code.specs.Act.{act, with_store};
ghost use Rattle.cx_frame.specs.Frames.{framed};
ghost use Rattle.cx_frame.specs.Stores.{IsSmall, Grows};
ghost use Rattle.cx_frame.specs.Made.{IsMade, IsStop};

use crate::frame::{take_address, take_object};
use crate::{Acted, Frame, Stop};
use cx_code::{Loaded, Memory, Value};

// Codes 9 to 14 and 40.
impl Frame {
    /// Makes an object of so many leaves, and puts its address into a slot.
    #[inline(always)]
    pub fn make<M: Memory>(&mut self, memory: &mut M, leaves: u32, slot: u32) -> Acted
        requires room { self.old.place + 1 < 2 ^ 32 }
        requires slot { slot < length self.old.slots.items }
        requires some_leaf { 1 ≤ leaves }
        requires few { leaves ≤ 256 }
        requires numbers { (M.store memory.old).next < 2 ^ 63 }
        ensures ok { (image : Image) (s : State) → IfOk result (λ event. IsMade (act image (does.Make leaves slot) (framed (with_store s (M.store memory.old)) self.old)) (framed (with_store s (M.store memory.new)) self.new) event) }
        ensures err { (image : Image) (s : State) → IfErr result (λ stop. IsStop stop (act image (does.Make leaves slot) (framed (with_store s (M.store memory.old)) self.old))) }
        ensures same { self.new.function ≡ self.old.function }
        ensures pending { self.new.pending ≡ self.old.pending }
        ensures grows { OnOk result (Grows (M.store memory.old) (M.store memory.new)) }
    {
        let Ok(number) = memory.make(leaves) else {
            return Err(Stop::NoMemory);
        };
        self.slots[slot as usize] = Some(Value::Address(number, 0));
        self.place += 1;
        Ok(None)
    }

    /// Takes an address, and ends the object.
    #[inline(always)]
    pub fn end<M: Memory>(&mut self, memory: &mut M) -> Acted
        requires room { self.old.place + 1 < 2 ^ 32 }
        requires some { 1 ≤ length self.old.operands }
        ensures ok { (image : Image) (s : State) → IfOk result (λ event. IsMade (act image does.End (framed (with_store s (M.store memory.old)) self.old)) (framed (with_store s (M.store memory.new)) self.new) event) }
        ensures err { (image : Image) (s : State) → IfErr result (λ stop. IsStop stop (act image does.End (framed (with_store s (M.store memory.old)) self.old))) }
        ensures same { self.new.function ≡ self.old.function }
        ensures pending { self.new.pending ≡ self.old.pending }
        ensures grows { OnOk result (Grows (M.store memory.old) (M.store memory.new)) }
    {
        let Some((number, leaf)) = take_object(&mut self.operands) else {
            return Err(Stop::MIXED);
        };
        if leaf != 0 {
            return Err(Stop::MIXED);
        }
        if !memory.end(number) {
            return Err(Stop::DEAD);
        }
        self.place += 1;
        Ok(None)
    }

    /// Takes an address, and gives the value of the leaf.
    #[inline(always)]
    pub fn load<M: Memory>(&mut self, memory: &M) -> Acted
        requires room { self.old.place + 1 < 2 ^ 32 }
        requires some { 1 ≤ length self.old.operands }
        ensures ok { (image : Image) (s : State) → IfOk result (λ event. IsMade (act image does.Load (framed (with_store s (M.store memory.now)) self.old)) (framed (with_store s (M.store memory.now)) self.new) event) }
        ensures err { (image : Image) (s : State) → IfErr result (λ stop. IsStop stop (act image does.Load (framed (with_store s (M.store memory.now)) self.old))) }
        ensures same { self.new.function ≡ self.old.function }
        ensures pending { self.new.pending ≡ self.old.pending }
    {
        let (number, leaf) = take_address(&mut self.operands)?;
        match memory.load(number, leaf) {
            Loaded::Value(value) => self.give(value),
            Loaded::Unset => Err(Stop::UNSET),
            Loaded::Dead => Err(Stop::DEAD),
        }
    }

    /// Takes an address and a value, and writes the leaf.
    #[inline(always)]
    pub fn store<M: Memory>(&mut self, memory: &mut M) -> Acted
        requires room { self.old.place + 1 < 2 ^ 32 }
        requires some { 2 ≤ length self.old.operands }
        ensures ok { (image : Image) (s : State) → IfOk result (λ event. IsMade (act image does.Store (framed (with_store s (M.store memory.old)) self.old)) (framed (with_store s (M.store memory.new)) self.new) event) }
        ensures err { (image : Image) (s : State) → IfErr result (λ stop. IsStop stop (act image does.Store (framed (with_store s (M.store memory.old)) self.old))) }
        ensures same { self.new.function ≡ self.old.function }
        ensures pending { self.new.pending ≡ self.old.pending }
        ensures grows { OnOk result (Grows (M.store memory.old) (M.store memory.new)) }
    {
        let value = self.operands.pop();
        let (number, leaf) = take_address(&mut self.operands)?;
        if !memory.store(number, leaf, value) {
            return Err(Stop::DEAD);
        }
        self.place += 1;
        Ok(None)
    }

    /// Takes an address, and gives that of a leaf so much further.
    #[inline(always)]
    pub fn offset<M: Memory>(&mut self, memory: &M, by: u32) -> Acted
        requires room { self.old.place + 1 < 2 ^ 32 }
        requires some { 1 ≤ length self.old.operands }
        requires small { IsSmall (M.store memory.now) }
        ensures ok { (image : Image) (s : State) → IfOk result (λ event. IsMade (act image (does.Offset by) (framed (with_store s (M.store memory.now)) self.old)) (framed (with_store s (M.store memory.now)) self.new) event) }
        ensures err { (image : Image) (s : State) → IfErr result (λ stop. IsStop stop (act image (does.Offset by) (framed (with_store s (M.store memory.now)) self.old))) }
        ensures same { self.new.function ≡ self.old.function }
        ensures pending { self.new.pending ≡ self.old.pending }
    {
        let (number, leaf) = take_address(&mut self.operands)?;
        match leaf.checked_add(by) {
            Some(leaf) if memory.load(number, leaf) != Loaded::Dead => self.give(Value::Address(
                number, leaf,
            )),
            _ => Err(Stop::DEAD),
        }
    }

    /// Takes two addresses, and copies the first leaf to the second, set or unset.
    #[inline(always)]
    pub fn copy<M: Memory>(&mut self, memory: &mut M) -> Acted
        requires room { self.old.place + 1 < 2 ^ 32 }
        requires some { 2 ≤ length self.old.operands }
        ensures ok { (image : Image) (s : State) → IfOk result (λ event. IsMade (act image does.Copy (framed (with_store s (M.store memory.old)) self.old)) (framed (with_store s (M.store memory.new)) self.new) event) }
        ensures err { (image : Image) (s : State) → IfErr result (λ stop. IsStop stop (act image does.Copy (framed (with_store s (M.store memory.old)) self.old))) }
        ensures same { self.new.function ≡ self.old.function }
        ensures pending { self.new.pending ≡ self.old.pending }
        ensures grows { OnOk result (Grows (M.store memory.old) (M.store memory.new)) }
    {
        let to = self.operands.pop();
        let from = self.operands.pop();
        match (from, to) {
            (Value::Number(_), _) | (_, Value::Number(_)) => Err(Stop::MIXED),
            (Value::Null, _) => Err(Stop::NULL),
            (Value::Address(number, leaf), Value::Null) => match memory.load(number, leaf) {
                Loaded::Dead => Err(Stop::DEAD),
                _ => Err(Stop::NULL),
            },
            (Value::Address(number, leaf), Value::Address(other, place)) => {
                if !memory.copy((number, leaf), (other, place)) {
                    return Err(Stop::DEAD);
                }
                self.place += 1;
                Ok(None)
            }
        }
    }

    /// Gives the address of a global.
    #[inline(always)]
    pub fn global(&mut self, index: u32) -> Acted
        requires room { self.old.place + 1 < 2 ^ 32 }
        ensures ok { (image : Image) (s : State) → IfOk result (λ event. IsMade (act image (does.Global index) (framed s self.old)) (framed s self.new) event) }
        ensures err { (image : Image) (s : State) → IfErr result (λ stop. IsStop stop (act image (does.Global index) (framed s self.old))) }
        ensures same { self.new.function ≡ self.old.function }
        ensures pending { self.new.pending ≡ self.old.pending }
    {
        self.give(Value::Address(u64::from(index) + 1, 0))
    }
}
