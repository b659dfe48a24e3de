ghost use Rattle.std.specs.Prelude.{◌≡◌, ◌+◌, ◌≤◌, ◌<◌, ◌^◌, length, IfOk, IfErr};
ghost use Rattle.cx_code.specs.declared.image.Image.{Image};
ghost use Rattle.cx_code.specs.declared.operation.Operation.TheVariants as does;
ghost use Rattle.cx_code.specs.State.{State};
ghost use Rattle.cx_code.specs.Act.{act};
ghost use Rattle.cx_frame.specs.Frames.{framed};
ghost use Rattle.cx_frame.specs.Made.{IsMade, IsStop};

use crate::{Acted, Frame, Stop};
use cx_code::Value;

// Codes 1 to 8.
impl Frame {
    /// Gives a number.
    #[inline(always)]
    pub fn push(&mut self, n: i64) -> Acted
        requires room { self.old.place + 1 < 2 ^ 32 }
        ensures ok { (image : Image) (s : State) → IfOk result (λ event. IsMade (act image (does.Push n) (framed s self.old)) (framed s self.new) event) }
        ensures err { (image : Image) (s : State) → IfErr result (λ stop. IsStop stop (act image (does.Push n) (framed s self.old))) }
        ensures same { self.new.function ≡ self.old.function }
        ensures pending { self.new.pending ≡ self.old.pending }
    {
        self.give(Value::Number(i128::from(n)))
    }

    /// Gives a number that isn't negative.
    #[inline(always)]
    pub fn push_big(&mut self, n: u64) -> Acted
        requires room { self.old.place + 1 < 2 ^ 32 }
        ensures ok { (image : Image) (s : State) → IfOk result (λ event. IsMade (act image (does.PushBig n) (framed s self.old)) (framed s self.new) event) }
        ensures err { (image : Image) (s : State) → IfErr result (λ stop. IsStop stop (act image (does.PushBig n) (framed s self.old))) }
        ensures same { self.new.function ≡ self.old.function }
        ensures pending { self.new.pending ≡ self.old.pending }
    {
        self.give(Value::Number(i128::from(n)))
    }

    /// Gives a null pointer.
    #[inline(always)]
    pub fn push_null(&mut self) -> Acted
        requires room { self.old.place + 1 < 2 ^ 32 }
        ensures ok { (image : Image) (s : State) → IfOk result (λ event. IsMade (act image does.PushNull (framed s self.old)) (framed s self.new) event) }
        ensures err { (image : Image) (s : State) → IfErr result (λ stop. IsStop stop (act image does.PushNull (framed s self.old))) }
        ensures same { self.new.function ≡ self.old.function }
        ensures pending { self.new.pending ≡ self.old.pending }
    {
        self.give(Value::Null)
    }

    /// Gives the last operand once more.
    #[inline(always)]
    pub fn duplicate(&mut self) -> Acted
        requires room { self.old.place + 1 < 2 ^ 32 }
        requires some { 1 ≤ length self.old.operands }
        ensures ok { (image : Image) (s : State) → IfOk result (λ event. IsMade (act image does.Duplicate (framed s self.old)) (framed s self.new) event) }
        ensures err { (image : Image) (s : State) → IfErr result (λ stop. IsStop stop (act image does.Duplicate (framed s self.old))) }
        ensures same { self.new.function ≡ self.old.function }
        ensures pending { self.new.pending ≡ self.old.pending }
    {
        let value = self.operands.last();
        self.give(value)
    }

    /// Takes a value.
    #[inline(always)]
    pub fn discard(&mut self) -> Acted
        requires room { self.old.place + 1 < 2 ^ 32 }
        requires some { 1 ≤ length self.old.operands }
        ensures ok { (image : Image) (s : State) → IfOk result (λ event. IsMade (act image does.Discard (framed s self.old)) (framed s self.new) event) }
        ensures err { (image : Image) (s : State) → IfErr result (λ stop. IsStop stop (act image does.Discard (framed s self.old))) }
        ensures same { self.new.function ≡ self.old.function }
        ensures pending { self.new.pending ≡ self.old.pending }
    {
        self.operands.pop();
        self.place += 1;
        Ok(None)
    }

    /// Exchanges the last two operands.
    #[inline(always)]
    pub fn swap(&mut self) -> Acted
        requires room { self.old.place + 1 < 2 ^ 32 }
        requires some { 2 ≤ length self.old.operands }
        ensures ok { (image : Image) (s : State) → IfOk result (λ event. IsMade (act image does.Swap (framed s self.old)) (framed s self.new) event) }
        ensures err { (image : Image) (s : State) → IfErr result (λ stop. IsStop stop (act image does.Swap (framed s self.old))) }
        ensures same { self.new.function ≡ self.old.function }
        ensures pending { self.new.pending ≡ self.old.pending }
    {
        let right = self.operands.pop();
        let left = self.operands.pop();
        if self.operands.push(right).is_err() {
            return Err(Stop::NoMemory);
        }
        self.give(left)
    }

    /// Gives the value of a slot.
    #[inline(always)]
    pub fn get(&mut self, slot: u32) -> Acted
        requires room { self.old.place + 1 < 2 ^ 32 }
        requires slot { slot < length self.old.slots.items }
        ensures ok { (image : Image) (s : State) → IfOk result (λ event. IsMade (act image (does.Get slot) (framed s self.old)) (framed s self.new) event) }
        ensures err { (image : Image) (s : State) → IfErr result (λ stop. IsStop stop (act image (does.Get slot) (framed s self.old))) }
        ensures same { self.new.function ≡ self.old.function }
        ensures pending { self.new.pending ≡ self.old.pending }
    {
        match self.slots[slot as usize] {
            Some(value) => self.give(value),
            None => Err(Stop::MIXED),
        }
    }

    /// Takes a value, and puts it into a slot.
    #[inline(always)]
    pub fn set(&mut self, slot: u32) -> Acted
        requires room { self.old.place + 1 < 2 ^ 32 }
        requires some { 1 ≤ length self.old.operands }
        requires slot { slot < length self.old.slots.items }
        ensures ok { (image : Image) (s : State) → IfOk result (λ event. IsMade (act image (does.Set slot) (framed s self.old)) (framed s self.new) event) }
        ensures err { (image : Image) (s : State) → IfErr result (λ stop. IsStop stop (act image (does.Set slot) (framed s self.old))) }
        ensures same { self.new.function ≡ self.old.function }
        ensures pending { self.new.pending ≡ self.old.pending }
    {
        let value = self.operands.pop();
        self.slots[slot as usize] = Some(value);
        self.place += 1;
        Ok(None)
    }
}
