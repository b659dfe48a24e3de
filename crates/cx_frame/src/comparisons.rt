ghost use Rattle.std.specs.Prelude.{◌≡◌, ◌+◌, ◌≤◌, ◌<◌, ◌^◌, length, IfOk, IfErr};
ghost use Rattle.cx_code.specs.declared.image.Image.{Image};
ghost use Rattle.cx_code.specs.declared.operation.Operation.TheVariants as does;
ghost use Rattle.cx_code.specs.State.{State};
ghost use Rattle.cx_code.specs.Act.{act};
ghost use Rattle.cx_frame.specs.Frames.{framed};
ghost use Rattle.cx_frame.specs.Made.{IsMade, IsStop};

use crate::frame::take_number;
use crate::{Acted, Frame, Stop};
use cx_arithmetic::{convert, equal_values};
use cx_code::{Scalar, Value};

// Codes 28 to 34.
impl Frame {
    /// Takes two values, and gives 1 where they are equal, else 0.
    #[inline(always)]
    pub fn equal(&mut self) -> Acted
        requires room { self.old.place + 1 < 2 ^ 32 }
        requires some { 2 ≤ length self.old.operands }
        ensures ok { (image : Image) (s : State) → IfOk result (λ event. IsMade (act image does.Equal (framed s self.old)) (framed s self.new) event) }
        ensures err { (image : Image) (s : State) → IfErr result (λ stop. IsStop stop (act image does.Equal (framed s self.old))) }
        ensures same { self.new.function ≡ self.old.function }
        ensures pending { self.new.pending ≡ self.old.pending }
    {
        let right = self.operands.pop();
        let left = self.operands.pop();
        match equal_values(left, right) {
            Some(equal) => self.give(Value::Number(i128::from(equal))),
            None => Err(Stop::MIXED),
        }
    }

    /// Takes two values, and gives 0 where they are equal, else 1.
    #[inline(always)]
    pub fn not_equal(&mut self) -> Acted
        requires room { self.old.place + 1 < 2 ^ 32 }
        requires some { 2 ≤ length self.old.operands }
        ensures ok { (image : Image) (s : State) → IfOk result (λ event. IsMade (act image does.NotEqual (framed s self.old)) (framed s self.new) event) }
        ensures err { (image : Image) (s : State) → IfErr result (λ stop. IsStop stop (act image does.NotEqual (framed s self.old))) }
        ensures same { self.new.function ≡ self.old.function }
        ensures pending { self.new.pending ≡ self.old.pending }
    {
        let right = self.operands.pop();
        let left = self.operands.pop();
        match equal_values(left, right) {
            Some(equal) => self.give(Value::Number(i128::from(!equal))),
            None => Err(Stop::MIXED),
        }
    }

    /// Takes two numbers, and gives 1 where the first is less than the second, else 0.
    #[inline(always)]
    pub fn less(&mut self) -> Acted
        requires room { self.old.place + 1 < 2 ^ 32 }
        requires some { 2 ≤ length self.old.operands }
        ensures ok { (image : Image) (s : State) → IfOk result (λ event. IsMade (act image does.Less (framed s self.old)) (framed s self.new) event) }
        ensures err { (image : Image) (s : State) → IfErr result (λ stop. IsStop stop (act image does.Less (framed s self.old))) }
        ensures same { self.new.function ≡ self.old.function }
        ensures pending { self.new.pending ≡ self.old.pending }
    {
        let Some(right) = take_number(&mut self.operands) else {
            return Err(Stop::MIXED);
        };
        let Some(left) = take_number(&mut self.operands) else {
            return Err(Stop::MIXED);
        };
        self.give(Value::Number(i128::from(left < right)))
    }

    /// Takes two numbers, and gives 1 where the first is at most the second, else 0.
    #[inline(always)]
    pub fn less_or_equal(&mut self) -> Acted
        requires room { self.old.place + 1 < 2 ^ 32 }
        requires some { 2 ≤ length self.old.operands }
        ensures ok { (image : Image) (s : State) → IfOk result (λ event. IsMade (act image does.LessOrEqual (framed s self.old)) (framed s self.new) event) }
        ensures err { (image : Image) (s : State) → IfErr result (λ stop. IsStop stop (act image does.LessOrEqual (framed s self.old))) }
        ensures same { self.new.function ≡ self.old.function }
        ensures pending { self.new.pending ≡ self.old.pending }
    {
        let Some(right) = take_number(&mut self.operands) else {
            return Err(Stop::MIXED);
        };
        let Some(left) = take_number(&mut self.operands) else {
            return Err(Stop::MIXED);
        };
        self.give(Value::Number(i128::from(left <= right)))
    }

    /// Takes two numbers, and gives 1 where the first is greater than the second, else 0.
    #[inline(always)]
    pub fn greater(&mut self) -> Acted
        requires room { self.old.place + 1 < 2 ^ 32 }
        requires some { 2 ≤ length self.old.operands }
        ensures ok { (image : Image) (s : State) → IfOk result (λ event. IsMade (act image does.Greater (framed s self.old)) (framed s self.new) event) }
        ensures err { (image : Image) (s : State) → IfErr result (λ stop. IsStop stop (act image does.Greater (framed s self.old))) }
        ensures same { self.new.function ≡ self.old.function }
        ensures pending { self.new.pending ≡ self.old.pending }
    {
        let Some(right) = take_number(&mut self.operands) else {
            return Err(Stop::MIXED);
        };
        let Some(left) = take_number(&mut self.operands) else {
            return Err(Stop::MIXED);
        };
        self.give(Value::Number(i128::from(left > right)))
    }

    /// Takes two numbers, and gives 1 where the first is at least the second, else 0.
    #[inline(always)]
    pub fn greater_or_equal(&mut self) -> Acted
        requires room { self.old.place + 1 < 2 ^ 32 }
        requires some { 2 ≤ length self.old.operands }
        ensures ok { (image : Image) (s : State) → IfOk result (λ event. IsMade (act image does.GreaterOrEqual (framed s self.old)) (framed s self.new) event) }
        ensures err { (image : Image) (s : State) → IfErr result (λ stop. IsStop stop (act image does.GreaterOrEqual (framed s self.old))) }
        ensures same { self.new.function ≡ self.old.function }
        ensures pending { self.new.pending ≡ self.old.pending }
    {
        let Some(right) = take_number(&mut self.operands) else {
            return Err(Stop::MIXED);
        };
        let Some(left) = take_number(&mut self.operands) else {
            return Err(Stop::MIXED);
        };
        self.give(Value::Number(i128::from(left >= right)))
    }

    /// Takes a value, and gives it as a number of a type.
    #[inline(always)]
    pub fn convert(&mut self, scalar: Scalar) -> Acted
        requires room { self.old.place + 1 < 2 ^ 32 }
        requires some { 1 ≤ length self.old.operands }
        ensures ok { (image : Image) (s : State) → IfOk result (λ event. IsMade (act image (does.Convert scalar) (framed s self.old)) (framed s self.new) event) }
        ensures err { (image : Image) (s : State) → IfErr result (λ stop. IsStop stop (act image (does.Convert scalar) (framed s self.old))) }
        ensures same { self.new.function ≡ self.old.function }
        ensures pending { self.new.pending ≡ self.old.pending }
    {
        let value = self.operands.pop();
        match convert(scalar, value) {
            Some(n) => self.give(Value::Number(n)),
            None => Err(Stop::MIXED),
        }
    }
}
