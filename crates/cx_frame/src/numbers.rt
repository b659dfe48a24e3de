ghost use Rattle.std.specs.Prelude.{◌≡◌, ◌+◌, ◌≤◌, ◌<◌, ◌^◌, length, IfOk, IfErr};
ghost use Rattle.cx_code.specs.declared.image.Image.{Image};
ghost use Rattle.cx_code.specs.declared.operation.Operation.TheVariants as does;
ghost use Rattle.cx_code.specs.State.{State};
ghost use Rattle.cx_code.specs.Act.{act};
ghost use Rattle.cx_frame.specs.Frames.{framed};
ghost use Rattle.cx_frame.specs.Made.{IsMade, IsStop};

use crate::frame::take_number;
use crate::{Acted, Frame, Stop};
use cx_arithmetic::{
    both_bits, complement, difference, different_bits, either_bits, logical_not, negated, product,
    quotient, remainder, shifted_left, shifted_right, sum,
};
use cx_code::{Ending, Scalar, Value};

// Codes 15 to 27.
impl Frame {
    /// Takes a number, and gives its negative.
    #[inline(always)]
    pub fn negate(&mut self, scalar: Scalar) -> Acted
        requires room { self.old.place + 1 < 2 ^ 32 }
        requires some { 1 ≤ length self.old.operands }
        ensures ok { (image : Image) (s : State) → IfOk result (λ event. IsMade (act image (does.Negate scalar) (framed s self.old)) (framed s self.new) event) }
        ensures err { (image : Image) (s : State) → IfErr result (λ stop. IsStop stop (act image (does.Negate scalar) (framed s self.old))) }
        ensures same { self.new.function ≡ self.old.function }
        ensures pending { self.new.pending ≡ self.old.pending }
    {
        let Some(x) = take_number(&mut self.operands) else {
            return Err(Stop::MIXED);
        };
        match negated(scalar, x) {
            Ok(n) => self.give(Value::Number(n)),
            Err(kind) => Err(Stop::Ended(Ending::Undefined(kind))),
        }
    }

    /// Takes a number, and gives 1 for 0, else 0.
    #[inline(always)]
    pub fn logical_not(&mut self, scalar: Scalar) -> Acted
        requires room { self.old.place + 1 < 2 ^ 32 }
        requires some { 1 ≤ length self.old.operands }
        ensures ok { (image : Image) (s : State) → IfOk result (λ event. IsMade (act image (does.Not scalar) (framed s self.old)) (framed s self.new) event) }
        ensures err { (image : Image) (s : State) → IfErr result (λ stop. IsStop stop (act image (does.Not scalar) (framed s self.old))) }
        ensures same { self.new.function ≡ self.old.function }
        ensures pending { self.new.pending ≡ self.old.pending }
    {
        let Some(x) = take_number(&mut self.operands) else {
            return Err(Stop::MIXED);
        };
        match logical_not(scalar, x) {
            Ok(n) => self.give(Value::Number(n)),
            Err(kind) => Err(Stop::Ended(Ending::Undefined(kind))),
        }
    }

    /// Takes a number, and gives the one with all bits turned.
    #[inline(always)]
    pub fn complement(&mut self, scalar: Scalar) -> Acted
        requires room { self.old.place + 1 < 2 ^ 32 }
        requires some { 1 ≤ length self.old.operands }
        ensures ok { (image : Image) (s : State) → IfOk result (λ event. IsMade (act image (does.Complement scalar) (framed s self.old)) (framed s self.new) event) }
        ensures err { (image : Image) (s : State) → IfErr result (λ stop. IsStop stop (act image (does.Complement scalar) (framed s self.old))) }
        ensures same { self.new.function ≡ self.old.function }
        ensures pending { self.new.pending ≡ self.old.pending }
    {
        let Some(x) = take_number(&mut self.operands) else {
            return Err(Stop::MIXED);
        };
        match complement(scalar, x) {
            Ok(n) => self.give(Value::Number(n)),
            Err(kind) => Err(Stop::Ended(Ending::Undefined(kind))),
        }
    }

    /// Takes two numbers, and gives the sum.
    #[inline(always)]
    pub fn add(&mut self, scalar: Scalar) -> Acted
        requires room { self.old.place + 1 < 2 ^ 32 }
        requires some { 2 ≤ length self.old.operands }
        ensures ok { (image : Image) (s : State) → IfOk result (λ event. IsMade (act image (does.Add scalar) (framed s self.old)) (framed s self.new) event) }
        ensures err { (image : Image) (s : State) → IfErr result (λ stop. IsStop stop (act image (does.Add scalar) (framed s self.old))) }
        ensures same { self.new.function ≡ self.old.function }
        ensures pending { self.new.pending ≡ self.old.pending }
    {
        let Some(right) = take_number(&mut self.operands) else {
            return Err(Stop::MIXED);
        };
        let Some(left) = take_number(&mut self.operands) else {
            return Err(Stop::MIXED);
        };
        match sum(scalar, left, right) {
            Ok(n) => self.give(Value::Number(n)),
            Err(kind) => Err(Stop::Ended(Ending::Undefined(kind))),
        }
    }

    /// Takes two numbers, and gives the first less the second.
    #[inline(always)]
    pub fn subtract(&mut self, scalar: Scalar) -> Acted
        requires room { self.old.place + 1 < 2 ^ 32 }
        requires some { 2 ≤ length self.old.operands }
        ensures ok { (image : Image) (s : State) → IfOk result (λ event. IsMade (act image (does.Subtract scalar) (framed s self.old)) (framed s self.new) event) }
        ensures err { (image : Image) (s : State) → IfErr result (λ stop. IsStop stop (act image (does.Subtract scalar) (framed s self.old))) }
        ensures same { self.new.function ≡ self.old.function }
        ensures pending { self.new.pending ≡ self.old.pending }
    {
        let Some(right) = take_number(&mut self.operands) else {
            return Err(Stop::MIXED);
        };
        let Some(left) = take_number(&mut self.operands) else {
            return Err(Stop::MIXED);
        };
        match difference(scalar, left, right) {
            Ok(n) => self.give(Value::Number(n)),
            Err(kind) => Err(Stop::Ended(Ending::Undefined(kind))),
        }
    }

    /// Takes two numbers, and gives the product.
    #[inline(always)]
    pub fn multiply(&mut self, scalar: Scalar) -> Acted
        requires room { self.old.place + 1 < 2 ^ 32 }
        requires some { 2 ≤ length self.old.operands }
        ensures ok { (image : Image) (s : State) → IfOk result (λ event. IsMade (act image (does.Multiply scalar) (framed s self.old)) (framed s self.new) event) }
        ensures err { (image : Image) (s : State) → IfErr result (λ stop. IsStop stop (act image (does.Multiply scalar) (framed s self.old))) }
        ensures same { self.new.function ≡ self.old.function }
        ensures pending { self.new.pending ≡ self.old.pending }
    {
        let Some(right) = take_number(&mut self.operands) else {
            return Err(Stop::MIXED);
        };
        let Some(left) = take_number(&mut self.operands) else {
            return Err(Stop::MIXED);
        };
        match product(scalar, left, right) {
            Ok(n) => self.give(Value::Number(n)),
            Err(kind) => Err(Stop::Ended(Ending::Undefined(kind))),
        }
    }

    /// Takes two numbers, and gives the quotient, rounded towards 0.
    #[inline(always)]
    pub fn divide(&mut self, scalar: Scalar) -> Acted
        requires room { self.old.place + 1 < 2 ^ 32 }
        requires some { 2 ≤ length self.old.operands }
        ensures ok { (image : Image) (s : State) → IfOk result (λ event. IsMade (act image (does.Divide scalar) (framed s self.old)) (framed s self.new) event) }
        ensures err { (image : Image) (s : State) → IfErr result (λ stop. IsStop stop (act image (does.Divide scalar) (framed s self.old))) }
        ensures same { self.new.function ≡ self.old.function }
        ensures pending { self.new.pending ≡ self.old.pending }
    {
        let Some(right) = take_number(&mut self.operands) else {
            return Err(Stop::MIXED);
        };
        let Some(left) = take_number(&mut self.operands) else {
            return Err(Stop::MIXED);
        };
        match quotient(scalar, left, right) {
            Ok(n) => self.give(Value::Number(n)),
            Err(kind) => Err(Stop::Ended(Ending::Undefined(kind))),
        }
    }

    /// Takes two numbers, and gives the remainder, which has the sign of the first.
    #[inline(always)]
    pub fn remainder(&mut self, scalar: Scalar) -> Acted
        requires room { self.old.place + 1 < 2 ^ 32 }
        requires some { 2 ≤ length self.old.operands }
        ensures ok { (image : Image) (s : State) → IfOk result (λ event. IsMade (act image (does.Remainder scalar) (framed s self.old)) (framed s self.new) event) }
        ensures err { (image : Image) (s : State) → IfErr result (λ stop. IsStop stop (act image (does.Remainder scalar) (framed s self.old))) }
        ensures same { self.new.function ≡ self.old.function }
        ensures pending { self.new.pending ≡ self.old.pending }
    {
        let Some(right) = take_number(&mut self.operands) else {
            return Err(Stop::MIXED);
        };
        let Some(left) = take_number(&mut self.operands) else {
            return Err(Stop::MIXED);
        };
        match remainder(scalar, left, right) {
            Ok(n) => self.give(Value::Number(n)),
            Err(kind) => Err(Stop::Ended(Ending::Undefined(kind))),
        }
    }

    /// Takes a number and an amount, and gives the number shifted left.
    #[inline(always)]
    pub fn shift_left(&mut self, scalar: Scalar) -> Acted
        requires room { self.old.place + 1 < 2 ^ 32 }
        requires some { 2 ≤ length self.old.operands }
        ensures ok { (image : Image) (s : State) → IfOk result (λ event. IsMade (act image (does.ShiftLeft scalar) (framed s self.old)) (framed s self.new) event) }
        ensures err { (image : Image) (s : State) → IfErr result (λ stop. IsStop stop (act image (does.ShiftLeft scalar) (framed s self.old))) }
        ensures same { self.new.function ≡ self.old.function }
        ensures pending { self.new.pending ≡ self.old.pending }
    {
        let Some(right) = take_number(&mut self.operands) else {
            return Err(Stop::MIXED);
        };
        let Some(left) = take_number(&mut self.operands) else {
            return Err(Stop::MIXED);
        };
        match shifted_left(scalar, left, right) {
            Ok(n) => self.give(Value::Number(n)),
            Err(kind) => Err(Stop::Ended(Ending::Undefined(kind))),
        }
    }

    /// Takes a number and an amount, and gives the number shifted right.
    #[inline(always)]
    pub fn shift_right(&mut self, scalar: Scalar) -> Acted
        requires room { self.old.place + 1 < 2 ^ 32 }
        requires some { 2 ≤ length self.old.operands }
        ensures ok { (image : Image) (s : State) → IfOk result (λ event. IsMade (act image (does.ShiftRight scalar) (framed s self.old)) (framed s self.new) event) }
        ensures err { (image : Image) (s : State) → IfErr result (λ stop. IsStop stop (act image (does.ShiftRight scalar) (framed s self.old))) }
        ensures same { self.new.function ≡ self.old.function }
        ensures pending { self.new.pending ≡ self.old.pending }
    {
        let Some(right) = take_number(&mut self.operands) else {
            return Err(Stop::MIXED);
        };
        let Some(left) = take_number(&mut self.operands) else {
            return Err(Stop::MIXED);
        };
        match shifted_right(scalar, left, right) {
            Ok(n) => self.give(Value::Number(n)),
            Err(kind) => Err(Stop::Ended(Ending::Undefined(kind))),
        }
    }

    /// Takes two numbers, and gives the bits that both have.
    #[inline(always)]
    pub fn bit_and(&mut self, scalar: Scalar) -> Acted
        requires room { self.old.place + 1 < 2 ^ 32 }
        requires some { 2 ≤ length self.old.operands }
        ensures ok { (image : Image) (s : State) → IfOk result (λ event. IsMade (act image (does.BitAnd scalar) (framed s self.old)) (framed s self.new) event) }
        ensures err { (image : Image) (s : State) → IfErr result (λ stop. IsStop stop (act image (does.BitAnd scalar) (framed s self.old))) }
        ensures same { self.new.function ≡ self.old.function }
        ensures pending { self.new.pending ≡ self.old.pending }
    {
        let Some(right) = take_number(&mut self.operands) else {
            return Err(Stop::MIXED);
        };
        let Some(left) = take_number(&mut self.operands) else {
            return Err(Stop::MIXED);
        };
        match both_bits(scalar, left, right) {
            Ok(n) => self.give(Value::Number(n)),
            Err(kind) => Err(Stop::Ended(Ending::Undefined(kind))),
        }
    }

    /// Takes two numbers, and gives the bits that one has.
    #[inline(always)]
    pub fn bit_or(&mut self, scalar: Scalar) -> Acted
        requires room { self.old.place + 1 < 2 ^ 32 }
        requires some { 2 ≤ length self.old.operands }
        ensures ok { (image : Image) (s : State) → IfOk result (λ event. IsMade (act image (does.BitOr scalar) (framed s self.old)) (framed s self.new) event) }
        ensures err { (image : Image) (s : State) → IfErr result (λ stop. IsStop stop (act image (does.BitOr scalar) (framed s self.old))) }
        ensures same { self.new.function ≡ self.old.function }
        ensures pending { self.new.pending ≡ self.old.pending }
    {
        let Some(right) = take_number(&mut self.operands) else {
            return Err(Stop::MIXED);
        };
        let Some(left) = take_number(&mut self.operands) else {
            return Err(Stop::MIXED);
        };
        match either_bits(scalar, left, right) {
            Ok(n) => self.give(Value::Number(n)),
            Err(kind) => Err(Stop::Ended(Ending::Undefined(kind))),
        }
    }

    /// Takes two numbers, and gives the bits that exactly one has.
    #[inline(always)]
    pub fn bit_xor(&mut self, scalar: Scalar) -> Acted
        requires room { self.old.place + 1 < 2 ^ 32 }
        requires some { 2 ≤ length self.old.operands }
        ensures ok { (image : Image) (s : State) → IfOk result (λ event. IsMade (act image (does.BitXor scalar) (framed s self.old)) (framed s self.new) event) }
        ensures err { (image : Image) (s : State) → IfErr result (λ stop. IsStop stop (act image (does.BitXor scalar) (framed s self.old))) }
        ensures same { self.new.function ≡ self.old.function }
        ensures pending { self.new.pending ≡ self.old.pending }
    {
        let Some(right) = take_number(&mut self.operands) else {
            return Err(Stop::MIXED);
        };
        let Some(left) = take_number(&mut self.operands) else {
            return Err(Stop::MIXED);
        };
        match different_bits(scalar, left, right) {
            Ok(n) => self.give(Value::Number(n)),
            Err(kind) => Err(Stop::Ended(Ending::Undefined(kind))),
        }
    }
}
