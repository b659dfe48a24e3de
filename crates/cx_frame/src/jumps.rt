ghost use Rattle.std.specs.Prelude.{◌≡◌, ◌+◌, ◌≤◌, ◌<◌, ◌^◌, length, IfOk, IfErr};
ghost use Rattle.cx_code.specs.declared.image.Image.{Image};
ghost use Rattle.cx_code.specs.declared.operation.Operation.TheVariants as does;
ghost use Rattle.cx_code.specs.State.{State};
ghost use Rattle.cx_code.specs.Act.{act};
ghost use Rattle.cx_frame.specs.Frames.{framed};
ghost use Rattle.cx_frame.specs.Made.{IsMade, IsStop};

use crate::frame::take_number;
use crate::{Acted, Frame, Stop};

// Codes 35 to 37.
impl Frame {
    /// Goes on at a place.
    #[inline(always)]
    pub fn jump(&mut self, to: u32) -> Acted
        ensures ok { (image : Image) (s : State) → IfOk result (λ event. IsMade (act image (does.Jump to) (framed s self.old)) (framed s self.new) event) }
        ensures err { (image : Image) (s : State) → IfErr result (λ stop. IsStop stop (act image (does.Jump to) (framed s self.old))) }
        ensures same { self.new.function ≡ self.old.function }
        ensures pending { self.new.pending ≡ self.old.pending }
    {
        self.place = to;
        Ok(None)
    }

    /// Takes a number, and goes on at a place where it is 0.
    #[inline(always)]
    pub fn jump_zero(&mut self, to: u32) -> Acted
        requires room { self.old.place + 1 < 2 ^ 32 }
        requires some { 1 ≤ length self.old.operands }
        ensures ok { (image : Image) (s : State) → IfOk result (λ event. IsMade (act image (does.JumpZero to) (framed s self.old)) (framed s self.new) event) }
        ensures err { (image : Image) (s : State) → IfErr result (λ stop. IsStop stop (act image (does.JumpZero to) (framed s self.old))) }
        ensures same { self.new.function ≡ self.old.function }
        ensures pending { self.new.pending ≡ self.old.pending }
    {
        let Some(n) = take_number(&mut self.operands) else {
            return Err(Stop::MIXED);
        };
        if n == 0 {
            self.place = to;
        } else {
            self.place += 1;
        }
        Ok(None)
    }

    /// Takes a number, and goes on at a place where it isn't 0.
    #[inline(always)]
    pub fn jump_nonzero(&mut self, to: u32) -> Acted
        requires room { self.old.place + 1 < 2 ^ 32 }
        requires some { 1 ≤ length self.old.operands }
        ensures ok { (image : Image) (s : State) → IfOk result (λ event. IsMade (act image (does.JumpNonzero to) (framed s self.old)) (framed s self.new) event) }
        ensures err { (image : Image) (s : State) → IfErr result (λ stop. IsStop stop (act image (does.JumpNonzero to) (framed s self.old))) }
        ensures same { self.new.function ≡ self.old.function }
        ensures pending { self.new.pending ≡ self.old.pending }
    {
        let Some(n) = take_number(&mut self.operands) else {
            return Err(Stop::MIXED);
        };
        if n == 0 {
            self.place += 1;
        } else {
            self.place = to;
        }
        Ok(None)
    }
}
