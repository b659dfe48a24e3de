ghost use Rattle.std.specs.Prelude.{◌≡◌, ◌+◌, ◌≤◌, ◌<◌, ◌^◌, length, IfOk, IfErr, pos, unsigned_abs};
ghost use Rattle.std.specs.Int.{int_rem_euclid};
ghost use Rattle.cx_code.specs.declared.image.Image.{Image};
ghost use Rattle.cx_code.specs.declared.operation.Operation.TheVariants as does;
ghost use Rattle.cx_code.specs.State.{State};
ghost use Rattle.cx_code.specs.Act.{act};
ghost use Rattle.cx_frame.specs.Frames.{framed};
ghost use Rattle.cx_frame.specs.Made.{IsMade, IsStop};

use crate::frame::{take_number, take_object};
use crate::{Acted, Frame, Stop};
use cx_code::{Event, Party, Semantic, Value, Verdict};

// Codes that append an event and do nothing else: 41, 44, 45 and 54.
impl Frame {
    /// Takes a number, writes its lowest byte, and gives that.
    #[inline(always)]
    pub fn write(&mut self) -> Acted
        requires room { self.old.place + 1 < 2 ^ 32 }
        requires some { 1 ≤ length self.old.operands }
        ensures ok { (image : Image) (s : State) → IfOk result (λ event. IsMade (act image does.Out (framed s self.old)) (framed s self.new) event) }
        ensures err { (image : Image) (s : State) → IfErr result (λ stop. IsStop stop (act image does.Out (framed s self.old))) }
        ensures same { self.new.function ≡ self.old.function }
        ensures pending { self.new.pending ≡ self.old.pending }
    {
        let Some(n) = take_number(&mut self.operands) else {
            return Err(Stop::MIXED);
        };
        let byte = low_byte(n);
        self.give(Value::Number(i128::from(byte)))?;
        Ok(Some(Event::Out(byte)))
    }

    /// An evaluation of an assertion begins.
    #[inline(always)]
    pub fn begin(&mut self, assertion: u32, party: Party, semantic: Semantic) -> Acted
        requires room { self.old.place + 1 < 2 ^ 32 }
        ensures ok { (image : Image) (s : State) → IfOk result (λ event. IsMade (act image (does.Begin assertion party semantic) (framed s self.old)) (framed s self.new) event) }
        ensures err { (image : Image) (s : State) → IfErr result (λ stop. IsStop stop (act image (does.Begin assertion party semantic) (framed s self.old))) }
        ensures same { self.new.function ≡ self.old.function }
        ensures pending { self.new.pending ≡ self.old.pending }
    {
        self.place += 1;
        Ok(Some(Event::Begin(assertion, party, semantic)))
    }

    /// An evaluation of an assertion has ended. The last operand stays, and tells the verdict.
    #[inline(always)]
    pub fn verdict(&mut self, assertion: u32) -> Acted
        requires room { self.old.place + 1 < 2 ^ 32 }
        requires some { 1 ≤ length self.old.operands }
        ensures ok { (image : Image) (s : State) → IfOk result (λ event. IsMade (act image (does.Verdict assertion) (framed s self.old)) (framed s self.new) event) }
        ensures err { (image : Image) (s : State) → IfErr result (λ stop. IsStop stop (act image (does.Verdict assertion) (framed s self.old))) }
        ensures same { self.new.function ≡ self.old.function }
        ensures pending { self.new.pending ≡ self.old.pending }
    {
        let _ = assertion;
        let Value::Number(n) = self.operands.last() else {
            return Err(Stop::MIXED);
        };
        self.place += 1;
        Ok(Some(Event::Verdict(if n == 0 {
            Verdict::False
        } else {
            Verdict::Holds
        })))
    }

    /// Takes an address, of an object of a class that was destroyed.
    #[inline(always)]
    pub fn destroyed(&mut self, class: u32) -> Acted
        requires room { self.old.place + 1 < 2 ^ 32 }
        requires some { 1 ≤ length self.old.operands }
        ensures ok { (image : Image) (s : State) → IfOk result (λ event. IsMade (act image (does.Destroyed class) (framed s self.old)) (framed s self.new) event) }
        ensures err { (image : Image) (s : State) → IfErr result (λ stop. IsStop stop (act image (does.Destroyed class) (framed s self.old))) }
        ensures same { self.new.function ≡ self.old.function }
        ensures pending { self.new.pending ≡ self.old.pending }
    {
        let Some((number, leaf)) = take_object(&mut self.operands) else {
            return Err(Stop::MIXED);
        };
        self.place += 1;
        Ok(Some(Event::Destroyed(class, number, leaf)))
    }
}

/// A number modulo 256.
fn low_byte(n: i128) -> u8
    ensures { result ≡ unsigned_abs (int_rem_euclid n (pos 256)) }
{
    n.rem_euclid(0x100).unsigned_abs() as u8
}
