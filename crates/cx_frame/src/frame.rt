ghost use Rattle.std.specs.Prelude.{◌≡◌, ◌+◌, ◌≤◌, ◌<◌, ◌^◌, ◌∷◌, length, IfOk, IfErr, OnOk, None, MatchOption, MatchResult};
ghost use Rattle.cx_code.specs.declared.run.Value.TheVariants.{Number, Address};
ghost use Rattle.cx_frame.specs.declared.frame.Stop.TheVariants as stops;
ghost use Rattle.cx_frame.specs.Made.{IsMade, IsStop, IsNoNumber, IsNoAddress, IsNoObject};

use crate::{Exceptions, Operands};
use cx_code::{Ending, Event, Kind, Value};
use cx_outside::NoMemory;

/// A call of a function that hasn't ended. (This project's own.)
#[derive(Debug, Drop)]
pub struct Frame {
    /// The index of the function.
    pub function: u32,
    /// The place of the next instruction; where the frame waits for another call, that of the call.
    pub place: u32,
    /// The operands.
    pub operands: Operands,
    /// The slots; one that is `None` is empty.
    pub slots: Vec<Option<Value>>,
    /// The exceptions that wait for code at a Cleanup region's target.
    pub pending: Exceptions,
}

/// Why an instruction isn't followed by another one. (This project's own.)
#[derive(Clone, Copy, Debug, PartialEq, Eq)]
pub enum Stop {
    /// The run has ended so.
    Ended(Ending),
    /// There was no memory.
    NoMemory,
}

/// What an instruction came to: the event that it appends, if there is one, or why the run doesn't go on.
pub type Acted = Result<Option<Event>, Stop>;

impl From<NoMemory> for Stop {
    ghost from_gives = { λ _ stop. stop ≡ stops.NoMemory };

    fn from(_: NoMemory) -> Self {
        Stop::NoMemory
    }
}

impl Stop {
    /// An operand of the wrong sort, or a number that is out of range.
    pub const MIXED: Stop = Stop::Ended(Ending::Undefined(Kind::Mixed));

    /// A null pointer was used as an object.
    pub const NULL: Stop = Stop::Ended(Ending::Undefined(Kind::Null));

    /// An object was used after its end.
    pub const DEAD: Stop = Stop::Ended(Ending::Undefined(Kind::Dead));

    /// A leaf without a value was read.
    pub const UNSET: Stop = Stop::Ended(Ending::Undefined(Kind::Unset));
}

impl Frame {
    /// Gives a value, and goes on behind the instruction.
    #[inline(always)]
    pub fn give(&mut self, value: Value) -> Acted
        requires { self.old.place + 1 < 2 ^ 32 }
        ensures quiet { IfOk result (λ event. event ≡ None) }
        ensures gives { OnOk result (self.new ≡ record self.old { place = self.old.place + 1; operands = value ∷ self.old.operands }) }
        ensures err { (made : _) → IfErr result (λ stop. IsStop stop made) }
        ensures same { self.new.function ≡ self.old.function }
        ensures pending { self.new.pending ≡ self.old.pending }
    {
        if self.operands.push(value).is_err() {
            return Err(Stop::NoMemory);
        }
        self.place += 1;
        Ok(None)
    }
}

/// Takes the last operand, if it is a number.
#[inline(always)]
pub fn take_number(operands: &mut Operands) -> Option<i128>
    requires { 1 ≤ length operands.old }
    ensures { MatchOption result (IsNoNumber operands.old) (λ n. operands.old ≡ Number n ∷ operands.new) }
{
    match operands.pop() {
        Value::Number(n) => Some(n),
        _ => None,
    }
}

/// Takes the last operand, if it is the address of a leaf.
#[inline(always)]
pub fn take_address(operands: &mut Operands) -> Result<(u64, u32), Stop>
    requires { 1 ≤ length operands.old }
    ensures { MatchResult result (λ at. operands.old ≡ Address at.0 at.1 ∷ operands.new) (IsNoAddress operands.old) }
{
    match operands.pop() {
        Value::Address(number, leaf) => Ok((number, leaf)),
        Value::Null => Err(Stop::NULL),
        Value::Number(_) => Err(Stop::MIXED),
    }
}

/// Takes the last operand, if it is the address of an object, which the compiler never makes null.
#[inline(always)]
pub fn take_object(operands: &mut Operands) -> Option<(u64, u32)>
    requires { 1 ≤ length operands.old }
    ensures { MatchOption result (IsNoObject operands.old) (λ at. operands.old ≡ Address at.0 at.1 ∷ operands.new) }
{
    match operands.pop() {
        Value::Address(number, leaf) => Some((number, leaf)),
        _ => None,
    }
}
