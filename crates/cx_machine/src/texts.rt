ghost use Rattle.std.specs.Prelude.{◌≡◌, ◌+◌, ◌≤◌, ◌<◌, ◌^◌, length, IfOk, IfErr, OnOk, None, slice_get};
ghost use Rattle.cx_code.specs.declared.image.Image.{Image};
ghost use Rattle.cx_code.specs.declared.operation.Operation.TheVariants as does;
ghost use Rattle.cx_code.specs.Store.{Store};
ghost use Rattle.cx_code.specs.Act.{act};
ghost use Rattle.cx_frame.specs.Made.{IsMade, IsStop};
ghost use Rattle.cx_machine.specs.States.{state_of, IsCounted, Keeps};

use crate::numbered::{byte_at, numbered};
use crate::state::Machine;
use cx_code::{Event, Image, Value};
use cx_frame::{Acted, Stop, take_number};

// Codes 42 and 43.
impl Machine {
    /// Reads a byte, and gives it, or -1 at the end.
    #[inline(always)]
    pub fn read(&mut self) -> Acted
        requires room { self.old.frame.place + 1 < 2 ^ 32 }
        ensures ok { (image : Image) (store : Store) → IfOk result (λ event. IsMade (act image does.In (state_of self.old store)) (state_of self.new store) event) }
        ensures err { (image : Image) (store : Store) → IfErr result (λ stop. IsStop stop (act image does.In (state_of self.old store))) }
        ensures keeps { (image : Image) → OnOk result (Keeps image self.old self.new) }
    {
        match self.input.take() {
            Some(byte) => {
                self.frame.give(Value::Number(i128::from(byte)))?;
                Ok(Some(Event::In(byte)))
            }
            None => {
                self.frame.give(Value::Number(-1))?;
                Ok(Some(Event::InEnd))
            }
        }
    }

    /// Takes a text and a place, and gives the byte there, or -1 behind the end.
    #[inline(always)]
    pub fn text_at(&mut self, image: &Image) -> Acted
        requires room { self.old.frame.place + 1 < 2 ^ 32 }
        requires some { 2 ≤ length self.old.frame.operands }
        ensures ok { (store : Store) → IfOk result (λ event. IsMade (act image.now does.TextAt (state_of self.old store)) (state_of self.new store) event) }
        ensures err { (store : Store) → IfErr result (λ stop. IsStop stop (act image.now does.TextAt (state_of self.old store))) }
        ensures keeps { OnOk result (Keeps image.now self.old self.new) }
    {
        let Some(place) = take_number(&mut self.frame.operands) else {
            return Err(Stop::MIXED);
        };
        let Some(number) = take_number(&mut self.frame.operands) else {
            return Err(Stop::MIXED);
        };
        let Some(text) = numbered(image.texts.items(), number) else {
            return Err(Stop::MIXED);
        };
        let Some(byte) = byte_at(text.bytes(), place) else {
            return Err(Stop::MIXED);
        };
        self.frame.give(Value::Number(byte))
    }

    /// Takes a place, and gives the byte there of this text, or -1 behind the end.
    #[inline(always)]
    pub fn text_of(&mut self, image: &Image, text: u32) -> Acted
        requires room { self.old.frame.place + 1 < 2 ^ 32 }
        requires some { 1 ≤ length self.old.frame.operands }
        requires within { text < length image.now.texts }
        ensures ok { (store : Store) → IfOk result (λ event. IsMade (act image.now (does.TextOf text) (state_of self.old store)) (state_of self.new store) event) }
        ensures err { (store : Store) → IfErr result (λ stop. IsStop stop (act image.now (does.TextOf text) (state_of self.old store))) }
        ensures keeps { OnOk result (Keeps image.now self.old self.new) }
    {
        let Some(place) = take_number(&mut self.frame.operands) else {
            return Err(Stop::MIXED);
        };
        let Some(byte) = byte_at(image.texts.items()[text as usize].bytes(), place) else {
            return Err(Stop::MIXED);
        };
        self.frame.give(Value::Number(byte))
    }
}
