ghost use Rattle.std.specs.Prelude.{◌≡◌, ◌+◌, ◌≤◌, ◌<◌, ◌^◌, length, IfOk, IfErr, OnOk};
ghost use Rattle.cx_code.specs.Act.{act};
ghost use Rattle.cx_frame.specs.Made.{IsMade, IsStop};
ghost use Rattle.cx_frame.specs.Stores.{Grows};
ghost use Rattle.cx_machine.specs.States.{state_of, IsCounted, IsTold, Keeps};
ghost use Rattle.cx_machine.specs.Due.{IsDue, HasRoom};
ghost use Rattle.cx_machine.specs.Loading.{IsLoaded};
ghost use Rattle.cx_sound.specs.Sound.{IsSound};
ghost use Rattle.cx_code.specs.Rules.{IsValid};
ghost use Rattle.cx_code.specs.Run.{step};

use crate::loading::{Program, operation_at};
use crate::state::Machine;
use cx_code::{Ending, Image, Kind, Memory, Operation};
use cx_frame::{Acted, Stop};
use cx_sound::laws::{has_regions, has_what_it_takes};
use std::alloc::Global;

impl Machine {
    /// Takes one step: an instruction, or a move of an exception that is unwound.
    #[inline(always)]
    pub fn step<M: Memory>(
        &mut self,
        alloc: Global,
        image: &Image,
        program: &Program,
        memory: &mut M,
    ) -> Acted
        requires valid { IsValid image.now }
        requires sound { IsSound image.now (state_of self.old (M.store memory.old)) }
        requires loaded { IsLoaded image.now program.now }
        requires room { HasRoom (state_of self.old (M.store memory.old)) }
        requires counted { IsCounted image.now self.old }
        requires told { IsTold self.old }
        ensures ok { IfOk result (λ event. IsMade (step image.now (state_of self.old (M.store memory.old))) (state_of self.new (M.store memory.new)) event) }
        ensures err { IfErr result (λ stop. IsStop stop (step image.now (state_of self.old (M.store memory.old)))) }
        ensures keeps { OnOk result (Keeps image.now self.old self.new) }
        ensures grows { OnOk result (Grows (M.store memory.old) (M.store memory.new)) }
    {
        match self.unwinding {
            None => {
                has_what_it_takes();
                let operation = operation_at(image, program, self.frame.function, self.frame.place);
                self.act(alloc, image, operation, memory)
            }
            Some(exception) => {
                has_regions();
                let after = self.after;
                self.unwind(image, program, exception, after)
            }
        }
    }

    /// Does what an instruction says.
    #[inline(always)]
    pub fn act<M: Memory>(
        &mut self,
        alloc: Global,
        image: &Image,
        operation: Operation,
        memory: &mut M,
    ) -> Acted
        requires due { IsDue image.now operation (state_of self.old (M.store memory.old)) }
        requires room { HasRoom (state_of self.old (M.store memory.old)) }
        requires counted { IsCounted image.now self.old }
        requires told { IsTold self.old }
        ensures ok { IfOk result (λ event. IsMade (act image.now operation (state_of self.old (M.store memory.old))) (state_of self.new (M.store memory.new)) event) }
        ensures err { IfErr result (λ stop. IsStop stop (act image.now operation (state_of self.old (M.store memory.old)))) }
        ensures keeps { OnOk result (Keeps image.now self.old self.new) }
        ensures grows { OnOk result (Grows (M.store memory.old) (M.store memory.new)) }
    {
        match operation {
            Operation::Push(n) => self.frame.push(n),
            Operation::PushBig(n) => self.frame.push_big(n),
            Operation::PushNull => self.frame.push_null(),
            Operation::Duplicate => self.frame.duplicate(),
            Operation::Discard => self.frame.discard(),
            Operation::Swap => self.frame.swap(),
            Operation::Get(slot) => self.frame.get(slot),
            Operation::Set(slot) => self.frame.set(slot),
            Operation::Make(leaves, slot) => self.frame.make(memory, leaves, slot),
            Operation::End => self.frame.end(memory),
            Operation::Load => self.frame.load(memory),
            Operation::Store => self.frame.store(memory),
            Operation::Offset(by) => self.frame.offset(memory, by),
            Operation::Copy => self.frame.copy(memory),
            Operation::Negate(scalar) => self.frame.negate(scalar),
            Operation::Not(scalar) => self.frame.logical_not(scalar),
            Operation::Complement(scalar) => self.frame.complement(scalar),
            Operation::Add(scalar) => self.frame.add(scalar),
            Operation::Subtract(scalar) => self.frame.subtract(scalar),
            Operation::Multiply(scalar) => self.frame.multiply(scalar),
            Operation::Divide(scalar) => self.frame.divide(scalar),
            Operation::Remainder(scalar) => self.frame.remainder(scalar),
            Operation::ShiftLeft(scalar) => self.frame.shift_left(scalar),
            Operation::ShiftRight(scalar) => self.frame.shift_right(scalar),
            Operation::BitAnd(scalar) => self.frame.bit_and(scalar),
            Operation::BitOr(scalar) => self.frame.bit_or(scalar),
            Operation::BitXor(scalar) => self.frame.bit_xor(scalar),
            Operation::Equal => self.frame.equal(),
            Operation::NotEqual => self.frame.not_equal(),
            Operation::Less => self.frame.less(),
            Operation::LessOrEqual => self.frame.less_or_equal(),
            Operation::Greater => self.frame.greater(),
            Operation::GreaterOrEqual => self.frame.greater_or_equal(),
            Operation::Convert(scalar) => self.frame.convert(scalar),
            Operation::Jump(to) => self.frame.jump(to),
            Operation::JumpZero(to) => self.frame.jump_zero(to),
            Operation::JumpNonzero(to) => self.frame.jump_nonzero(to),
            Operation::Call(function, count) => self.call(alloc, image, function, count),
            Operation::Return => self.give_back(image),
            Operation::Global(index) => self.frame.global(index),
            Operation::Out => self.frame.write(),
            Operation::In => self.read(),
            Operation::TextAt => self.text_at(image),
            Operation::TextOf(text) => self.text_of(image, text),
            Operation::Begin(assertion, party, semantic) => self
                .frame
                .begin(assertion, party, semantic),
            Operation::Verdict(assertion) => self.frame.verdict(assertion),
            Operation::Violate(assertion, mode, semantic) => self.violate(
                alloc, image, assertion, mode, semantic,
            ),
            Operation::Field(field) => self.ask(image, field),
            Operation::ContractEnd => Err(Stop::Ended(Ending::ContractTerminated)),
            Operation::Throw(of) => self.throw(of),
            Operation::Rethrow => self.rethrow(),
            Operation::Held => self.give_held(),
            Operation::Release => self.release(alloc, image),
            Operation::Resume => self.resume(),
            Operation::Destroyed(class) => self.frame.destroyed(class),
            Operation::Flow => Err(Stop::Ended(Ending::Undefined(Kind::Flow))),
        }
    }
}
