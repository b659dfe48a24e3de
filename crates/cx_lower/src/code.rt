ghost use Rattle.std.specs.Prelude.{◌≡◌, ◌<◌, ◌^◌, [], ◌∷◌, ◌++◌, length, slice_set, OnOk};

use cx_code::Instruction;
use cx_outside::NoMemory;
use std::alloc::Global;
use std::marker::Model;

/// The code of a function, which grows at its end. Contracts see it as the list of its instructions.
#[derive(Drop)]
pub struct Code {
    instructions: Vec<Instruction>,
}

impl Model for Code {
    ghost use Rattle.std.specs.Prelude.{List};
    ghost use Rattle.cx_code.specs.declared.code.Instruction.{Instruction};

    ghost Value = { List Instruction };

    ghost view = { λ code. code.instructions.items };
}

impl Code {
    pub fn new(alloc: Global) -> Self
        ensures { result ≡ [] }
    {
        Code {
            instructions: Vec::new(alloc),
        }
    }

    pub fn push(&mut self, instruction: Instruction) -> Result<(), NoMemory>
        ensures { OnOk result (self.new ≡ self.old ++ instruction ∷ []) }
    {
        self.instructions.push(instruction)?;
        Ok(())
    }

    /// The place of the next instruction.
    pub fn place(&self) -> u32
        requires { length self.now < 2 ^ 32 }
        ensures { result ≡ length self.now }
    {
        self.instructions.len() as u32
    }

    /// Puts another instruction at a place, where one stands that leads nowhere yet.
    pub fn replace(&mut self, place: u32, instruction: Instruction)
        requires { place < length self.old }
        ensures { self.new ≡ slice_set self.old place instruction }
    {
        self.instructions[place as usize] = instruction;
    }

    pub fn instructions(&self) -> &[Instruction]
        ensures { result.now ≡ self.now }
    {
        self.instructions.as_slice()
    }
}
