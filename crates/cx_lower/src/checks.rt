//! The code of contract assertions.
ghost use Rattle.std.specs.Prelude.{◌≡◌, ◌+◌, ◌^◌, ◌≤◌, ◌++◌, ℕ, length, OnOk};
ghost use Rattle.cx_core.specs.View.{operand_of};
ghost use Rattle.cx_lower.specs.Code.{violated_code, verdict_code};
ghost use Rattle.cx_lower.specs.Literals.{OperandFits};
ghost use Rattle.cx_lower.specs.Emitted.{code_of_evaluation, code_of_evaluations, code_of_check};

use crate::code::Code;
use crate::emitter::Emitter;
use crate::expression::put_truth;
use crate::instruction::{begin, contract_end, jump_nonzero, verdict, violate};
use cx_code::Semantic;
use cx_core::Operand;
use cx_outside::NoMemory;

impl<'u> Emitter<'u> {
    /// An assertion of the unit's table. Of another one nothing is evaluated.
    pub fn put_check(
        &self,
        code: &mut Code,
        index: u32,
        predicate: &Operand,
    ) -> Result<(), NoMemory>
        requires fits { OperandFits (operand_of predicate.now) }
        requires room { length code.old + length (code_of_check self.now (length code.old) index predicate.now) ≤ 2 ^ 24 }
        ensures { OnOk result (code.new ≡ code.old ++ code_of_check self.now (length code.old) index predicate.now) }
    {
        if index as usize >= self.unit.assertions.items().len() {
            return Ok(());
        }
        self.put_evaluations(code, index, predicate)
    }

    /// An assertion is evaluated once, and not at all under `ignore`.
    fn put_evaluations(
        &self,
        code: &mut Code,
        index: u32,
        predicate: &Operand,
    ) -> Result<(), NoMemory>
        requires fits { OperandFits (operand_of predicate.now) }
        requires room { length code.old + length (code_of_evaluations self.now (length code.old) index predicate.now) ≤ 2 ^ 24 }
        ensures { OnOk result (code.new ≡ code.old ++ code_of_evaluations self.now (length code.old) index predicate.now) }
    {
        match self.semantic {
            Semantic::Ignore => Ok(()),
            Semantic::Observe | Semantic::Enforce | Semantic::QuickEnforce => {
                self.put_evaluation(code, index, predicate)
            }
        }
    }

    fn put_evaluation(
        &self,
        code: &mut Code,
        index: u32,
        predicate: &Operand,
    ) -> Result<(), NoMemory>
        requires fits { OperandFits (operand_of predicate.now) }
        requires room { length code.old + length (code_of_evaluation self.now (length code.old) index predicate.now) ≤ 2 ^ 24 }
        ensures { OnOk result (code.new ≡ code.old ++ code_of_evaluation self.now (length code.old) index predicate.now) }
    {
        code.push(begin(self.semantic, index))?;
        put_truth(code, predicate)?;
        put_verdict(code, self.semantic, index)
    }
}

/// What follows a predicate: its verdict, past what is done of a violation where it holds.
fn put_verdict(code: &mut Code, semantic: Semantic, index: u32) -> Result<(), NoMemory>
    requires { length code.old ≤ 2 ^ 24 }
    ensures { OnOk result (code.new ≡ code.old ++ verdict_code semantic (length code.old) index) }
{
    let next = code.place() + 2 + violated_length(semantic);
    code.push(verdict(index))?;
    code.push(jump_nonzero(next))?;
    put_violated(code, semantic, index)
}

fn violated_length(semantic: Semantic) -> u32
    ensures length { (index : ℕ) → result ≡ length (violated_code semantic index) }
    ensures few { result ≤ 2 }
{
    match semantic {
        Semantic::Ignore => 0,
        Semantic::Observe => 1,
        Semantic::Enforce => 2,
        Semantic::QuickEnforce => 1,
    }
}

/// The handler is called under `observe` and `enforce`, and under `enforce` and `quick_enforce` the program ends.
fn put_violated(code: &mut Code, semantic: Semantic, index: u32) -> Result<(), NoMemory>
    ensures { OnOk result (code.new ≡ code.old ++ violated_code semantic index) }
{
    match semantic {
        Semantic::Ignore => Ok(()),
        Semantic::Observe => code.push(violate(semantic, index)),
        Semantic::Enforce => {
            code.push(violate(semantic, index))?;
            code.push(contract_end())
        }
        Semantic::QuickEnforce => code.push(contract_end()),
    }
}
