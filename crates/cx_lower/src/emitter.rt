//! The code of statements without statements in them.
ghost use Rattle.std.specs.Prelude.{◌≡◌, ◌+◌, ◌-◌, ◌*◌, ◌^◌, ◌≤◌, [], ◌∷◌, ◌++◌, length, OnOk, IfOk};
ghost use Rattle.cx_core.specs.View.{expr_of, operand_of};
ghost use Rattle.cx_lower.specs.Code.{swap, store, discard, out, jump, jump_zero, get, make, expr_code, operand_code, ends_code};
ghost use Rattle.cx_lower.specs.Literals.{ExprFits, OperandFits, DiscardedFits};
ghost use Rattle.cx_lower.specs.Emitted.{code_of_operand, code_of_truth, code_of_discarded};

use crate::code::Code;
use crate::expression::{put_expression, put_operand, put_truth};
use crate::instruction::{discard, end, get, jump, jump_zero, make, out, store, swap};
use cx_code::Semantic;
use cx_core::{CoreUnit, Expression, Operand};
use cx_outside::NoMemory;

/// A unit whose statements are emitted.
#[derive(Drop)]
pub struct Emitter<'u> {
    pub unit: &'u CoreUnit,
    pub semantic: Semantic,
    /// The place where a value is returned.
    pub exit: u32,
}

impl<'u> Emitter<'u> {
    /// An expression whose value is discarded.
    pub fn put_discarded(&self, code: &mut Code, a: &Operand) -> Result<(), NoMemory>
        requires fits { DiscardedFits (operand_of a.now) }
        requires room { length code.old + length (code_of_discarded (length code.old) a.now) ≤ 2 ^ 24 }
        ensures { OnOk result (code.new ≡ code.old ++ code_of_discarded (length code.old) a.now) }
    {
        if a.read.is_some() || a.to.is_some() {
            return Ok(());
        }
        match &a.of {
            Expression::Assign(a, b) => put_assignment(code, a, b),
            Expression::Putchar(a) => self.put_putchar(code, a),
            _ => Ok(()),
        }
    }

    /// A byte is written behind a jump to the next place, which stands for the step of the call.
    fn put_putchar(&self, code: &mut Code, a: &Operand) -> Result<(), NoMemory>
        requires fits { OperandFits (operand_of a.now) }
        requires room { length code.old + length (code_of_operand a.now) + 3 ≤ 2 ^ 24 }
        ensures { let value = code_of_operand a.now in OnOk result (code.new ≡ code.old ++ (value ++ jump (length code.old + length value + 1) ∷ out ∷ discard ∷ [])) }
    {
        put_operand(code, a)?;
        let next = code.place() + 1;
        code.push(jump(next))?;
        code.push(out())?;
        code.push(discard())
    }

    /// A variable is made and gets its value.
    pub fn put_variable(&self, code: &mut Code, slot: u32, a: &Operand) -> Result<(), NoMemory>
        requires { OperandFits (operand_of a.now) }
        ensures { OnOk result (code.new ≡ code.old ++ make slot ∷ get slot ∷ (code_of_operand a.now ++ store ∷ [])) }
    {
        code.push(make(slot))?;
        code.push(get(slot))?;
        put_operand(code, a)?;
        code.push(store())
    }

    /// A value is returned, where so many variables are visible.
    pub fn put_return(&self, code: &mut Code, live: u32, a: &Operand) -> Result<(), NoMemory>
        requires fits { OperandFits (operand_of a.now) }
        requires room { live ≤ 2 ^ 24 }
        ensures { OnOk result (code.new ≡ code.old ++ (code_of_operand a.now ++ jump (self.now.exit - 2 * live) ∷ [])) }
    {
        put_operand(code, a)?;
        code.push(jump(self.exit.saturating_sub(2 * live)))
    }

    /// A condition, and a jump that is to lead past what is done where it holds. Result: the place of the jump.
    pub fn open_branch(&self, code: &mut Code, c: &Operand) -> Result<u32, NoMemory>
        requires fits { OperandFits (operand_of c.now) }
        requires room { length code.old + length (code_of_truth c.now) ≤ 2 ^ 24 }
        ensures place { IfOk result (λ place. place ≡ length code.old + length (code_of_truth c.now)) }
        ensures code { OnOk result (code.new ≡ code.old ++ (code_of_truth c.now ++ jump_zero 0 ∷ [])) }
    {
        put_truth(code, c)?;
        let place = code.place();
        code.push(jump_zero(0))?;
        Ok(place)
    }
}

fn put_assignment(code: &mut Code, a: &Expression, b: &Operand) -> Result<(), NoMemory>
    ensures { ExprFits (expr_of a.now) → OperandFits (operand_of b.now) → OnOk result (code.new ≡ code.old ++ (operand_code (operand_of b.now) ++ (expr_code (expr_of a.now) ++ swap ∷ store ∷ []))) }
{
    put_operand(code, b)?;
    put_expression(code, a)?;
    code.push(swap())?;
    code.push(store())
}

/// The objects in so many slots from `base` on end, the latest first.
#[tactic(auto, unfolding(crate::specs::Code::ends_code))]
pub fn put_ends(code: &mut Code, base: u32, count: u32) -> Result<(), NoMemory>
    requires { base + count ≤ 2 ^ 24 }
    ensures { OnOk result (code.new ≡ code.old ++ ends_code base count) }
{
    let mut left = count;
    while left > 0 {
        left -= 1;
        code.push(get(base + left))?;
        code.push(end())?;
    }
    Ok(())
}
