//! The code of statements.
ghost use Rattle.std.specs.Prelude.{◌≡◌, ◌+◌, ◌*◌, ◌^◌, ◌<◌, ◌≤◌, [], ◌∷◌, ◌++◌, length, slice_set, IfOk, OnOk};
ghost use Rattle.cx_core.specs.View.{stmt_of, stmts_of};
ghost use Rattle.cx_lower.specs.Code.{jump, jump_zero, live_behind};
ghost use Rattle.cx_lower.specs.Literals.{StmtFits, StmtsFit};
ghost use Rattle.cx_lower.specs.Emitted.{code_of_statement, code_of_statements};

use crate::code::Code;
use crate::emitter::{Emitter, put_ends};
use crate::instruction::{jump, jump_zero};
use cx_core::{Initializer, Statement};
use cx_outside::NoMemory;

impl<'u> Emitter<'u> {
    /// A statement, where so many variables are visible. Others than those that are built have no code.
    #[cycle(statements)]
    #[tactic(auto, unfolding(crate::specs::Code::stmt_code, crate::specs::Code::stmts_code, crate::specs::Literals::StmtFits, crate::specs::Literals::StmtsFit))]
    pub fn put_statement(&self, code: &mut Code, live: u32, s: &Statement) -> Result<(), NoMemory>
        requires fits { StmtFits (stmt_of s.now) }
        requires room { length code.old + length (code_of_statement self.now live (length code.old) s.now) + 2 * live ≤ 2 ^ 24 }
        ensures { OnOk result (code.new ≡ code.old ++ code_of_statement self.now live (length code.old) s.now) }
    {
        match s {
            Statement::Expression(a) => self.put_discarded(code, a),
            Statement::Variable(slot, _, Initializer::Value(a)) => {
                self.put_variable(code, *slot, a)
            }
            Statement::Block(b) => self.put_statements(code, live, b),
            Statement::If(c, a, b) => {
                let over = self.open_branch(code, c)?;
                self.put_statement(code, live, a)?;
                let past = turn_branch(code, over)?;
                self.put_statement(code, live, b)?;
                close_branch(code, past);
                Ok(())
            }
            Statement::While(c, body) => {
                let turn = open_loop(code)?;
                let over = self.open_branch(code, c)?;
                self.put_statement(code, live, body)?;
                close_loop(code, turn, over)
            }
            Statement::ReturnValue(a) => self.put_return(code, live, a),
            Statement::ContractAssert(index, predicate) => self.put_check(code, *index, predicate),
            _ => Ok(()),
        }
    }

    /// The statements of a block that begins where so many variables are visible, and the ends of its variables.
    #[cycle(statements)]
    #[tactic(auto, unfolding(crate::specs::Code::stmt_code, crate::specs::Code::stmts_code, crate::specs::Literals::StmtFits, crate::specs::Literals::StmtsFit))]
    pub fn put_statements(
        &self,
        code: &mut Code,
        base: u32,
        b: &[Statement],
    ) -> Result<(), NoMemory>
        requires fits { StmtsFit (stmts_of b.now) }
        requires room { length code.old + length (code_of_statements self.now base 0 (length code.old) b.now) + 2 * base ≤ 2 ^ 24 }
        ensures { OnOk result (code.new ≡ code.old ++ code_of_statements self.now base 0 (length code.old) b.now) }
    {
        let mut count = 0u32;
        for s in b {
            self.put_statement(code, base + count, s)?;
            count = live_behind(count, s);
        }
        put_ends(code, base, count)
    }
}

/// How many variables are visible behind a statement.
pub fn live_behind(live: u32, s: &Statement) -> u32
    requires { live ≤ 2 ^ 24 }
    ensures { result ≡ live_behind live (stmt_of s.now) }
{
    match s {
        Statement::Variable(..) => live + 1,
        _ => live,
    }
}

/// Between the parts of an `if`: a jump that is to lead past the second one, to which the jump at the place `over` leads
/// now. Result: the place of the new jump.
fn turn_branch(code: &mut Code, over: u32) -> Result<u32, NoMemory>
    requires room { length code.old < 2 ^ 24 }
    requires within { over < length code.old }
    ensures place { IfOk result (λ place. place ≡ length code.old) }
    ensures code { OnOk result (code.new ≡ slice_set (code.old ++ jump 0 ∷ []) over (jump_zero (length code.old + 1))) }
{
    let past = code.place();
    code.push(jump(0))?;
    code.replace(over, jump_zero(past + 1));
    Ok(past)
}

/// The jump at a place leads to the next place now.
fn close_branch(code: &mut Code, past: u32)
    requires room { length code.old ≤ 2 ^ 24 }
    requires within { past < length code.old }
    ensures { code.new ≡ slice_set code.old past (jump (length code.old)) }
{
    let end = code.place();
    code.replace(past, jump(end));
}

/// A loop is entered by a jump. Result: the place behind it, where each turn begins.
fn open_loop(code: &mut Code) -> Result<u32, NoMemory>
    requires { length code.old < 2 ^ 24 }
    ensures place { IfOk result (λ place. place ≡ length code.old + 1) }
    ensures code { OnOk result (code.new ≡ code.old ++ jump (length code.old + 1) ∷ []) }
{
    let turn = code.place() + 1;
    code.push(jump(turn))?;
    Ok(turn)
}

/// Behind the body of a loop: a jump to its next turn. The jump at the place `over` leads past it now.
fn close_loop(code: &mut Code, turn: u32, over: u32) -> Result<(), NoMemory>
    requires room { length code.old < 2 ^ 24 }
    requires within { over < length code.old }
    ensures { OnOk result (code.new ≡ slice_set (code.old ++ jump turn ∷ []) over (jump_zero (length code.old + 1))) }
{
    let end = code.place() + 1;
    code.push(jump(turn))?;
    code.replace(over, jump_zero(end));
    Ok(())
}
