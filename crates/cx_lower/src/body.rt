//! The function with the code of the body of `main`.
ghost use Rattle.std.specs.Prelude.{◌≡◌, ◌≤◌, ◌++◌, ◌∷◌, ◌^◌, [], IfOk, OnOk, length};
ghost use Rattle.cx_core.specs.View.{stmts_of};
ghost use Rattle.cx_typed.specs.Built.{most_weight};
ghost use Rattle.cx_typed.specs.Weight.{stmts_weight};
ghost use Rattle.cx_lower.specs.Code.{call, returns, stmts_most, exit_code, exit_of, body_code};
ghost use Rattle.cx_lower.specs.Emitted.{asserted_code};
ghost use Rattle.cx_lower.specs.Literals.{StmtsFit};
ghost use Rattle.cx_lower.specs.Tables.{main_function, body_function};

use crate::code::Code;
use crate::emitter::{Emitter, put_ends};
use crate::instruction::{call, jump, push, returns};
use cx_code::{Function, Instruction, Semantic};
use cx_core::{CoreUnit, Statement};
use cx_outside::{Items, NoMemory, Text};
use std::alloc::Global;

/// `main` calls the image's second function.
pub fn main_function(alloc: Global) -> Result<Function, NoMemory>
    ensures { IfOk result (λ function. function ≡ main_function) }
{
    Ok(Function {
        name: Text::copy_of(alloc, b"main")?,
        counted: true,
        parameters: 0,
        slots: 0,
        result: true,
        code: call_code(alloc, 1)?,
        regions: Items::new(alloc),
    })
}

/// The code of `main` itself: it calls the function with this index, and returns what that gives.
fn call_code(alloc: Global, function: u32) -> Result<Items<Instruction>, NoMemory>
    ensures { IfOk result (λ code. code ≡ call function ∷ returns ∷ []) }
{
    let mut code = Items::new(alloc);
    code.push(call(function))?;
    code.push(returns())?;
    Ok(code)
}

/// The function that `main` calls, with the code of these statements of the unit.
pub fn body_function(
    alloc: Global,
    semantic: Semantic,
    unit: &CoreUnit,
    b: &[Statement],
) -> Result<Function, NoMemory>
    requires fits { StmtsFit (stmts_of b.now) }
    requires light { stmts_weight (stmts_of b.now) ≤ most_weight }
    ensures { IfOk result (λ function. function ≡ body_function (asserted_code semantic unit.now.assertions) (stmts_of b.now)) }
{
    let most = most_in_body(semantic, unit, b);
    let exit = exit_of(alloc, semantic, unit, b, most)?;
    Ok(Function {
        name: Text::copy_of(alloc, b"main!")?,
        counted: false,
        parameters: 0,
        slots: most,
        result: true,
        code: body_code(alloc, semantic, unit, b, most, exit)?,
        regions: Items::new(alloc),
    })
}

/// The most variables of the body that are visible at one place.
fn most_in_body(semantic: Semantic, unit: &CoreUnit, b: &[Statement]) -> u32
    requires { stmts_weight (stmts_of b.now) ≤ most_weight }
    ensures most { result ≡ stmts_most 0 (stmts_of b.now) }
    ensures few { result ≤ most_weight }
{
    let emitter = Emitter {
        unit,
        semantic,
        exit: 0,
    };
    emitter.most_in_block(0, b)
}

/// The place where a value is returned. The code is as long wherever it exits to, so that it is put once for its length.
fn exit_of(
    alloc: Global,
    semantic: Semantic,
    unit: &CoreUnit,
    b: &[Statement],
    most: u32,
) -> Result<u32, NoMemory>
    requires fits { StmtsFit (stmts_of b.now) }
    requires light { stmts_weight (stmts_of b.now) ≤ most_weight }
    requires most { most ≡ stmts_most 0 (stmts_of b.now) }
    requires few { most ≤ most_weight }
    ensures { IfOk result (λ exit. exit ≡ exit_of (asserted_code semantic unit.now.assertions) (stmts_of b.now)) }
{
    let emitter = Emitter {
        unit,
        semantic,
        exit: 0,
    };
    let mut code = Code::new(alloc);
    emitter.put_statements(&mut code, 0, b)?;
    Ok(code.place() + 2 + 2 * most)
}

fn body_code(
    alloc: Global,
    semantic: Semantic,
    unit: &CoreUnit,
    b: &[Statement],
    most: u32,
    exit: u32,
) -> Result<Items<Instruction>, NoMemory>
    requires fits { StmtsFit (stmts_of b.now) }
    requires light { stmts_weight (stmts_of b.now) ≤ most_weight }
    requires most { most ≡ stmts_most 0 (stmts_of b.now) }
    requires few { most ≤ most_weight }
    requires exit { exit ≡ exit_of (asserted_code semantic unit.now.assertions) (stmts_of b.now) }
    ensures { IfOk result (λ code. code ≡ body_code (asserted_code semantic unit.now.assertions) (stmts_of b.now)) }
{
    let emitter = Emitter {
        unit,
        semantic,
        exit,
    };
    let mut code = Code::new(alloc);
    emitter.put_statements(&mut code, 0, b)?;
    put_exit(&mut code, exit, most)?;
    items_of(alloc, code.instructions())
}

/// Where the end of `main` is reached 0 is returned. The objects in all slots end before a value is returned.
fn put_exit(code: &mut Code, exit: u32, most: u32) -> Result<(), NoMemory>
    requires { most ≤ most_weight }
    ensures { OnOk result (code.new ≡ code.old ++ exit_code exit most) }
{
    code.push(push(0))?;
    code.push(jump(exit))?;
    put_ends(code, 0, most)?;
    code.push(returns())
}

fn items_of(alloc: Global, instructions: &[Instruction]) -> Result<Items<Instruction>, NoMemory>
    ensures { IfOk result (λ items. items ≡ instructions.now) }
{
    let mut items = Items::new(alloc);
    for instruction in instructions {
        items.push(*instruction)?;
    }
    Ok(items)
}
