ghost use Rattle.std.specs.Prelude.{◌≡◌, ◌+◌, [], ◌∷◌, IfOk, MatchOption, None, min};
ghost use Rattle.std.specs.List.{All};
ghost use Rattle.cx_includes.specs.Assembled.{IsWithin};
ghost use Rattle.cx_syntax.specs.View.{stmts_of, unit_of};
ghost use Rattle.cx_core.specs.declared.unit.CoreUnit.{CoreUnit as Unit};
ghost use Rattle.cx_front.specs.Front.{DeclaresMain, bytes_of, main_type, name_of_file, stmts_in};
ghost use Rattle.cx_front.specs.Made.{IsMain, IsUnitWith, MadeOf, MadeUnit};

use crate::main_function::statements_in;
use crate::names::{number_of, value_type};
use crate::statement::block_in;
use crate::token::has_short_tokens;
use cx_core::{
    Assertion, Body, CoreUnit, Function, FunctionType, IntegerType, ResultKind, Statement,
};
use cx_includes::Assembled;
use cx_outside::{Items, NoMemory, Text};
use cx_syntax::tree::{Stmt, UnitTree};
use std::alloc::Global;

/// The unit of a tree, if it is one that is built: `main` alone [basic.start.main], of tokens that aren't too long.
pub fn unit_in(
    alloc: Global,
    list: &Assembled,
    tree: &UnitTree,
) -> Result<Option<CoreUnit>, NoMemory>
    requires { All (IsWithin list.now.files) list.now.placed }
    ensures { IfOk result (λ told. MatchOption told
        ((unit : Unit) → ¬ (MadeUnit list.now (unit_of tree.now) unit))
        (MadeUnit list.now (unit_of tree.now))) }
{
    match statements_in(list, tree) {
        Some(statements) => {
            if has_short_tokens(list) {
                unit_of_statements(alloc, list, statements)
            } else {
                Ok(None)
            }
        }
        None => Ok(None),
    }
}

/// The unit whose `main` has these statements, if they are ones that are built.
fn unit_of_statements(
    alloc: Global,
    list: &Assembled,
    statements: &[Stmt],
) -> Result<Option<CoreUnit>, NoMemory>
    requires { All (IsWithin list.now.files) list.now.placed }
    ensures { IfOk result (λ told. MatchOption told
        (stmts_in list.now 1 0 [] (stmts_of statements.now) ≡ None)
        (MadeOf list.now (stmts_of statements.now))) }
{
    let mut names = Vec::new(alloc);
    let mut assertions = Items::new(alloc);
    let told = block_in(alloc, list, &mut names, &mut assertions, statements)?;
    match told {
        Some(told) => {
            let unit = unit_with(alloc, list, assertions, told)?;
            Ok(Some(unit))
        }
        None => Ok(None),
    }
}

/// The unit that defines `main` with these statements and has these assertions, and nothing else.
fn unit_with(
    alloc: Global,
    list: &Assembled,
    assertions: Items<Assertion>,
    statements: Vec<Statement>,
) -> Result<CoreUnit, NoMemory>
    ensures assertions { IfOk result (λ unit. unit.assertions ≡ assertions) }
    ensures statements { IfOk result (λ unit. IsUnitWith list.now statements.items unit) }
{
    let mut functions = Items::new(alloc);
    functions.push(main_function(alloc, list, statements)?)?;
    Ok(CoreUnit {
        name: Text::copy_of(alloc, name_of_unit(list))?,
        classes: Items::new(alloc),
        globals: Items::new(alloc),
        functions,
        function_types: main_types(alloc)?,
        definitions: main_alone(alloc)?,
        assertions,
        calls: Items::new(alloc),
        tokens: list.items().len() as u32,
        bytes: bytes_of(list)?,
    })
}

/// The types of the unit's functions: `main` gives an `int` and takes nothing.
fn main_types(alloc: Global) -> Result<Items<FunctionType>, NoMemory>
    ensures { IfOk result (λ types. types ≡ main_type ∷ []) }
{
    let mut types = Items::new(alloc);
    types.push(FunctionType {
        text: Text::copy_of(alloc, b"int ( )")?,
        result: value_type(IntegerType::Int),
        parameters: Items::new(alloc),
    })?;
    Ok(types)
}

/// The functions that the unit defines: its first one.
fn main_alone(alloc: Global) -> Result<Items<u32>, NoMemory>
    ensures { IfOk result (λ definitions. definitions ≡ 0 ∷ []) }
{
    let mut definitions = Items::new(alloc);
    definitions.push(0)?;
    Ok(definitions)
}

/// The definition of `main` with these statements.
fn main_function(
    alloc: Global,
    list: &Assembled,
    statements: Vec<Statement>,
) -> Result<Function, NoMemory>
    ensures main { IfOk result (IsMain statements.items) }
    ensures declares { IfOk result (DeclaresMain list.now) }
{
    Ok(Function {
        name: Text::copy_of(alloc, b"main")?,
        of: 0,
        signature: Text::copy_of(alloc, b"int ( )")?,
        specifiers: Text::new(alloc),
        is_inline: false,
        inline_text: Text::new(alloc),
        is_needed: false,
        noexcept: false,
        named_parameters: 0,
        result: ResultKind::ExitStatus,
        preconditions: Items::new(alloc),
        postconditions: Items::new(alloc),
        body: Some(Body::Function(statements)),
        declaration_tokens: 4,
        definition_tokens: list.items().len() as u32,
    })
}

/// The name of the unit's own file, or nothing where no file was taken.
fn name_of_unit(list: &Assembled) -> &[u8]
    ensures { result.now ≡ name_of_file list.now 0 }
{
    if list.file_count() == 0 {
        &[]
    } else {
        list.file_name(0)
    }
}

/// The bytes of the files that were taken, as far as they can be counted. That 2^32 files were taken counts as want of
/// memory.
fn bytes_of(list: &Assembled) -> Result<u32, NoMemory>
    ensures { IfOk result (λ bytes. bytes ≡ bytes_of list.now) }
{
    let count = number_of(list.file_count())?;
    let mut bytes = 0u32;
    for file in 0..count {
        bytes = with_length(bytes, list.file_text(file).len());
    }
    Ok(bytes)
}

/// A sum with one more length, as far as it can be counted.
fn with_length(sum: u32, length: usize) -> u32
    ensures { result ≡ min (sum + length) 4294967295 }
{
    match u32::try_from(length) {
        Ok(length) => sum.saturating_add(length),
        Err(_) => u32::MAX,
    }
}
