ghost use Rattle.std.specs.Prelude.{◌≡◌, ◌+◌, ◌∷◌, ◌++◌, [], IfOk, IfSome, OnSome, codes, length, slice_get};
ghost use Rattle.std.specs.Fmt.{decimal};
ghost use Rattle.std.specs.List.{All};
ghost use Rattle.cx_includes.specs.Assembled.{IsWithin};
ghost use Rattle.cx_syntax.specs.View.{expr_of};
ghost use Rattle.cx_core.specs.View.{stmt_of};
ghost use Rattle.cx_core.specs.Tree.{contract_assert};
ghost use Rattle.cx_front.specs.Core.{typed_of};
ghost use Rattle.cx_front.specs.Front.{as_condition, entries, entry_at, name_of_file};
ghost use Rattle.cx_front.specs.Made.{StandsFor, is_asserted};

use crate::comment::comment_in;
use crate::expression::expr_in;
use crate::names::{Variable, number_of};
use crate::operand::as_condition;
use crate::typed::TypedExpression;
use cx_code::AssertionKind;
use cx_core::{Assertion, Statement};
use cx_includes::{Assembled, Placed};
use cx_outside::{Items, NoMemory, Text};
use cx_syntax::tree::Expr;
use itoa::Buffer;
use std::alloc::Global;

/// The assertion statement [stmt.contract.assert] whose word is the token at a place, if its predicate is built. Its
/// assertion is added to the table.
pub fn asserted_in(
    alloc: Global,
    list: &Assembled,
    names: &[Variable],
    assertions: &mut Items<Assertion>,
    at: u32,
    predicate: &Expr,
) -> Result<Option<Statement>, NoMemory>
    requires { All (IsWithin list.now.files) list.now.placed }
    ensures stands { IfOk result (StandsFor stmt_of (is_asserted list.now (length assertions.old + 1) names.now at (expr_of predicate.now))) }
    ensures added { IfOk result (λ told. OnSome told (assertions.new ≡ assertions.old ++ entries list.now (length assertions.old + 1) (expr_of predicate.now) (slice_get list.now.placed at))) }
{
    let told = expr_in(alloc, list, names, predicate)?;
    match told {
        Some(told) => match placed_at(list, at) {
            Some(word) => {
                let index = entry_added(alloc, list, assertions, word, predicate)?;
                Ok(Some(contract_assert(index, told)))
            }
            None => Ok(None),
        },
        None => Ok(None),
    }
}

/// The token at a place with its own place in its file, if there is one.
fn placed_at(list: &Assembled, at: u32) -> Option<Placed>
    requires { All (IsWithin list.now.files) list.now.placed }
    ensures is { result ≡ slice_get list.now.placed at }
    ensures within { IfSome result (IsWithin list.now.files) }
{
    match list.items().get(at as usize) {
        Some(word) => Some(*word),
        None => None,
    }
}

/// The assertion statement of the assertion that has this index in the table.
fn contract_assert(index: u32, predicate: TypedExpression) -> Statement
    ensures { stmt_of result ≡ contract_assert index (as_condition (typed_of predicate)) }
{
    Statement::ContractAssert(index, as_condition(predicate))
}

/// Adds an assertion to the table, and tells its index there. It stands where its word does.
fn entry_added(
    alloc: Global,
    list: &Assembled,
    assertions: &mut Items<Assertion>,
    word: Placed,
    predicate: &Expr,
) -> Result<u32, NoMemory>
    requires within { All (IsWithin list.now.files) list.now.placed }
    requires word { IsWithin list.now.files word }
    ensures index { IfOk result (λ index. index ≡ length assertions.old) }
    ensures added { IfOk result (λ index. assertions.new ≡ assertions.old ++ entry_at list.now (length assertions.old + 1) word (expr_of predicate.now) ∷ []) }
{
    let index = number_of(assertions.items().len())?;
    let entry = entry_at(alloc, list, index, word, predicate)?;
    assertions.push(entry)?;
    Ok(index)
}

/// The assertion that has this index in the table. It stands where its word does.
fn entry_at(
    alloc: Global,
    list: &Assembled,
    index: u32,
    word: Placed,
    predicate: &Expr,
) -> Result<Assertion, NoMemory>
    requires within { All (IsWithin list.now.files) list.now.placed }
    requires word { IsWithin list.now.files word }
    ensures { IfOk result (λ entry. entry ≡ entry_at list.now (index + 1) word (expr_of predicate.now)) }
{
    Ok(Assertion {
        kind: AssertionKind::Assert,
        name: name_of(alloc, u64::from(index) + 1)?,
        file: Text::copy_of(alloc, name_of_file(list, word))?,
        line: word.line,
        column: word.column,
        comment: comment_in(alloc, list, predicate)?,
    })
}

/// The name of the file that a token stands in.
fn name_of_file(list: &Assembled, word: Placed) -> &[u8]
    requires { IsWithin list.now.files word }
    ensures { result.now ≡ name_of_file list.now word.file }
{
    list.file_name(word.file)
}

/// The name of the assertion that has this ordinal in `main`, from 1. This project's own.
fn name_of(alloc: Global, ordinal: u64) -> Result<Text, NoMemory>
    ensures { IfOk result (λ name. name ≡ codes "main#assert" ++ decimal ordinal) }
{
    let mut name = Text::copy_of(alloc, b"main#assert")?;
    let mut buffer = Buffer::new();
    name.append(buffer.format(ordinal).as_bytes())?;
    Ok(name)
}
