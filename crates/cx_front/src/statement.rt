ghost use Rattle.std.specs.Prelude.{◌≡◌, ◌+◌, ◌++◌, IfOk, OnSome, Some, length, option_map};
ghost use Rattle.std.specs.List.{All};
ghost use Rattle.cx_includes.specs.Assembled.{IsWithin};
ghost use Rattle.cx_syntax.specs.View.{expr_of, stmt_of, stmts_of};
ghost use Rattle.cx_core.specs.Tree.{block, empty};
ghost use Rattle.cx_core.specs.View.{stmt_of as core_of, stmts_of as cores_of};
ghost use Rattle.cx_front.specs.Front.{all_assertions_in, assertions_in, both, expr_in, if_of, names_after, names_behind, stmt_in, stmts_in, while_of};
ghost use Rattle.cx_front.specs.Made.{StandsFor, branch_in};

use crate::assertion::asserted_in;
use crate::choice::{if_alone, if_else, while_loop};
use crate::declaration::{declared_in, is_declaration};
use crate::discarded::discarded_in;
use crate::expression::expr_in;
use crate::names::Variable;
use crate::returned::returned_in;
use cx_core::{Assertion, Statement};
use cx_includes::Assembled;
use cx_outside::{Items, NoMemory};
use cx_syntax::tree::{Expr, Stmt};
use std::alloc::Global;

/// The statement of a tree, if it is one that is built: blocks, variables, assignments, `putchar`, `if`, `while`, `return`
/// and assertion statements [stmt].
///
/// Arguments: the allocator; the list that the tree stands in; the variables that are visible, by their slots, to which
/// a declaration adds its own; how many were visible where the block began; the table of the assertions so far, to
/// which those of the statement are added.
///
/// Errors: want of memory alone.
///
/// It calls itself, through the others below, for each level of the tree: what it needs beside that is done by others,
/// so that a level takes little stack.
#[cycle(statement)]
#[tactic(auto, unfolding(crate::specs::Front::stmt_in, crate::specs::Front::stmts_in, crate::specs::Front::assertions_in, crate::specs::Front::all_assertions_in))]
pub fn statement_in(
    alloc: Global,
    list: &Assembled,
    base: usize,
    names: &mut Vec<Variable>,
    assertions: &mut Items<Assertion>,
    tree: &Stmt,
) -> Result<Option<Statement>, NoMemory>
    requires { All (IsWithin list.now.files) list.now.placed }
    ensures stands { IfOk result (StandsFor core_of (stmt_in list.now (length assertions.old + 1) base names.old.items (stmt_of tree.now))) }
    ensures visible { IfOk result (λ told. OnSome told (names.new.items ≡ names_behind names.old.items (stmt_of tree.now))) }
    ensures added { IfOk result (λ told. OnSome told (assertions.new ≡ assertions.old ++ assertions_in list.now (length assertions.old + 1) (stmt_of tree.now))) }
{
    match tree {
        Stmt::Empty { .. } => Ok(Some(Statement::Empty)),
        Stmt::Compound(block) => {
            compound_in(alloc, list, names, assertions, block.statements.as_slice())
        }
        Stmt::Evaluate { value, .. } => discarded_in(alloc, list, names.as_slice(), value),
        Stmt::Declare { local, .. } => declared_in(alloc, list, base, names, local),
        Stmt::Branch {
            condition,
            body,
            ..
        } => if_alone_in(alloc, list, names, assertions, body, condition),
        Stmt::Branches {
            condition,
            body,
            other_body,
            ..
        } => match branch_in(alloc, list, names, assertions, body)? {
            Some(body) => else_in(alloc, list, names, assertions, other_body, condition, body),
            None => Ok(None),
        },
        Stmt::While {
            condition,
            body,
            ..
        } => while_in(alloc, list, names, assertions, body, condition),
        Stmt::Return { value, .. } => returned_in(alloc, list, names.as_slice(), value),
        Stmt::Assert { at, predicate, .. } => {
            asserted_in(alloc, list, names.as_slice(), assertions, *at, predicate)
        }
        Stmt::For { .. } => Ok(None),
        Stmt::Break { .. } => Ok(None),
        Stmt::Continue { .. } => Ok(None),
        Stmt::Throw { .. } => Ok(None),
        Stmt::Try { .. } => Ok(None),
    }
}

/// A block of statements, if they are ones that are built [stmt.block].
#[cycle(statement)]
fn compound_in(
    alloc: Global,
    list: &Assembled,
    names: &mut Vec<Variable>,
    assertions: &mut Items<Assertion>,
    statements: &[Stmt],
) -> Result<Option<Statement>, NoMemory>
    requires { All (IsWithin list.now.files) list.now.placed }
    ensures stands { IfOk result (StandsFor core_of (option_map block (stmts_in list.now (length assertions.old + 1) (length names.old.items) names.old.items (stmts_of statements.now)))) }
    ensures visible { IfOk result (λ told. OnSome told (names.new.items ≡ names.old.items)) }
    ensures added { IfOk result (λ told. OnSome told (assertions.new ≡ assertions.old ++ all_assertions_in list.now (length assertions.old + 1) (stmts_of statements.now))) }
{
    let told = block_in(alloc, list, names, assertions, statements)?;
    match told {
        Some(inside) => Ok(Some(Statement::Block(inside))),
        None => Ok(None),
    }
}

/// `if` without `else`, if its parts are built [stmt.if].
#[cycle(statement)]
fn if_alone_in(
    alloc: Global,
    list: &Assembled,
    names: &mut Vec<Variable>,
    assertions: &mut Items<Assertion>,
    body: &Stmt,
    condition: &Expr,
) -> Result<Option<Statement>, NoMemory>
    requires { All (IsWithin list.now.files) list.now.placed }
    ensures stands { IfOk result (StandsFor core_of (if_of (expr_in list.now names.old.items (expr_of condition.now)) (branch_in list.now (length assertions.old + 1) names.old.items (stmt_of body.now)) (Some empty))) }
    ensures visible { IfOk result (λ told. OnSome told (names.new.items ≡ names.old.items)) }
    ensures added { IfOk result (λ told. OnSome told (assertions.new ≡ assertions.old ++ assertions_in list.now (length assertions.old + 1) (stmt_of body.now))) }
{
    let condition = expr_in(alloc, list, names.as_slice(), condition)?;
    let told = branch_in(alloc, list, names, assertions, body)?;
    match told {
        Some(body) => if_alone(alloc, condition, body),
        None => Ok(None),
    }
}

/// What stands behind the first branch of an `if` that is made: `else` and its branch, if they are built [stmt.if].
#[cycle(statement)]
fn else_in(
    alloc: Global,
    list: &Assembled,
    names: &mut Vec<Variable>,
    assertions: &mut Items<Assertion>,
    other: &Stmt,
    condition: &Expr,
    body: Statement,
) -> Result<Option<Statement>, NoMemory>
    requires { All (IsWithin list.now.files) list.now.placed }
    ensures stands { IfOk result (λ told. option_map core_of told ≡ if_of (expr_in list.now names.old.items (expr_of condition.now)) (Some (core_of body)) (branch_in list.now (length assertions.old + 1) names.old.items (stmt_of other.now))) }
    ensures visible { IfOk result (λ told. OnSome told (names.new.items ≡ names.old.items)) }
    ensures added { IfOk result (λ told. OnSome told (assertions.new ≡ assertions.old ++ assertions_in list.now (length assertions.old + 1) (stmt_of other.now))) }
{
    let condition = expr_in(alloc, list, names.as_slice(), condition)?;
    let told = branch_in(alloc, list, names, assertions, other)?;
    match told {
        Some(other) => if_else(alloc, condition, body, other),
        None => Ok(None),
    }
}

/// `while`, if its parts are built [stmt.while].
#[cycle(statement)]
fn while_in(
    alloc: Global,
    list: &Assembled,
    names: &mut Vec<Variable>,
    assertions: &mut Items<Assertion>,
    body: &Stmt,
    condition: &Expr,
) -> Result<Option<Statement>, NoMemory>
    requires { All (IsWithin list.now.files) list.now.placed }
    ensures stands { IfOk result (StandsFor core_of (both while_of (expr_in list.now names.old.items (expr_of condition.now)) (branch_in list.now (length assertions.old + 1) names.old.items (stmt_of body.now)))) }
    ensures visible { IfOk result (λ told. OnSome told (names.new.items ≡ names.old.items)) }
    ensures added { IfOk result (λ told. OnSome told (assertions.new ≡ assertions.old ++ assertions_in list.now (length assertions.old + 1) (stmt_of body.now))) }
{
    let condition = expr_in(alloc, list, names.as_slice(), condition)?;
    let told = branch_in(alloc, list, names, assertions, body)?;
    match told {
        Some(body) => while_loop(alloc, condition, body),
        None => Ok(None),
    }
}

/// A branch of `if` or the body of a loop, which is a scope of its own and no declaration [stmt.select.general].
#[cycle(statement)]
#[tactic(auto, using(crate::proofs::Statements::branch_behind), unfolding(crate::specs::Front::stmt_in, crate::specs::Front::stmts_in, crate::specs::Front::assertions_in, crate::specs::Front::all_assertions_in))]
fn branch_in(
    alloc: Global,
    list: &Assembled,
    names: &mut Vec<Variable>,
    assertions: &mut Items<Assertion>,
    tree: &Stmt,
) -> Result<Option<Statement>, NoMemory>
    requires { All (IsWithin list.now.files) list.now.placed }
    ensures stands { IfOk result (StandsFor core_of (branch_in list.now (length assertions.old + 1) names.old.items (stmt_of tree.now))) }
    ensures visible { IfOk result (λ told. OnSome told (names.new.items ≡ names.old.items)) }
    ensures added { IfOk result (λ told. OnSome told (assertions.new ≡ assertions.old ++ assertions_in list.now (length assertions.old + 1) (stmt_of tree.now))) }
{
    if is_declaration(tree) {
        Ok(None)
    } else {
        let base = names.len();
        statement_in(alloc, list, base, names, assertions, tree)
    }
}

/// The statements of a block, whose variables are visible up to its end [basic.scope.block].
#[cycle(statement)]
#[tactic(auto, using(crate::proofs::Statements::given_back), unfolding(crate::specs::Front::stmt_in, crate::specs::Front::stmts_in, crate::specs::Front::assertions_in, crate::specs::Front::all_assertions_in))]
pub fn block_in(
    alloc: Global,
    list: &Assembled,
    names: &mut Vec<Variable>,
    assertions: &mut Items<Assertion>,
    statements: &[Stmt],
) -> Result<Option<Vec<Statement>>, NoMemory>
    requires { All (IsWithin list.now.files) list.now.placed }
    ensures stands { IfOk result (StandsFor (λ made. cores_of made.items) (stmts_in list.now (length assertions.old + 1) (length names.old.items) names.old.items (stmts_of statements.now))) }
    ensures visible { IfOk result (λ told. OnSome told (names.new.items ≡ names.old.items)) }
    ensures added { IfOk result (λ told. OnSome told (assertions.new ≡ assertions.old ++ all_assertions_in list.now (length assertions.old + 1) (stmts_of statements.now))) }
{
    let base = names.len();
    let told = statements_in(alloc, list, base, names, assertions, statements)?;
    names.truncate(base);
    Ok(told)
}

/// Statements one after another, in a block that began with `base` variables.
#[cycle(statement)]
fn statements_in(
    alloc: Global,
    list: &Assembled,
    base: usize,
    names: &mut Vec<Variable>,
    assertions: &mut Items<Assertion>,
    statements: &[Stmt],
) -> Result<Option<Vec<Statement>>, NoMemory>
    requires { All (IsWithin list.now.files) list.now.placed }
    ensures stands { IfOk result (StandsFor (λ made. cores_of made.items) (stmts_in list.now (length assertions.old + 1) base names.old.items (stmts_of statements.now))) }
    ensures visible { IfOk result (λ told. OnSome told (names.new.items ≡ names_after names.old.items (stmts_of statements.now))) }
    ensures added { IfOk result (λ told. OnSome told (assertions.new ≡ assertions.old ++ all_assertions_in list.now (length assertions.old + 1) (stmts_of statements.now))) }
{
    let mut told = Vec::new(alloc);
    for statement in statements {
        let made = statement_in(alloc, list, base, names, assertions, statement)?;
        match made {
            Some(made) => told.push(made)?,
            None => return Ok(None),
        }
    }
    Ok(Some(told))
}
