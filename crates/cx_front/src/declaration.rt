ghost use Rattle.std.specs.Prelude.{◌≡◌, ◌&&◌, IfOk, OnSome, length, option_map};
ghost use Rattle.std.specs.List.{All};
ghost use Rattle.cx_includes.specs.Assembled.{IsWithin};
ghost use Rattle.cx_syntax.specs.View.{init_of, local_of, stmt_of};
ghost use Rattle.cx_core.specs.View.{stmt_of as core_of};
ghost use Rattle.cx_front.specs.Core.{typed_of};
ghost use Rattle.cx_front.specs.Front.{declared, declared_in, initialised_in, Names, is_declaration, is_new, may_name, with_name, word_at};
ghost use Rattle.cx_front.specs.Made.{names_with};

use crate::expression::expr_in;
use crate::names::{Slot, Variable, found, number_of, value_type};
use crate::operand::as_type;
use crate::token::word_at;
use crate::typed::TypedExpression;
use crate::types::type_in;
use cx_core::{Initializer, IntegerType, Statement};
use cx_includes::Assembled;
use cx_outside::NoMemory;
use cx_syntax::tree::{Init, Local, Stmt};
use std::alloc::Global;

/// The declaration of a variable with an initialiser [dcl.init], if its type and its name are ones that are built and the
/// block that began with `base` variables has none of that name. The variable becomes visible.
pub fn declared_in(
    alloc: Global,
    list: &Assembled,
    base: usize,
    names: &mut Vec<Variable>,
    local: &Local,
) -> Result<Option<Statement>, NoMemory>
    requires { All (IsWithin list.now.files) list.now.placed }
    ensures told { IfOk result (λ told. option_map core_of told ≡ declared_in list.now base names.old.items (local_of local.now)) }
    ensures visible { IfOk result (λ told. OnSome told (names.new.items ≡ names_with names.old.items (local_of local.now))) }
{
    let before = found(local.name, names.as_slice())?;
    if may_declare(list, base, before, local.name_at) {
        match type_in(&local.of) {
            Some(of) => initialised_in(alloc, list, names, local.name, &local.init, of),
            None => Ok(None),
        }
    } else {
        Ok(None)
    }
}

/// Whether a variable may have the name at a place, in a block that began with `base` variables, where the name denoted
/// another before.
fn may_declare(list: &Assembled, base: usize, before: Option<Slot>, at: u32) -> bool
    requires { All (IsWithin list.now.files) list.now.placed }
    ensures { result ≡ (is_new base before && may_name (word_at list.now at)) }
{
    is_new(base, before) && may_name(word_at(list, at))
}

/// Whether a variable isn't of the block that began with `base` variables.
fn is_new(base: usize, before: Option<Slot>) -> bool
    ensures { result ≡ is_new base before }
{
    match before {
        Some(before) => (before.slot as usize) < base,
        None => true,
    }
}

/// Whether a variable may have a name. This project's own: `main` and `putchar` stand for the functions alone.
fn may_name(word: &[u8]) -> bool
    ensures { result ≡ may_name word.now }
{
    word != b"main".as_slice() && word != b"putchar".as_slice()
}

/// The declaration of a variable of a type, which is visible in its own initialiser [basic.scope.pdecl].
fn initialised_in(
    alloc: Global,
    list: &Assembled,
    names: &mut Vec<Variable>,
    name: u32,
    init: &Init,
    of: IntegerType,
) -> Result<Option<Statement>, NoMemory>
    requires { All (IsWithin list.now.files) list.now.placed }
    ensures told { IfOk result (λ told. option_map core_of told ≡ initialised_in list.now names.old.items name (init_of init.now) of) }
    ensures visible { IfOk result (λ told. OnSome told (names.new.items ≡ with_name names.old.items name of)) }
{
    match init {
        Init::Equals { value, .. } => {
            let slot = number_of(names.len())?;
            names.push(Variable { name, of })?;
            let value = expr_in(alloc, list, names.as_slice(), value)?;
            Ok(declared(slot, of, value))
        }
        _ => Ok(None),
    }
}

/// A variable in its slot, where the value that it begins with is there.
fn declared(slot: u32, of: IntegerType, value: Option<TypedExpression>) -> Option<Statement>
    ensures { (names : Names) → length names ≡ slot → option_map core_of result ≡ option_map (declared names of) (option_map typed_of value) }
{
    match value {
        Some(value) => Some(Statement::Variable(
            slot,
            value_type(of),
            Initializer::Value(as_type(of, value)),
        )),
        None => None,
    }
}

/// Whether a statement is a declaration.
pub fn is_declaration(tree: &Stmt) -> bool
    ensures { result ≡ is_declaration (stmt_of tree.now) }
{
    match tree {
        Stmt::Declare { .. } => true,
        _ => false,
    }
}
