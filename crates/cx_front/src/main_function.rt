ghost use Rattle.std.specs.Prelude.{◌≡◌, MatchOption, None, Some};
ghost use Rattle.std.specs.List.{All};
ghost use Rattle.cx_includes.specs.Assembled.{IsWithin};
ghost use Rattle.cx_syntax.specs.View.{item_of, params_of, specs_of, stmts_of, suffix_of, unit_of};
ghost use Rattle.cx_front.specs.Front.{has_no_specs, is_bare, is_empty, is_int, main_in, statements_in};

use crate::token::word_at;
use crate::types::type_in;
use cx_core::IntegerType;
use cx_includes::Assembled;
use cx_syntax::tree::{Item, Params, Spec, Stmt, Suffix, Tail, UnitTree};

/// The statements of a unit that is one function alone: `int main()`, not inline, with a body [basic.start.main].
pub fn statements_in<'a>(list: &Assembled, tree: &'a UnitTree) -> Option<&'a [Stmt]>
    requires { All (IsWithin list.now.files) list.now.placed }
    ensures { MatchOption result (statements_in list.now (unit_of tree.now) ≡ None) (λ told. statements_in list.now (unit_of tree.now) ≡ Some (stmts_of told.now)) }
{
    match tree.items.as_slice() {
        [item] => main_in(list, item),
        [] => None,
        [_, _, ..] => None,
    }
}

/// The statements of an item, if it is `int main()`, not inline, with a body.
fn main_in<'a>(list: &Assembled, item: &'a Item) -> Option<&'a [Stmt]>
    requires { All (IsWithin list.now.files) list.now.placed }
    ensures { MatchOption result (main_in list.now (item_of item.now) ≡ None) (λ told. main_in list.now (item_of item.now) ≡ Some (stmts_of told.now)) }
{
    match item {
        Item::Function {
            inlined: None,
            of,
            name_at,
            params,
            suffix,
            tail: Tail::Defined(body),
            ..
        } if is_int(type_in(of))
            && is_empty(params)
            && is_bare(suffix)
            && word_at(list, *name_at) == b"main".as_slice() => { Some(body.statements.as_slice()) }
        _ => None,
    }
}

/// Whether a type is `int`.
fn is_int(of: Option<IntegerType>) -> bool
    ensures { result ≡ is_int of }
{
    match of {
        Some(IntegerType::Int) => true,
        _ => false,
    }
}

/// Whether there is no parameter.
fn is_empty(params: &Params) -> bool
    ensures { result ≡ is_empty (params_of params.now) }
{
    match params {
        Params::Empty { .. } => true,
        Params::Row { .. } => false,
    }
}

/// Whether there is neither `noexcept` nor a contract.
fn is_bare(suffix: &Suffix) -> bool
    ensures { result ≡ is_bare (suffix_of suffix.now) }
{
    match suffix.noexcept {
        None => has_no_specs(suffix.specs.as_slice()),
        Some(_) => false,
    }
}

fn has_no_specs(specs: &[Spec]) -> bool
    ensures { result ≡ has_no_specs (specs_of specs.now) }
{
    match specs {
        [] => true,
        [_, ..] => false,
    }
}
