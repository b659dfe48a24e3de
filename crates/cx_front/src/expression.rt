ghost use Rattle.std.specs.Prelude.{◌≡◌, IfOk, option_map};
ghost use Rattle.std.specs.List.{All};
ghost use Rattle.cx_includes.specs.Assembled.{IsWithin};
ghost use Rattle.cx_syntax.specs.View.{expr_of};
ghost use Rattle.cx_front.specs.Core.{typed_of};
ghost use Rattle.cx_front.specs.Front.{expr_in};

use crate::leaf::leaf_of;
use crate::names::Variable;
use crate::operators::{binary_operator, unary_operator, with_operand, with_operands};
use crate::token::word_at;
use crate::typed::TypedExpression;
use cx_includes::Assembled;
use cx_outside::NoMemory;
use cx_syntax::tree;
use std::alloc::Global;

/// The expression of a tree, if it is one that is built: literals, names, parentheses and the operators that compute
/// numbers [expr].
///
/// Arguments: the allocator; the list that the tree stands in; the variables that are visible, by their slots.
///
/// Errors: want of memory alone.
///
/// It calls itself once for each level of the tree: what it needs beside that is done by others, so that a level takes
/// little stack.
pub fn expr_in(
    alloc: Global,
    list: &Assembled,
    names: &[Variable],
    tree: &tree::Expr,
) -> Result<Option<TypedExpression>, NoMemory>
    requires { All (IsWithin list.now.files) list.now.placed }
    ensures { IfOk result (λ told. option_map typed_of told ≡ expr_in list.now names.now (expr_of tree.now)) }
{
    match tree {
        tree::Expr::Leaf { at, mark } => leaf_of(names, word_at(list, *at), *mark),
        tree::Expr::Paren { inner, .. } => expr_in(alloc, list, names, inner),
        tree::Expr::Unary { punct, operand, .. } => {
            let operand = expr_in(alloc, list, names, operand)?;
            with_operand(alloc, unary_operator(*punct), operand)
        }
        tree::Expr::Binary {
            left,
            punct,
            right,
            ..
        } => {
            let left = expr_in(alloc, list, names, left)?;
            let right = expr_in(alloc, list, names, right)?;
            with_operands(alloc, binary_operator(*punct), left, right)
        }
        tree::Expr::Temporary { .. } => Ok(None),
        tree::Expr::WordCast { .. } => Ok(None),
        tree::Expr::StaticCast { .. } => Ok(None),
        tree::Expr::Standard { .. } => Ok(None),
        tree::Expr::Library { .. } => Ok(None),
        tree::Expr::Member { .. } => Ok(None),
        tree::Expr::Call { .. } => Ok(None),
        tree::Expr::Stepped { .. } => Ok(None),
        tree::Expr::Choose { .. } => Ok(None),
        tree::Expr::Assign { .. } => Ok(None),
    }
}
