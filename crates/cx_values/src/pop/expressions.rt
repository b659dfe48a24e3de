//! Taking expressions and their parts off the stack.

ghost use Rattle.std.specs.Prelude.{◌≡◌, ◌∷◌, option_map};
ghost use Rattle.cx_syntax.specs.View.{args_of, expr_of, several_of};
ghost use Rattle.cx_values.specs.Sorts.{Top, a_list, a_maybe, an_expression, arguments};
ghost use Rattle.cx_values.specs.Values.{args_val, expr_val, list_val, maybe_val};
ghost use Rattle.cx_values.specs.View.{values_of};

use crate::pop::pop_value;
use crate::value::Value;
use cx_syntax::tree::{Args, Expr, Several};

/// Takes an expression off the stack: it is on top, and is the result; this project's own.
#[tactic(auto, unfolding(crate::specs::View::values_of, crate::specs::Sorts::Top))]
pub fn pop_expression(stack: &mut Vec<Value>) -> Expr
    requires { Top an_expression (values_of stack.old.items) }
    ensures { values_of stack.old.items ≡ expr_val (expr_of result) ∷ values_of stack.new.items }
{
    match pop_value(stack) {
        Value::Expression(value) => value,
        _ => unreachable!(),
    }
}

/// Takes arguments off the stack: it is on top, and is the result; this project's own.
#[tactic(auto, unfolding(crate::specs::View::values_of, crate::specs::Sorts::Top))]
pub fn pop_arguments(stack: &mut Vec<Value>) -> Args
    requires { Top arguments (values_of stack.old.items) }
    ensures { values_of stack.old.items ≡ args_val (args_of result) ∷ values_of stack.new.items }
{
    match pop_value(stack) {
        Value::Arguments(value) => value,
        _ => unreachable!(),
    }
}

/// Takes a list of expressions off the stack: it is on top, and is the result; this project's own.
#[tactic(auto, unfolding(crate::specs::View::values_of, crate::specs::Sorts::Top))]
pub fn pop_list(stack: &mut Vec<Value>) -> Several
    requires { Top a_list (values_of stack.old.items) }
    ensures { values_of stack.old.items ≡ list_val (several_of result) ∷ values_of stack.new.items }
{
    match pop_value(stack) {
        Value::List(value) => value,
        _ => unreachable!(),
    }
}

/// Takes an expression that may be absent off the stack: it is on top, and is the result; this project's own.
#[tactic(auto, unfolding(crate::specs::View::values_of, crate::specs::Sorts::Top))]
pub fn pop_maybe(stack: &mut Vec<Value>) -> Option<Expr>
    requires { Top a_maybe (values_of stack.old.items) }
    ensures { values_of stack.old.items ≡ maybe_val (option_map expr_of result) ∷ values_of stack.new.items }
{
    match pop_value(stack) {
        Value::Maybe(value) => value,
        _ => unreachable!(),
    }
}
