//! Taking statements and their parts off the stack.

ghost use Rattle.std.specs.Prelude.{◌≡◌, ◌∷◌};
ghost use Rattle.cx_syntax.specs.View.{block_of, catching_of, handler_of, handlers_of, init_of, local_of, stmt_of, stmts_of};
ghost use Rattle.cx_values.specs.Sorts.{Top, a_block, a_catching, a_handler, a_local, a_statement, an_init, handlers, statements};
ghost use Rattle.cx_values.specs.Values.{block_val, catching_val, handler_val, handlers_val, init_val, local_val, stmt_val, stmts_val};
ghost use Rattle.cx_values.specs.View.{values_of};

use crate::pop::pop_value;
use crate::value::Value;
use cx_syntax::tree::{Block, Catching, Handler, Handlers, Init, Local, Stmt};

/// Takes an initialiser off the stack: it is on top, and is the result; this project's own.
#[tactic(auto, unfolding(crate::specs::View::values_of, crate::specs::Sorts::Top))]
pub fn pop_init(stack: &mut Vec<Value>) -> Init
    requires { Top an_init (values_of stack.old.items) }
    ensures { values_of stack.old.items ≡ init_val (init_of result) ∷ values_of stack.new.items }
{
    match pop_value(stack) {
        Value::Init(value) => value,
        _ => unreachable!(),
    }
}

/// Takes a local variable off the stack: it is on top, and is the result; this project's own.
#[tactic(auto, unfolding(crate::specs::View::values_of, crate::specs::Sorts::Top))]
pub fn pop_local(stack: &mut Vec<Value>) -> Local
    requires { Top a_local (values_of stack.old.items) }
    ensures { values_of stack.old.items ≡ local_val (local_of result) ∷ values_of stack.new.items }
{
    match pop_value(stack) {
        Value::Local(value) => value,
        _ => unreachable!(),
    }
}

/// Takes a block off the stack: it is on top, and is the result; this project's own.
#[tactic(auto, unfolding(crate::specs::View::values_of, crate::specs::Sorts::Top))]
pub fn pop_block(stack: &mut Vec<Value>) -> Block
    requires { Top a_block (values_of stack.old.items) }
    ensures { values_of stack.old.items ≡ block_val (block_of result) ∷ values_of stack.new.items }
{
    match pop_value(stack) {
        Value::Block(value) => value,
        _ => unreachable!(),
    }
}

/// Takes a statement off the stack: it is on top, and is the result; this project's own.
#[tactic(auto, unfolding(crate::specs::View::values_of, crate::specs::Sorts::Top))]
pub fn pop_statement(stack: &mut Vec<Value>) -> Stmt
    requires { Top a_statement (values_of stack.old.items) }
    ensures { values_of stack.old.items ≡ stmt_val (stmt_of result) ∷ values_of stack.new.items }
{
    match pop_value(stack) {
        Value::Statement(value) => value,
        _ => unreachable!(),
    }
}

/// Takes statements off the stack: it is on top, and is the result; this project's own.
#[tactic(auto, unfolding(crate::specs::View::values_of, crate::specs::Sorts::Top))]
pub fn pop_statements(stack: &mut Vec<Value>) -> Vec<Stmt>
    requires { Top statements (values_of stack.old.items) }
    ensures { values_of stack.old.items ≡ stmts_val (stmts_of result.items) ∷ values_of stack.new.items }
{
    match pop_value(stack) {
        Value::Statements(value) => value,
        _ => unreachable!(),
    }
}

/// Takes a handler off the stack: it is on top, and is the result; this project's own.
#[tactic(auto, unfolding(crate::specs::View::values_of, crate::specs::Sorts::Top))]
pub fn pop_handler(stack: &mut Vec<Value>) -> Handler
    requires { Top a_handler (values_of stack.old.items) }
    ensures { values_of stack.old.items ≡ handler_val (handler_of result) ∷ values_of stack.new.items }
{
    match pop_value(stack) {
        Value::Handler(value) => value,
        _ => unreachable!(),
    }
}

/// Takes handlers off the stack: it is on top, and is the result; this project's own.
#[tactic(auto, unfolding(crate::specs::View::values_of, crate::specs::Sorts::Top))]
pub fn pop_handlers(stack: &mut Vec<Value>) -> Handlers
    requires { Top handlers (values_of stack.old.items) }
    ensures { values_of stack.old.items ≡ handlers_val (handlers_of result) ∷ values_of stack.new.items }
{
    match pop_value(stack) {
        Value::Handlers(value) => value,
        _ => unreachable!(),
    }
}

/// Takes what a handler catches off the stack: it is on top, and is the result; this project's own.
#[tactic(auto, unfolding(crate::specs::View::values_of, crate::specs::Sorts::Top))]
pub fn pop_catching(stack: &mut Vec<Value>) -> Catching
    requires { Top a_catching (values_of stack.old.items) }
    ensures { values_of stack.old.items ≡ catching_val (catching_of result) ∷ values_of stack.new.items }
{
    match pop_value(stack) {
        Value::Catching(value) => value,
        _ => unreachable!(),
    }
}
