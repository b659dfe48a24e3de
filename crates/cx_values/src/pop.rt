//! Values put on the stack and taken off it, one function a sort.

ghost use Rattle.std.specs.Prelude.{◌≡◌, ◌≢◌, [], ◌∷◌, OnOk};
ghost use Rattle.cx_values.specs.View.{value_of, values_of};

mod expressions;
mod functions;
mod items;
mod members;
mod statements;
mod tokens;
mod types;

use crate::value::Value;
pub use expressions::{pop_arguments, pop_expression, pop_list, pop_maybe};
pub use functions::{
    pop_optional_name, pop_param, pop_params, pop_row, pop_spec, pop_specs, pop_suffix, pop_tail,
};
pub use items::{pop_constant, pop_global_init, pop_item, pop_unit};
pub use members::{pop_init_row, pop_inits, pop_making, pop_member, pop_member_init, pop_members};
pub use statements::{
    pop_block, pop_catching, pop_handler, pop_handlers, pop_init, pop_local, pop_statement,
    pop_statements,
};
use std::alloc::AllocError;
pub use tokens::{pop_class, pop_mark, pop_name, pop_punct, pop_word};
pub use types::{pop_base, pop_flag, pop_no_flag, pop_pointers, pop_type};

/// Takes the value on top off the stack, if there is one; this project's own.
#[tactic(auto, unfolding(crate::specs::View::values_of))]
fn pop_value(stack: &mut Vec<Value>) -> Value
    requires { values_of stack.old.items ≢ [] }
    ensures { values_of stack.old.items ≡ value_of result ∷ values_of stack.new.items }
{
    match stack.pop() {
        Some(value) => value,
        None => unreachable!(),
    }
}

/// Puts a value on the stack. It fails for want of memory alone; this project's own.
#[tactic(auto, unfolding(crate::specs::View::values_of))]
pub fn push(stack: &mut Vec<Value>, value: Value) -> Result<(), AllocError>
    ensures { OnOk result (values_of stack.new.items ≡ value_of value ∷ values_of stack.old.items) }
{
    stack.push(value)?;
    Ok(())
}
