//! Taking a class's members and their parts off the stack.

ghost use Rattle.std.specs.Prelude.{◌≡◌, ◌∷◌};
ghost use Rattle.cx_syntax.specs.View.{init_row_of, inits_of, making_of, member_init_of, member_of, members_of};
ghost use Rattle.cx_values.specs.Sorts.{Top, a_making, a_member, a_member_init, an_init_row, inits, members};
ghost use Rattle.cx_values.specs.Values.{init_row_val, inits_val, making_val, member_init_val, member_val, members_val};
ghost use Rattle.cx_values.specs.View.{values_of};

use crate::pop::pop_value;
use crate::value::Value;
use cx_syntax::tree::{InitRow, Inits, Making, Member, MemberInit};

/// Takes the end of a constructor off the stack: it is on top, and is the result; this project's own.
#[tactic(auto, unfolding(crate::specs::View::values_of, crate::specs::Sorts::Top))]
pub fn pop_making(stack: &mut Vec<Value>) -> Making
    requires { Top a_making (values_of stack.old.items) }
    ensures { values_of stack.old.items ≡ making_val (making_of result) ∷ values_of stack.new.items }
{
    match pop_value(stack) {
        Value::Making(value) => value,
        _ => unreachable!(),
    }
}

/// Takes an initialiser of a field off the stack: it is on top, and is the result; this project's own.
#[tactic(auto, unfolding(crate::specs::View::values_of, crate::specs::Sorts::Top))]
pub fn pop_member_init(stack: &mut Vec<Value>) -> MemberInit
    requires { Top a_member_init (values_of stack.old.items) }
    ensures { values_of stack.old.items ≡ member_init_val (member_init_of result) ∷ values_of stack.new.items }
{
    match pop_value(stack) {
        Value::MemberInit(value) => value,
        _ => unreachable!(),
    }
}

/// Takes a row of initialisers of fields off the stack: it is on top, and is the result; this project's own.
#[tactic(auto, unfolding(crate::specs::View::values_of, crate::specs::Sorts::Top))]
pub fn pop_init_row(stack: &mut Vec<Value>) -> InitRow
    requires { Top an_init_row (values_of stack.old.items) }
    ensures { values_of stack.old.items ≡ init_row_val (init_row_of result) ∷ values_of stack.new.items }
{
    match pop_value(stack) {
        Value::InitRow(value) => value,
        _ => unreachable!(),
    }
}

/// Takes an initialiser list off the stack: it is on top, and is the result; this project's own.
#[tactic(auto, unfolding(crate::specs::View::values_of, crate::specs::Sorts::Top))]
pub fn pop_inits(stack: &mut Vec<Value>) -> Inits
    requires { Top inits (values_of stack.old.items) }
    ensures { values_of stack.old.items ≡ inits_val (inits_of result) ∷ values_of stack.new.items }
{
    match pop_value(stack) {
        Value::Inits(value) => value,
        _ => unreachable!(),
    }
}

/// Takes a member off the stack: it is on top, and is the result; this project's own.
#[tactic(auto, unfolding(crate::specs::View::values_of, crate::specs::Sorts::Top))]
pub fn pop_member(stack: &mut Vec<Value>) -> Member
    requires { Top a_member (values_of stack.old.items) }
    ensures { values_of stack.old.items ≡ member_val (member_of result) ∷ values_of stack.new.items }
{
    match pop_value(stack) {
        Value::Member(value) => value,
        _ => unreachable!(),
    }
}

/// Takes members off the stack: it is on top, and is the result; this project's own.
#[tactic(auto, unfolding(crate::specs::View::values_of, crate::specs::Sorts::Top))]
pub fn pop_members(stack: &mut Vec<Value>) -> Vec<Member>
    requires { Top members (values_of stack.old.items) }
    ensures { values_of stack.old.items ≡ members_val (members_of result.items) ∷ values_of stack.new.items }
{
    match pop_value(stack) {
        Value::Members(value) => value,
        _ => unreachable!(),
    }
}
