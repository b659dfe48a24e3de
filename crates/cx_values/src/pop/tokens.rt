//! Taking tokens off the stack.

ghost use Rattle.std.specs.Prelude.{◌≡◌, ◌∷◌};
ghost use Rattle.cx_syntax.specs.declared.mark.Mark.TheVariants as M;
ghost use Rattle.cx_values.specs.Sorts.{Top, a_class, a_mark, a_name, a_punct, a_word};
ghost use Rattle.cx_values.specs.Values.{mark_val};
ghost use Rattle.cx_values.specs.View.{values_of};

use crate::pop::pop_value;
use crate::value::{PlacedMark, PlacedName, PlacedPunct, PlacedWord, Value};
use cx_syntax::Mark;

/// Takes a token off the stack: it is on top, and is the result; this project's own.
#[tactic(auto, unfolding(crate::specs::View::values_of, crate::specs::Sorts::Top))]
pub fn pop_mark(stack: &mut Vec<Value>) -> PlacedMark
    requires { Top a_mark (values_of stack.old.items) }
    ensures { values_of stack.old.items ≡ mark_val result.mark result.at ∷ values_of stack.new.items }
{
    match pop_value(stack) {
        Value::Mark(value) => value,
        _ => unreachable!(),
    }
}

/// Takes a name that isn't a class name off the stack: it is on top, and is the result; this project's own.
#[tactic(auto, unfolding(crate::specs::View::values_of, crate::specs::Sorts::Top))]
pub fn pop_name(stack: &mut Vec<Value>) -> PlacedName
    requires { Top a_name (values_of stack.old.items) }
    ensures { values_of stack.old.items ≡ mark_val (M.Name result.name) result.at ∷ values_of stack.new.items }
{
    let token = pop_mark(stack);
    match token.mark {
        Mark::Name(name) => PlacedName { name, at: token.at },
        _ => unreachable!(),
    }
}

/// Takes a class name off the stack: it is on top, and is the result; this project's own.
#[tactic(auto, unfolding(crate::specs::View::values_of, crate::specs::Sorts::Top))]
pub fn pop_class(stack: &mut Vec<Value>) -> PlacedName
    requires { Top a_class (values_of stack.old.items) }
    ensures { values_of stack.old.items ≡ mark_val (M.Class result.name) result.at ∷ values_of stack.new.items }
{
    let token = pop_mark(stack);
    match token.mark {
        Mark::Class(name) => PlacedName { name, at: token.at },
        _ => unreachable!(),
    }
}

/// Takes a word of the language off the stack: it is on top, and is the result; this project's own.
#[tactic(auto, unfolding(crate::specs::View::values_of, crate::specs::Sorts::Top))]
pub fn pop_word(stack: &mut Vec<Value>) -> PlacedWord
    requires { Top a_word (values_of stack.old.items) }
    ensures { values_of stack.old.items ≡ mark_val (M.Word result.word) result.at ∷ values_of stack.new.items }
{
    let token = pop_mark(stack);
    match token.mark {
        Mark::Word(word) => PlacedWord { word, at: token.at },
        _ => unreachable!(),
    }
}

/// Takes an operator or a punctuator off the stack: it is on top, and is the result; this project's own.
#[tactic(auto, unfolding(crate::specs::View::values_of, crate::specs::Sorts::Top))]
pub fn pop_punct(stack: &mut Vec<Value>) -> PlacedPunct
    requires { Top a_punct (values_of stack.old.items) }
    ensures { values_of stack.old.items ≡ mark_val (M.Punct result.punct) result.at ∷ values_of stack.new.items }
{
    let token = pop_mark(stack);
    match token.mark {
        Mark::Punct(punct) => PlacedPunct {
            punct,
            at: token.at,
        },
        _ => unreachable!(),
    }
}
