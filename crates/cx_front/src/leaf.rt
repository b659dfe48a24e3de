ghost use Rattle.std.specs.Prelude.{◌≡◌, IfOk, option_map, pos};
ghost use Rattle.cx_core.specs.Tree.{literal, number};
ghost use Rattle.cx_core.specs.declared.number.IntegerType.TheVariants.{Char, Int};
ghost use Rattle.cx_front.specs.Core.{typed_of};
ghost use Rattle.cx_front.specs.Front.{leaf_of, number_of, prvalue, truth_of, variable_of};

use crate::literal::{char_value, int_value};
use crate::names::{Slot, Variable, found, value_type};
use crate::typed::TypedExpression;
use cx_core::{Constant, Expression, IntegerType};
use cx_outside::NoMemory;
use cx_syntax::{Mark, Word};

/// The expression that is one token with these bytes, if it is a literal that is built or names a variable.
pub fn leaf_of(
    names: &[Variable],
    word: &[u8],
    mark: Mark,
) -> Result<Option<TypedExpression>, NoMemory>
    ensures { IfOk result (λ told. option_map typed_of told ≡ leaf_of names.now word.now mark) }
{
    match mark {
        Mark::Number => Ok(int_literal(int_value(word))),
        Mark::Char => Ok(char_literal(char_value(word))),
        Mark::Word(word) => Ok(truth_of(word)),
        Mark::Name(name) => Ok(variable_at(found(name, names)?)),
        _ => Ok(None),
    }
}

/// A literal of type `int`, where it has a value.
fn int_literal(value: Option<u32>) -> Option<TypedExpression>
    ensures { option_map typed_of result ≡ number_of Int value }
{
    match value {
        Some(value) => Some(literal(IntegerType::Int, value)),
        None => None,
    }
}

/// A literal of type `char`, where it has a value.
fn char_literal(value: Option<u8>) -> Option<TypedExpression>
    ensures { option_map typed_of result ≡ number_of Char value }
{
    match value {
        Some(value) => Some(literal(IntegerType::Char, u32::from(value))),
        None => None,
    }
}

/// A literal of a type.
fn literal(gives: IntegerType, value: u32) -> TypedExpression
    ensures { typed_of result ≡ prvalue gives (literal (number (pos value))) }
{
    TypedExpression {
        read: None,
        gives,
        of: Expression::Literal(Constant::Number(i128::from(value))),
    }
}

/// The truth that a keyword is, if it is `true` or `false` [lex.bool].
fn truth_of(word: Word) -> Option<TypedExpression>
    ensures { option_map typed_of result ≡ truth_of word }
{
    match word {
        Word::True => Some(literal(IntegerType::Bool, 1)),
        Word::False => Some(literal(IntegerType::Bool, 0)),
        _ => None,
    }
}

/// A variable, which is an lvalue, where a name denotes one.
fn variable_at(slot: Option<Slot>) -> Option<TypedExpression>
    ensures { option_map typed_of result ≡ option_map variable_of slot }
{
    match slot {
        Some(slot) => Some(TypedExpression {
            read: Some(value_type(slot.of)),
            gives: slot.of,
            of: Expression::Variable(slot.slot),
        }),
        None => None,
    }
}
