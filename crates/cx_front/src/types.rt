ghost use Rattle.std.specs.Prelude.{◌≡◌};
ghost use Rattle.cx_syntax.specs.View.{base_of, stars_of, type_of};
ghost use Rattle.cx_front.specs.Front.{has_no_stars, type_in, type_of_base, type_of_word};

use cx_core::IntegerType;
use cx_syntax::Word;
use cx_syntax::tree::{Base, Star, TypeTree};

/// The type of a tree, if it is `bool`, `char` or `int` alone [dcl.type.simple].
pub fn type_in(of: &TypeTree) -> Option<IntegerType>
    ensures { result ≡ type_in (type_of of.now) }
{
    match (of.constant, of.reference) {
        (None, None) if has_no_stars(of.stars.as_slice()) => type_of_base(of.base),
        _ => None,
    }
}

fn has_no_stars(stars: &[Star]) -> bool
    ensures { result ≡ has_no_stars (stars_of stars.now) }
{
    match stars {
        [] => true,
        [_, ..] => false,
    }
}

fn type_of_base(base: Base) -> Option<IntegerType>
    ensures { result ≡ type_of_base (base_of base) }
{
    match base {
        Base::Word { word, .. } => type_of_word(word),
        _ => None,
    }
}

fn type_of_word(word: Word) -> Option<IntegerType>
    ensures { result ≡ type_of_word word }
{
    match word {
        Word::Bool => Some(IntegerType::Bool),
        Word::Char => Some(IntegerType::Char),
        Word::Int => Some(IntegerType::Int),
        _ => None,
    }
}
