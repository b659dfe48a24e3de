//! The sorts of tokens on which a choice between productions rests.

ghost use Rattle.std.specs.Prelude.{◌≡◌, eqb};
ghost use Rattle.cx_syntax.specs.Same.{same_punct};
ghost use Rattle.cx_syntax.specs.declared.mark.Punct.TheVariants as P;
ghost use Rattle.cx_syntax.specs.Shaped.{is_leaf, is_assign, is_prefix, is_step, is_member, is_cast, is_word_base, is_constant, is_named, looseness};
ghost use Rattle.cx_table.specs.Sorts.{fits, loose, is_free, is_type_start, is_end, is_mark, is_word, is_prefix_mark};

use crate::symbol::Kind;
use cx_syntax::{Mark, Punct, Word, mark};

/// An assignment operator.
pub fn may_assign(p: Punct) -> bool
    ensures { result ≡ is_assign p }
{
    matches!(
        p,
        Punct::Assign
            | Punct::PlusAssign
            | Punct::MinusAssign
            | Punct::StarAssign
            | Punct::SlashAssign
            | Punct::PercentAssign
            | Punct::AndAssign
            | Punct::OrAssign
            | Punct::XorAssign
            | Punct::ShiftLeftAssign
            | Punct::ShiftRightAssign
    )
}

/// How loosely what begins with a punctuator binds to an operand before it, from 0, a postfix, to 12, not at all.
pub fn binds(p: Punct) -> u8
    ensures { result ≡ looseness p }
{
    match p {
        Punct::Dot
        | Punct::Arrow
        | Punct::OpenParen
        | Punct::Increment
        | Punct::Decrement
        | Punct::Scope => 0,
        Punct::Star | Punct::Slash | Punct::Percent => 1,
        Punct::Plus | Punct::Minus => 2,
        Punct::ShiftLeft | Punct::ShiftRight => 3,
        Punct::Less | Punct::Greater | Punct::LessEqual | Punct::GreaterEqual => 4,
        Punct::Equal | Punct::NotEqual => 5,
        Punct::And => 6,
        Punct::Xor => 7,
        Punct::Or => 8,
        Punct::Both => 9,
        Punct::Either => 10,
        Punct::Question
        | Punct::Assign
        | Punct::PlusAssign
        | Punct::MinusAssign
        | Punct::StarAssign
        | Punct::SlashAssign
        | Punct::PercentAssign
        | Punct::AndAssign
        | Punct::OrAssign
        | Punct::XorAssign
        | Punct::ShiftLeftAssign
        | Punct::ShiftRightAssign => 11,
        _ => 12,
    }
}

/// The same of the token that comes next.
pub fn loosens(look: Option<Mark>) -> u8
    ensures { result ≡ loose look }
{
    match look {
        Some(Mark::Punct(p)) => binds(p),
        _ => 12,
    }
}

/// Whether this punctuator comes next.
pub fn is_sign(p: Punct, look: Option<Mark>) -> bool
    ensures { result ≡ is_mark p look }
{
    match look {
        Some(Mark::Punct(q)) => p as u8 == q as u8,
        _ => false,
    }
}

/// A token that is an expression by itself.
pub fn leaf(m: Mark) -> bool
    ensures { result ≡ is_leaf m }
{
    matches!(
        m,
        Mark::Name(_)
            | Mark::Number
            | Mark::Char
            | Mark::Text
            | Mark::Word(Word::True | Word::False | Word::Nullptr | Word::This)
    )
}

/// Whether this keyword comes next.
pub fn is_keyword(k: Word, look: Option<Mark>) -> bool
    ensures { result ≡ is_word k look }
{
    match look {
        Some(Mark::Word(q)) => k as u8 == q as u8,
        _ => false,
    }
}

/// Whether what comes next binds at a level.
pub fn is_at(level: u8, look: Option<Mark>) -> bool
    ensures { result ≡ eqb (loose look) level }
{
    loosens(look) == level
}

/// An operator before its operand.
pub fn prefix(p: Punct) -> bool
    ensures { result ≡ is_prefix p }
{
    matches!(
        p,
        Punct::Minus
            | Punct::Plus
            | Punct::Not
            | Punct::Tilde
            | Punct::Star
            | Punct::And
            | Punct::Increment
            | Punct::Decrement
    )
}

/// Whether such an operator comes next.
pub fn begins_unary(look: Option<Mark>) -> bool
    ensures { result ≡ is_prefix_mark look }
{
    match look {
        Some(Mark::Punct(p)) => prefix(p),
        _ => false,
    }
}

/// `++` and `--`.
pub fn steps(p: Punct) -> bool
    ensures { result ≡ is_step p }
{
    matches!(p, Punct::Increment | Punct::Decrement)
}

/// `.` and `->`.
pub fn selects(p: Punct) -> bool
    ensures { result ≡ is_member p }
{
    matches!(p, Punct::Dot | Punct::Arrow)
}

/// A keyword that begins a cast in functional form.
pub fn casts(k: Word) -> bool
    ensures { result ≡ is_cast k }
{
    matches!(k, Word::Bool | Word::Char | Word::Int | Word::Unsigned)
}

/// A keyword that is a base type by itself.
pub fn names_base(k: Word) -> bool
    ensures { result ≡ is_word_base k }
{
    matches!(
        k,
        Word::Void | Word::Bool | Word::Char | Word::Int | Word::Unsigned
    )
}

/// `(`.
pub fn is_open_paren(p: Punct) -> bool
    ensures { result ≡ same_punct P.OpenParen p }
{
    Punct::OpenParen as u8 == p as u8
}

/// Whether a mark can begin an expression, and no type.
pub fn begins_free(m: Mark) -> bool
    ensures { result ≡ is_free m }
{
    leaf(m)
        || match m {
            Mark::Word(Word::StaticCast) => true,
            Mark::Punct(p) => prefix(p) || is_open_paren(p),
            _ => false,
        }
}

/// Whether a mark other than `std` can begin a type.
pub fn begins_type(m: Mark) -> bool
    ensures { result ≡ is_type_start m }
{
    match m {
        Mark::Class(_) | Mark::Word(Word::Const | Word::Long) => true,
        Mark::Word(k) => names_base(k),
        _ => false,
    }
}

/// Whether an optional expression ends before it began: at `)` or `;`.
pub fn is_closing(look: Option<Mark>) -> bool
    ensures { result ≡ is_end look }
{
    is_sign(Punct::CloseParen, look) || is_sign(Punct::Semicolon, look)
}

/// A global's value without a sign.
pub fn constant(m: Mark) -> bool
    ensures { result ≡ is_constant m }
{
    matches!(
        m,
        Mark::Number | Mark::Char | Mark::Word(Word::True | Word::False | Word::Nullptr)
    )
}

/// Whether a mark is the name of a number, a class name or not.
pub fn has_name(number: u32, m: Mark) -> bool
    ensures { result ≡ is_named number m }
{
    match m {
        Mark::Name(n) => n == number,
        Mark::Class(n) => n == number,
        _ => false,
    }
}

/// Whether a mark is the token that has to come.
pub fn agrees(kind: Kind, m: Mark) -> bool
    ensures { result ≡ fits kind m }
{
    match kind {
        Kind::Sign(p) => is_sign(p, Some(m)),
        Kind::Keyword(k) => is_keyword(k, Some(m)),
        Kind::AName => matches!(m, Mark::Name(_)),
        Kind::AClass => matches!(m, Mark::Class(_)),
        Kind::ANumber => matches!(m, Mark::Number),
        Kind::TheContracts => has_name(mark::CONTRACTS, m),
    }
}
