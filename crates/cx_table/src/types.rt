//! The table of types and of words and signs that may be missing.

ghost use Rattle.std.specs.Prelude.{◌≡◌, ◌++◌, reverse, IfOk};
ghost use Rattle.cx_table.specs.Steps.{Expands};
ghost use Rattle.cx_table.specs.declared.symbol.Part.TheVariants as Parts;

use crate::sorts;
use crate::stack::{eats, goes};
use crate::symbol::Act::*;
use crate::symbol::Kind::*;
use crate::symbol::Part::*;
use crate::symbol::Symbol::*;
use crate::symbol::{NAME, SCOPE, Symbol};
use crate::table::Advance;
use cx_syntax::{Mark, Punct, Word};
use std::alloc::AllocError;

/// The base of a type.
pub fn base_part(stack: &mut Vec<Symbol>, look: Option<Mark>) -> Result<Advance, AllocError>
    ensures { IfOk result (λ r. Expands r Parts.BasePart look (reverse stack.old.items) (reverse stack.new.items)) }
{
    match look {
        Some(Mark::Class(_)) => eats(stack, &[Make(DoClassBase)]),
        Some(Mark::Std) => eats(
            stack,
            &[
                SCOPE,
                Expect(TheContracts),
                SCOPE,
                NAME,
                Make(DoLibraryBase),
            ],
        ),
        Some(Mark::Word(Word::Unsigned)) => eats(stack, &[Read(UnsignedTail)]),
        Some(Mark::Word(Word::Long)) => eats(
            stack,
            &[Expect(Keyword(Word::Long)), Make(DoLongLong)],
        ),
        Some(Mark::Word(k)) => if sorts::names_base(k) {
            eats(stack, &[Make(DoWordBase)])
        } else {
            Ok(Advance::Stays)
        },
        _ => Ok(Advance::Stays),
    }
}

/// After `unsigned` in a type.
pub fn unsigned_tail(stack: &mut Vec<Symbol>, look: Option<Mark>) -> Result<Advance, AllocError>
    ensures { IfOk result (λ r. Expands r Parts.UnsignedTail look (reverse stack.old.items) (reverse stack.new.items)) }
{
    match look {
        Some(Mark::Word(Word::Int)) => eats(stack, &[Make(DoUnsignedInt)]),
        Some(Mark::Word(Word::Long)) => eats(
            stack,
            &[Expect(Keyword(Word::Long)), Make(DoUnsignedLongLong)],
        ),
        _ => goes(stack, &[Make(DoWordBase)]),
    }
}

/// At most so many `*`, each with the `const` after it.
pub fn star_tail(
    stack: &mut Vec<Symbol>,
    left: u8,
    look: Option<Mark>,
) -> Result<Advance, AllocError>
    ensures { IfOk result (λ r. Expands r (Parts.StarTail left) look (reverse stack.old.items) (reverse stack.new.items)) }
{
    if left == 0 || !sorts::is_sign(Punct::Star, look) {
        return goes(stack, &[]);
    }
    match look {
        Some(_) => eats(
            stack,
            &[
                Read(OptWord(Word::Const)),
                Make(DoStar),
                Read(StarTail(left - 1)),
            ],
        ),
        None => Ok(Advance::Stays),
    }
}

/// A keyword that may be missing.
pub fn opt_word(
    stack: &mut Vec<Symbol>,
    keyword: Word,
    look: Option<Mark>,
) -> Result<Advance, AllocError>
    ensures { IfOk result (λ r. Expands r (Parts.OptWord keyword) look (reverse stack.old.items) (reverse stack.new.items)) }
{
    if !sorts::is_keyword(keyword, look) {
        return goes(stack, &[Make(DoNoFlag)]);
    }
    match look {
        Some(_) => eats(stack, &[Make(DoFlag)]),
        None => Ok(Advance::Stays),
    }
}

/// A punctuator that may be missing.
pub fn opt_sign(
    stack: &mut Vec<Symbol>,
    sign: Punct,
    look: Option<Mark>,
) -> Result<Advance, AllocError>
    ensures { IfOk result (λ r. Expands r (Parts.OptSign sign) look (reverse stack.old.items) (reverse stack.new.items)) }
{
    if !sorts::is_sign(sign, look) {
        return goes(stack, &[Make(DoNoFlag)]);
    }
    match look {
        Some(_) => eats(stack, &[Make(DoFlag)]),
        None => Ok(Advance::Stays),
    }
}
