//! The table of items.

ghost use Rattle.std.specs.Prelude.{◌≡◌, ◌++◌, reverse, IfOk};
ghost use Rattle.cx_table.specs.Steps.{Expands};
ghost use Rattle.cx_table.specs.declared.symbol.Part.TheVariants as Parts;

use crate::sorts;
use crate::stack::{eats, goes};
use crate::symbol::Act::*;
use crate::symbol::Kind::*;
use crate::symbol::Part::*;
use crate::symbol::Symbol::*;
use crate::symbol::{CLOSE_BRACE, CLOSE_PAREN, NAME, OPEN_PAREN, SCOPE, SEMICOLON, Symbol};
use crate::table::Advance;
use cx_syntax::{Mark, Punct, Word};
use std::alloc::AllocError;

/// An item.
pub fn item_part(stack: &mut Vec<Symbol>, look: Option<Mark>) -> Result<Advance, AllocError>
    ensures { IfOk result (λ r. Expands r Parts.ItemPart look (reverse stack.old.items) (reverse stack.new.items)) }
{
    match look {
        Some(Mark::Word(Word::Class)) => eats(stack, &[Expect(AClass), Read(ClassRest)]),
        Some(Mark::Word(Word::Struct)) => eats(stack, &[Expect(AClass), Read(ClassRest)]),
        Some(Mark::Word(Word::Extern)) => eats(
            stack,
            &[Read(TypePart), NAME, SEMICOLON, Make(DoExternal)],
        ),
        Some(Mark::Word(Word::Inline)) => eats(stack, &[Make(DoFlag), Read(Declaration(false))]),
        _ => goes(stack, &[Make(DoNoFlag), Read(Declaration(true))]),
    }
}

/// After a class-key and a class name.
pub fn class_rest(stack: &mut Vec<Symbol>, look: Option<Mark>) -> Result<Advance, AllocError>
    ensures { IfOk result (λ r. Expands r Parts.ClassRest look (reverse stack.old.items) (reverse stack.new.items)) }
{
    match look {
        Some(Mark::Punct(Punct::Semicolon)) => eats(stack, &[Make(DoClassNamed)]),
        Some(Mark::Punct(Punct::OpenBrace)) => eats(
            stack,
            &[
                Make(DoNoMembers),
                Read(MembersPart),
                CLOSE_BRACE,
                SEMICOLON,
                Make(DoClassDefined),
            ],
        ),
        _ => Ok(Advance::Stays),
    }
}

/// A function or, where it may be one, a global.
pub fn declaration(
    stack: &mut Vec<Symbol>,
    global: bool,
    look: Option<Mark>,
) -> Result<Advance, AllocError>
    ensures { IfOk result (λ r. Expands r (Parts.Declaration global) look (reverse stack.old.items) (reverse stack.new.items)) }
{
    match look {
        Some(Mark::Class(_)) => eats(stack, &[Read(AfterClass(global))]),
        _ => goes(stack, &[Read(TypePart), Read(AfterType(global))]),
    }
}

/// After a class name at the beginning of a declaration.
pub fn after_class(
    stack: &mut Vec<Symbol>,
    global: bool,
    look: Option<Mark>,
) -> Result<Advance, AllocError>
    ensures { IfOk result (λ r. Expands r (Parts.AfterClass global) look (reverse stack.old.items) (reverse stack.new.items)) }
{
    match look {
        Some(Mark::Punct(Punct::Scope)) => eats(stack, &[Read(Special)]),
        _ => goes(
            stack,
            &[
                Make(DoClassBase),
                Make(DoPlain),
                Read(StarTail(8)),
                Read(OptSign(Punct::And)),
                Make(DoType),
                Read(AfterType(global)),
            ],
        ),
    }
}

/// After a class name and `::`: a constructor or a destructor.
pub fn special(stack: &mut Vec<Symbol>, look: Option<Mark>) -> Result<Advance, AllocError>
    ensures { IfOk result (λ r. Expands r Parts.Special look (reverse stack.old.items) (reverse stack.new.items)) }
{
    match look {
        Some(Mark::Class(_)) => eats(
            stack,
            &[
                OPEN_PAREN,
                Read(ParamsRest),
                Read(SuffixPart),
                Read(InitsPart),
                Read(BlockPart),
                Make(DoOuterConstructor),
            ],
        ),
        Some(Mark::Punct(Punct::Tilde)) => eats(
            stack,
            &[
                Expect(AClass),
                OPEN_PAREN,
                CLOSE_PAREN,
                Read(SuffixPart),
                Read(BlockPart),
                Make(DoOuterDestructor),
            ],
        ),
        _ => Ok(Advance::Stays),
    }
}

/// After the type of a declaration.
pub fn after_type(
    stack: &mut Vec<Symbol>,
    global: bool,
    look: Option<Mark>,
) -> Result<Advance, AllocError>
    ensures { IfOk result (λ r. Expands r (Parts.AfterType global) look (reverse stack.old.items) (reverse stack.new.items)) }
{
    match look {
        Some(Mark::Name(_)) => eats(stack, &[Read(AfterName(global))]),
        Some(Mark::Class(_)) => eats(
            stack,
            &[
                SCOPE,
                NAME,
                OPEN_PAREN,
                Read(ParamsRest),
                Read(OptWord(Word::Const)),
                Read(SuffixPart),
                Read(BlockPart),
                Make(DoOuterMethod),
            ],
        ),
        _ => Ok(Advance::Stays),
    }
}

/// After the type and the name of a declaration.
pub fn after_name(
    stack: &mut Vec<Symbol>,
    global: bool,
    look: Option<Mark>,
) -> Result<Advance, AllocError>
    ensures { IfOk result (λ r. Expands r (Parts.AfterName global) look (reverse stack.old.items) (reverse stack.new.items)) }
{
    match look {
        Some(Mark::Punct(Punct::OpenParen)) => eats(
            stack,
            &[
                Read(ParamsRest),
                Read(SuffixPart),
                Read(TailPart),
                Make(DoFunction),
            ],
        ),
        Some(Mark::Punct(Punct::Assign)) => if global {
            eats(
                stack,
                &[
                    Read(ConstantPart),
                    Make(DoWithValue),
                    SEMICOLON,
                    Make(DoGlobal),
                ],
            )
        } else {
            Ok(Advance::Stays)
        },
        _ => if global {
            goes(stack, &[Make(DoWithout), SEMICOLON, Make(DoGlobal)])
        } else {
            Ok(Advance::Stays)
        },
    }
}

/// The value of a global.
pub fn constant_part(stack: &mut Vec<Symbol>, look: Option<Mark>) -> Result<Advance, AllocError>
    ensures { IfOk result (λ r. Expands r Parts.ConstantPart look (reverse stack.old.items) (reverse stack.new.items)) }
{
    match look {
        Some(m) => match m {
            Mark::Punct(Punct::Minus) => eats(stack, &[Expect(ANumber), Make(DoNegative)]),
            _ => if sorts::constant(m) {
                eats(stack, &[Make(DoPlainConstant)])
            } else {
                Ok(Advance::Stays)
            },
        },
        None => Ok(Advance::Stays),
    }
}
