//! The table of members.

ghost use Rattle.std.specs.Prelude.{◌≡◌, ◌++◌, reverse, IfOk};
ghost use Rattle.cx_table.specs.Steps.{Expands};
ghost use Rattle.cx_table.specs.declared.symbol.Part.TheVariants as Parts;

use crate::sorts;
use crate::stack::{eats, goes};
use crate::symbol::Act::*;
use crate::symbol::Kind::*;
use crate::symbol::Part::*;
use crate::symbol::Symbol::*;
use crate::symbol::{CLOSE_PAREN, COLON, NAME, OPEN_PAREN, SEMICOLON, Symbol};
use crate::table::Advance;
use cx_syntax::{Mark, Punct, Word};
use std::alloc::AllocError;

const CONSTRUCTOR_REST: [Symbol; 4] = [
    Read(ParamsRest),
    Read(SuffixPart),
    Read(MakingPart),
    Make(DoConstructor),
];

const METHOD_REST: [Symbol; 5] = [
    Read(ParamsRest),
    Read(OptWord(Word::Const)),
    Read(SuffixPart),
    Read(TailPart),
    Make(DoMethod),
];

/// The members of a class.
pub fn members_part(stack: &mut Vec<Symbol>, look: Option<Mark>) -> Result<Advance, AllocError>
    ensures { IfOk result (λ r. Expands r Parts.MembersPart look (reverse stack.old.items) (reverse stack.new.items)) }
{
    if sorts::is_sign(Punct::CloseBrace, look) {
        goes(stack, &[])
    } else {
        goes(
            stack,
            &[Read(MemberPart), Make(DoMoreMembers), Read(MembersPart)],
        )
    }
}

/// A member.
pub fn member_part(stack: &mut Vec<Symbol>, look: Option<Mark>) -> Result<Advance, AllocError>
    ensures { IfOk result (λ r. Expands r Parts.MemberPart look (reverse stack.old.items) (reverse stack.new.items)) }
{
    match look {
        Some(Mark::Word(Word::Public)) => eats(stack, &[COLON, Make(DoAccess)]),
        Some(Mark::Word(Word::Private)) => eats(stack, &[COLON, Make(DoAccess)]),
        Some(Mark::Word(Word::Virtual)) => eats(stack, &[Make(DoFlag), Read(VirtualRest)]),
        Some(Mark::Word(Word::Explicit)) => eats(
            stack,
            &[
                Make(DoFlag),
                Expect(AClass),
                OPEN_PAREN,
                Read(ParamsRest),
                Read(SuffixPart),
                Read(MakingPart),
                Make(DoConstructor),
            ],
        ),
        Some(Mark::Punct(Punct::Tilde)) => goes(stack, &[Make(DoNoFlag), Read(VirtualRest)]),
        _ => goes(stack, &[Make(DoNoFlag), Read(MemberRest)]),
    }
}

/// A constructor, a field or a member function without `virtual`.
pub fn member_rest(stack: &mut Vec<Symbol>, look: Option<Mark>) -> Result<Advance, AllocError>
    ensures { IfOk result (λ r. Expands r Parts.MemberRest look (reverse stack.old.items) (reverse stack.new.items)) }
{
    match look {
        Some(Mark::Class(_)) => eats(stack, &[Read(MemberClass)]),
        _ => goes(stack, &[Read(TypePart), NAME, Read(MemberName)]),
    }
}

/// After a class name at the beginning of a member.
pub fn member_class(stack: &mut Vec<Symbol>, look: Option<Mark>) -> Result<Advance, AllocError>
    ensures { IfOk result (λ r. Expands r Parts.MemberClass look (reverse stack.old.items) (reverse stack.new.items)) }
{
    match look {
        Some(Mark::Punct(Punct::OpenParen)) => eats(stack, &CONSTRUCTOR_REST),
        _ => goes(
            stack,
            &[
                Make(DoClassBase),
                Make(DoPlain),
                Read(StarTail(8)),
                Read(OptSign(Punct::And)),
                Make(DoType),
                NAME,
                Read(MemberName),
            ],
        ),
    }
}

/// After the type and the name of a member.
pub fn member_name(stack: &mut Vec<Symbol>, look: Option<Mark>) -> Result<Advance, AllocError>
    ensures { IfOk result (λ r. Expands r Parts.MemberName look (reverse stack.old.items) (reverse stack.new.items)) }
{
    match look {
        Some(Mark::Punct(Punct::OpenParen)) => eats(stack, &METHOD_REST),
        _ => goes(stack, &[SEMICOLON, Make(DoField)]),
    }
}

/// After `virtual`, or at `~`.
pub fn virtual_rest(stack: &mut Vec<Symbol>, look: Option<Mark>) -> Result<Advance, AllocError>
    ensures { IfOk result (λ r. Expands r Parts.VirtualRest look (reverse stack.old.items) (reverse stack.new.items)) }
{
    match look {
        Some(Mark::Punct(Punct::Tilde)) => eats(
            stack,
            &[
                Expect(AClass),
                OPEN_PAREN,
                CLOSE_PAREN,
                Read(SuffixPart),
                Read(TailPart),
                Make(DoDestructor),
            ],
        ),
        _ => goes(
            stack,
            &[
                Read(TypePart),
                NAME,
                OPEN_PAREN,
                Read(ParamsRest),
                Read(OptWord(Word::Const)),
                Read(SuffixPart),
                Read(TailPart),
                Make(DoMethod),
            ],
        ),
    }
}
