//! The table of parameters, specifiers and the ends of functions.

ghost use Rattle.std.specs.Prelude.{◌≡◌, ◌++◌, reverse, IfOk};
ghost use Rattle.cx_table.specs.Sorts.{name_number};
ghost use Rattle.cx_table.specs.Steps.{Expands};
ghost use Rattle.cx_table.specs.declared.symbol.Part.TheVariants as Parts;

use crate::stack::{eats, goes};
use crate::symbol::Act::*;
use crate::symbol::Part::*;
use crate::symbol::Symbol::*;
use crate::symbol::{CLOSE_PAREN, OPEN_PAREN, Symbol};
use crate::table::Advance;
use cx_syntax::{Mark, Punct, mark};
use std::alloc::AllocError;

/// A parameter's name, which may be missing.
pub fn opt_name(stack: &mut Vec<Symbol>, look: Option<Mark>) -> Result<Advance, AllocError>
    ensures { IfOk result (λ r. Expands r Parts.OptName look (reverse stack.old.items) (reverse stack.new.items)) }
{
    match look {
        Some(Mark::Name(_)) => eats(stack, &[Make(DoNamed)]),
        _ => goes(stack, &[Make(DoUnnamed)]),
    }
}

/// After the `(` of parameters.
pub fn params_rest(stack: &mut Vec<Symbol>, look: Option<Mark>) -> Result<Advance, AllocError>
    ensures { IfOk result (λ r. Expands r Parts.ParamsRest look (reverse stack.old.items) (reverse stack.new.items)) }
{
    match look {
        Some(Mark::Punct(Punct::CloseParen)) => eats(stack, &[Make(DoNoParams)]),
        _ => goes(
            stack,
            &[
                Read(ParamPart),
                Make(DoOneParam),
                Read(ParamsTail),
                CLOSE_PAREN,
                Make(DoParams),
            ],
        ),
    }
}

/// After a parameter.
pub fn params_tail(stack: &mut Vec<Symbol>, look: Option<Mark>) -> Result<Advance, AllocError>
    ensures { IfOk result (λ r. Expands r Parts.ParamsTail look (reverse stack.old.items) (reverse stack.new.items)) }
{
    match look {
        Some(Mark::Punct(Punct::Comma)) => eats(
            stack,
            &[Read(ParamPart), Make(DoMoreParams), Read(ParamsTail)],
        ),
        _ => goes(stack, &[]),
    }
}

/// The number of the name that comes next, a class name or not.
fn next_name(look: Option<Mark>) -> Option<u32>
    ensures { result ≡ name_number look }
{
    match look {
        Some(Mark::Name(n)) => Some(n),
        Some(Mark::Class(n)) => Some(n),
        _ => None,
    }
}

/// Specifiers.
pub fn specs_part(stack: &mut Vec<Symbol>, look: Option<Mark>) -> Result<Advance, AllocError>
    ensures { IfOk result (λ r. Expands r Parts.SpecsPart look (reverse stack.old.items) (reverse stack.new.items)) }
{
    match next_name(look) {
        Some(n) => if n == mark::PRE {
            eats(
                stack,
                &[
                    OPEN_PAREN,
                    Read(Cond),
                    CLOSE_PAREN,
                    Make(DoPre),
                    Make(DoMoreSpecs),
                    Read(SpecsPart),
                ],
            )
        } else if n == mark::POST {
            eats(
                stack,
                &[
                    OPEN_PAREN,
                    Read(PostRest),
                    Make(DoMoreSpecs),
                    Read(SpecsPart),
                ],
            )
        } else {
            goes(stack, &[])
        },
        None => goes(stack, &[]),
    }
}

/// After `post (`.
pub fn post_rest(stack: &mut Vec<Symbol>, look: Option<Mark>) -> Result<Advance, AllocError>
    ensures { IfOk result (λ r. Expands r Parts.PostRest look (reverse stack.old.items) (reverse stack.new.items)) }
{
    match look {
        Some(Mark::Name(_)) => eats(stack, &[Read(PostName)]),
        _ => goes(stack, &[Read(Cond), CLOSE_PAREN, Make(DoPost)]),
    }
}

/// A predicate that begins with a name, which was taken.
const NAMED_PREDICATE: [Symbol; 15] = [
    Make(DoLeaf),
    Read(PostTail),
    Read(LevelTail(1)),
    Read(LevelTail(2)),
    Read(LevelTail(3)),
    Read(LevelTail(4)),
    Read(LevelTail(5)),
    Read(LevelTail(6)),
    Read(LevelTail(7)),
    Read(LevelTail(8)),
    Read(LevelTail(9)),
    Read(LevelTail(10)),
    Read(CondTail),
    CLOSE_PAREN,
    Make(DoPost),
];

/// After `post (` and a name.
pub fn post_name(stack: &mut Vec<Symbol>, look: Option<Mark>) -> Result<Advance, AllocError>
    ensures { IfOk result (λ r. Expands r Parts.PostName look (reverse stack.old.items) (reverse stack.new.items)) }
{
    match look {
        Some(Mark::Punct(Punct::Colon)) => eats(
            stack,
            &[Read(Cond), CLOSE_PAREN, Make(DoPostNamed)],
        ),
        _ => goes(stack, &NAMED_PREDICATE),
    }
}

/// The end of a function: `;` or a block.
pub fn tail_part(stack: &mut Vec<Symbol>, look: Option<Mark>) -> Result<Advance, AllocError>
    ensures { IfOk result (λ r. Expands r Parts.TailPart look (reverse stack.old.items) (reverse stack.new.items)) }
{
    match look {
        Some(Mark::Punct(Punct::Semicolon)) => eats(stack, &[Make(DoDeclared)]),
        _ => goes(stack, &[Read(BlockPart), Make(DoDefined)]),
    }
}

/// The end of a constructor in its class.
pub fn making_part(stack: &mut Vec<Symbol>, look: Option<Mark>) -> Result<Advance, AllocError>
    ensures { IfOk result (λ r. Expands r Parts.MakingPart look (reverse stack.old.items) (reverse stack.new.items)) }
{
    match look {
        Some(Mark::Punct(Punct::Semicolon)) => eats(stack, &[Make(DoUnmade)]),
        _ => goes(stack, &[Read(InitsPart), Read(BlockPart), Make(DoMade)]),
    }
}

/// A member initialiser list, which may be missing.
pub fn inits_part(stack: &mut Vec<Symbol>, look: Option<Mark>) -> Result<Advance, AllocError>
    ensures { IfOk result (λ r. Expands r Parts.InitsPart look (reverse stack.old.items) (reverse stack.new.items)) }
{
    match look {
        Some(Mark::Punct(Punct::Colon)) => eats(
            stack,
            &[
                Read(MemberInitPart),
                Make(DoOneInit),
                Read(InitsTail),
                Make(DoInits),
            ],
        ),
        _ => goes(stack, &[Make(DoNoInits)]),
    }
}

/// After a member initialiser.
pub fn inits_tail(stack: &mut Vec<Symbol>, look: Option<Mark>) -> Result<Advance, AllocError>
    ensures { IfOk result (λ r. Expands r Parts.InitsTail look (reverse stack.old.items) (reverse stack.new.items)) }
{
    match look {
        Some(Mark::Punct(Punct::Comma)) => eats(
            stack,
            &[Read(MemberInitPart), Make(DoMoreInits), Read(InitsTail)],
        ),
        _ => goes(stack, &[]),
    }
}
