//! The table of expressions.

ghost use Rattle.std.specs.Prelude.{◌≡◌, ◌++◌, reverse, IfOk};
ghost use Rattle.cx_table.specs.Steps.{Expands};
ghost use Rattle.cx_table.specs.declared.symbol.Part.TheVariants as Parts;

use crate::sorts;
use crate::stack::{eats, goes};
use crate::symbol::Act::*;
use crate::symbol::Part::*;
use crate::symbol::Symbol::*;
use crate::symbol::{CLOSE_PAREN, COLON, GREATER, LESS, NAME, OPEN_PAREN, SCOPE, Symbol};
use crate::table::Advance;
use cx_syntax::{Mark, Punct, Word, mark};
use std::alloc::AllocError;

/// After the left operand of an assignment or of `?:`.
pub fn assign_tail(stack: &mut Vec<Symbol>, look: Option<Mark>) -> Result<Advance, AllocError>
    ensures { IfOk result (λ r. Expands r Parts.AssignTail look (reverse stack.old.items) (reverse stack.new.items)) }
{
    if !sorts::is_at(11, look) {
        return goes(stack, &[]);
    }
    match look {
        Some(Mark::Punct(p)) => if sorts::may_assign(p) {
            eats(stack, &[Read(Assign), Make(DoAssign)])
        } else {
            eats(stack, &[Read(Assign), COLON, Read(Assign), Make(DoChoose)])
        },
        _ => Ok(Advance::Stays),
    }
}

/// After the condition of `?:` where no assignment may stand.
pub fn cond_tail(stack: &mut Vec<Symbol>, look: Option<Mark>) -> Result<Advance, AllocError>
    ensures { IfOk result (λ r. Expands r Parts.CondTail look (reverse stack.old.items) (reverse stack.new.items)) }
{
    if !sorts::is_sign(Punct::Question, look) {
        return goes(stack, &[]);
    }
    match look {
        Some(_) => eats(stack, &[Read(Assign), COLON, Read(Assign), Make(DoChoose)]),
        None => Ok(Advance::Stays),
    }
}

/// An operand of a level.
pub fn operand(
    stack: &mut Vec<Symbol>,
    level: u8,
    look: Option<Mark>,
) -> Result<Advance, AllocError>
    ensures { IfOk result (λ r. Expands r (Parts.Operand level) look (reverse stack.old.items) (reverse stack.new.items)) }
{
    if level > 0 {
        goes(stack, &[Read(Operand(level - 1)), Read(LevelTail(level))])
    } else if sorts::begins_unary(look) {
        match look {
            Some(_) => eats(stack, &[Read(Operand(0)), Make(DoUnary)]),
            None => Ok(Advance::Stays),
        }
    } else {
        goes(stack, &[Read(Primary), Read(PostTail)])
    }
}

/// After an operand of a level.
pub fn level_tail(
    stack: &mut Vec<Symbol>,
    level: u8,
    look: Option<Mark>,
) -> Result<Advance, AllocError>
    ensures { IfOk result (λ r. Expands r (Parts.LevelTail level) look (reverse stack.old.items) (reverse stack.new.items)) }
{
    if level == 0 {
        return Ok(Advance::Stays);
    }
    if !sorts::is_at(level, look) {
        return goes(stack, &[]);
    }
    match look {
        Some(_) => eats(
            stack,
            &[
                Read(Operand(level - 1)),
                Make(DoBinary),
                Read(LevelTail(level)),
            ],
        ),
        None => Ok(Advance::Stays),
    }
}

/// After a postfix expression.
pub fn post_tail(stack: &mut Vec<Symbol>, look: Option<Mark>) -> Result<Advance, AllocError>
    ensures { IfOk result (λ r. Expands r Parts.PostTail look (reverse stack.old.items) (reverse stack.new.items)) }
{
    if !sorts::is_at(0, look) {
        return goes(stack, &[]);
    }
    match look {
        Some(Mark::Punct(p)) => if sorts::steps(p) {
            eats(stack, &[Make(DoStepped), Read(PostTail)])
        } else if sorts::selects(p) {
            eats(stack, &[NAME, Make(DoMember), Read(PostTail)])
        } else if sorts::is_open_paren(p) {
            eats(stack, &[Read(ArgsRest), Make(DoCall), Read(PostTail)])
        } else {
            Ok(Advance::Stays)
        },
        _ => Ok(Advance::Stays),
    }
}

/// A primary expression.
pub fn primary(stack: &mut Vec<Symbol>, look: Option<Mark>) -> Result<Advance, AllocError>
    ensures { IfOk result (λ r. Expands r Parts.Primary look (reverse stack.old.items) (reverse stack.new.items)) }
{
    match look {
        None => Ok(Advance::Stays),
        Some(m) => if sorts::leaf(m) {
            eats(stack, &[Make(DoLeaf)])
        } else {
            match m {
                Mark::Class(_) => eats(stack, &[OPEN_PAREN, Read(ArgsRest), Make(DoTemporary)]),
                Mark::Std => eats(stack, &[SCOPE, Read(StdRest)]),
                Mark::Word(k) => if sorts::casts(k) {
                    eats(
                        stack,
                        &[OPEN_PAREN, Read(Assign), CLOSE_PAREN, Make(DoWordCast)],
                    )
                } else {
                    match k {
                        Word::StaticCast => eats(
                            stack,
                            &[
                                LESS,
                                Read(TypePart),
                                GREATER,
                                OPEN_PAREN,
                                Read(Assign),
                                CLOSE_PAREN,
                                Make(DoStaticCast),
                            ],
                        ),
                        _ => Ok(Advance::Stays),
                    }
                },
                Mark::Punct(p) => if sorts::is_open_paren(p) {
                    eats(stack, &[Read(Assign), CLOSE_PAREN, Make(DoParen)])
                } else {
                    Ok(Advance::Stays)
                },
                _ => Ok(Advance::Stays),
            }
        },
    }
}

/// After `std ::` in an expression.
pub fn std_rest(stack: &mut Vec<Symbol>, look: Option<Mark>) -> Result<Advance, AllocError>
    ensures { IfOk result (λ r. Expands r Parts.StdRest look (reverse stack.old.items) (reverse stack.new.items)) }
{
    match look {
        Some(Mark::Name(n)) => if n == mark::CONTRACTS {
            eats(stack, &[Read(StdMore)])
        } else {
            eats(stack, &[Make(DoStandard)])
        },
        Some(Mark::Class(n)) => if n == mark::CONTRACTS {
            eats(stack, &[SCOPE, NAME, SCOPE, NAME, Make(DoLibrary)])
        } else {
            Ok(Advance::Stays)
        },
        _ => Ok(Advance::Stays),
    }
}

/// After `std :: contracts` in an expression.
pub fn std_more(stack: &mut Vec<Symbol>, look: Option<Mark>) -> Result<Advance, AllocError>
    ensures { IfOk result (λ r. Expands r Parts.StdMore look (reverse stack.old.items) (reverse stack.new.items)) }
{
    if !sorts::is_sign(Punct::Scope, look) {
        return goes(stack, &[Make(DoStandard)]);
    }
    match look {
        Some(_) => eats(stack, &[NAME, SCOPE, NAME, Make(DoLibrary)]),
        None => Ok(Advance::Stays),
    }
}

/// After the `(` of arguments.
pub fn args_rest(stack: &mut Vec<Symbol>, look: Option<Mark>) -> Result<Advance, AllocError>
    ensures { IfOk result (λ r. Expands r Parts.ArgsRest look (reverse stack.old.items) (reverse stack.new.items)) }
{
    if !sorts::is_sign(Punct::CloseParen, look) {
        return goes(
            stack,
            &[
                Read(Assign),
                Make(DoOne),
                Read(SeveralTail),
                CLOSE_PAREN,
                Make(DoArgs),
            ],
        );
    }
    match look {
        Some(_) => eats(stack, &[Make(DoNoArgs)]),
        None => Ok(Advance::Stays),
    }
}

/// After an argument.
pub fn several_tail(stack: &mut Vec<Symbol>, look: Option<Mark>) -> Result<Advance, AllocError>
    ensures { IfOk result (λ r. Expands r Parts.SeveralTail look (reverse stack.old.items) (reverse stack.new.items)) }
{
    if !sorts::is_sign(Punct::Comma, look) {
        return goes(stack, &[]);
    }
    match look {
        Some(_) => eats(stack, &[Read(Assign), Make(DoAlso), Read(SeveralTail)]),
        None => Ok(Advance::Stays),
    }
}

/// An expression that may be missing.
pub fn opt_expr(stack: &mut Vec<Symbol>, look: Option<Mark>) -> Result<Advance, AllocError>
    ensures { IfOk result (λ r. Expands r Parts.OptExpr look (reverse stack.old.items) (reverse stack.new.items)) }
{
    if sorts::is_closing(look) {
        goes(stack, &[Make(DoAbsent)])
    } else {
        goes(stack, &[Read(Assign), Make(DoPresent)])
    }
}
