//! The table of statements.

ghost use Rattle.std.specs.Prelude.{◌≡◌, ◌++◌, reverse, IfOk};
ghost use Rattle.cx_table.specs.Steps.{Expands};
ghost use Rattle.cx_table.specs.declared.symbol.Part.TheVariants as Parts;

use crate::sorts;
use crate::stack::{eats, goes};
use crate::symbol::Act::*;
use crate::symbol::Part::*;
use crate::symbol::Symbol::*;
use crate::symbol::{CLOSE_PAREN, NAME, OPEN_PAREN, SCOPE, SEMICOLON, Symbol};
use crate::table::Advance;
use cx_syntax::{Mark, Punct, Word, mark};
use std::alloc::AllocError;

/// The initialiser of a local variable.
pub fn init_part(stack: &mut Vec<Symbol>, look: Option<Mark>) -> Result<Advance, AllocError>
    ensures { IfOk result (λ r. Expands r Parts.InitPart look (reverse stack.old.items) (reverse stack.new.items)) }
{
    match look {
        Some(Mark::Punct(Punct::Assign)) => eats(stack, &[Read(Assign), Make(DoEquals)]),
        Some(Mark::Punct(Punct::OpenParen)) => eats(
            stack,
            &[
                Read(Assign),
                Make(DoOne),
                Read(SeveralTail),
                CLOSE_PAREN,
                Make(DoParens),
            ],
        ),
        _ => goes(stack, &[Make(DoBare)]),
    }
}

/// An empty statement, an expression statement or a declaration.
pub fn simple_part(stack: &mut Vec<Symbol>, look: Option<Mark>) -> Result<Advance, AllocError>
    ensures { IfOk result (λ r. Expands r Parts.SimplePart look (reverse stack.old.items) (reverse stack.new.items)) }
{
    match look {
        None => Ok(Advance::Stays),
        Some(m) => if sorts::begins_free(m) {
            goes(stack, &[Read(Assign), SEMICOLON, Make(DoEvaluate)])
        } else if sorts::begins_type(m) {
            goes(stack, &[Read(LocalPart), SEMICOLON, Make(DoDeclare)])
        } else {
            match m {
                Mark::Std => eats(stack, &[SCOPE, Read(SimpleStd)]),
                Mark::Punct(Punct::Semicolon) => eats(stack, &[Make(DoEmpty)]),
                _ => Ok(Advance::Stays),
            }
        },
    }
}

/// A declaration that begins with `std :: contracts`.
const LIBRARY_LOCAL: [Symbol; 12] = [
    SCOPE,
    NAME,
    Make(DoLibraryBase),
    Make(DoPlain),
    Read(StarTail(8)),
    Read(OptSign(Punct::And)),
    Make(DoType),
    NAME,
    Read(InitPart),
    Make(DoLocal),
    SEMICOLON,
    Make(DoDeclare),
];

/// An expression statement that begins with `std ::` and a name.
const STANDARD_EXPRESSION: [Symbol; 15] = [
    Make(DoStandard),
    Read(PostTail),
    Read(LevelTail(1)),
    Read(LevelTail(2)),
    Read(LevelTail(3)),
    Read(LevelTail(4)),
    Read(LevelTail(5)),
    Read(LevelTail(6)),
    Read(LevelTail(7)),
    Read(LevelTail(8)),
    Read(LevelTail(9)),
    Read(LevelTail(10)),
    Read(AssignTail),
    SEMICOLON,
    Make(DoEvaluate),
];

/// After `std ::` at the beginning of a statement.
pub fn simple_std(stack: &mut Vec<Symbol>, look: Option<Mark>) -> Result<Advance, AllocError>
    ensures { IfOk result (λ r. Expands r Parts.SimpleStd look (reverse stack.old.items) (reverse stack.new.items)) }
{
    match look {
        Some(Mark::Name(n)) => if n == mark::CONTRACTS {
            eats(stack, &LIBRARY_LOCAL)
        } else {
            eats(stack, &STANDARD_EXPRESSION)
        },
        Some(Mark::Class(n)) => if n == mark::CONTRACTS {
            eats(stack, &LIBRARY_LOCAL)
        } else {
            Ok(Advance::Stays)
        },
        _ => Ok(Advance::Stays),
    }
}

/// A statement.
pub fn stmt_part(stack: &mut Vec<Symbol>, look: Option<Mark>) -> Result<Advance, AllocError>
    ensures { IfOk result (λ r. Expands r Parts.StmtPart look (reverse stack.old.items) (reverse stack.new.items)) }
{
    match look {
        Some(Mark::Word(Word::If)) => eats(
            stack,
            &[
                OPEN_PAREN,
                Read(Assign),
                CLOSE_PAREN,
                Read(StmtPart),
                Read(ElseTail),
            ],
        ),
        Some(Mark::Word(Word::While)) => eats(
            stack,
            &[
                OPEN_PAREN,
                Read(Assign),
                CLOSE_PAREN,
                Read(StmtPart),
                Make(DoWhile),
            ],
        ),
        Some(Mark::Word(Word::For)) => eats(
            stack,
            &[
                OPEN_PAREN,
                Read(SimplePart),
                Read(OptExpr),
                SEMICOLON,
                Read(OptExpr),
                CLOSE_PAREN,
                Read(StmtPart),
                Make(DoFor),
            ],
        ),
        Some(Mark::Word(Word::Return)) => eats(stack, &[Read(OptExpr), SEMICOLON, Make(DoReturn)]),
        Some(Mark::Word(Word::Break)) => eats(stack, &[SEMICOLON, Make(DoBreak)]),
        Some(Mark::Word(Word::Continue)) => eats(stack, &[SEMICOLON, Make(DoContinue)]),
        Some(Mark::Word(Word::Throw)) => eats(stack, &[Read(OptExpr), SEMICOLON, Make(DoThrow)]),
        Some(Mark::Word(Word::Try)) => eats(
            stack,
            &[
                Read(BlockPart),
                Read(HandlerPart),
                Make(DoOneHandler),
                Read(HandlersTail),
                Make(DoTry),
            ],
        ),
        Some(Mark::Word(Word::ContractAssert)) => eats(
            stack,
            &[
                OPEN_PAREN,
                Read(Cond),
                CLOSE_PAREN,
                SEMICOLON,
                Make(DoAssert),
            ],
        ),
        Some(Mark::Punct(Punct::OpenBrace)) => goes(stack, &[Read(BlockPart), Make(DoCompound)]),
        _ => goes(stack, &[Read(SimplePart)]),
    }
}

/// The statements of a block.
pub fn stmts_part(stack: &mut Vec<Symbol>, look: Option<Mark>) -> Result<Advance, AllocError>
    ensures { IfOk result (λ r. Expands r Parts.StmtsPart look (reverse stack.old.items) (reverse stack.new.items)) }
{
    if sorts::is_sign(Punct::CloseBrace, look) {
        goes(stack, &[])
    } else {
        goes(stack, &[Read(StmtPart), Make(DoMoreStmts), Read(StmtsPart)])
    }
}

/// After the first substatement of `if`.
pub fn else_tail(stack: &mut Vec<Symbol>, look: Option<Mark>) -> Result<Advance, AllocError>
    ensures { IfOk result (λ r. Expands r Parts.ElseTail look (reverse stack.old.items) (reverse stack.new.items)) }
{
    match look {
        Some(Mark::Word(Word::Else)) => eats(stack, &[Read(StmtPart), Make(DoBranches)]),
        _ => goes(stack, &[Make(DoBranch)]),
    }
}

/// After a handler.
pub fn handlers_tail(stack: &mut Vec<Symbol>, look: Option<Mark>) -> Result<Advance, AllocError>
    ensures { IfOk result (λ r. Expands r Parts.HandlersTail look (reverse stack.old.items) (reverse stack.new.items)) }
{
    if sorts::is_keyword(Word::Catch, look) {
        goes(
            stack,
            &[Read(HandlerPart), Make(DoMoreHandlers), Read(HandlersTail)],
        )
    } else {
        goes(stack, &[])
    }
}

/// What a handler catches.
pub fn catch_part(stack: &mut Vec<Symbol>, look: Option<Mark>) -> Result<Advance, AllocError>
    ensures { IfOk result (λ r. Expands r Parts.CatchPart look (reverse stack.old.items) (reverse stack.new.items)) }
{
    match look {
        Some(Mark::Punct(Punct::Ellipsis)) => eats(stack, &[Make(DoAnyCatch)]),
        _ => goes(stack, &[Read(ParamPart), Make(DoTypedCatch)]),
    }
}
