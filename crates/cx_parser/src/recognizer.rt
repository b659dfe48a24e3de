//! Whether a list of marks is grammatical, and where it isn't.

ghost use Rattle.std.specs.Prelude.{◌≡◌, ◌<◌, reverse, length, drop, IfOk, MatchResult};
ghost use Rattle.cx_syntax.specs.Place.{Grammatical};
ghost use Rattle.cx_table.specs.Steps.{Acts};
ghost use Rattle.cx_parser.specs.Reads.{IsFault, Reads, ReadsEnd, Settles, Stands, Steps};

use cx_syntax::Mark;
use cx_table::sorts;
use cx_table::symbol::{Act, Part, Symbol};
use cx_table::table::{Advance, expand};
use std::alloc::{AllocError, Global};

/// A step, or that nothing is on the stack.
#[derive(Clone, Copy)]
pub enum Progress {
    Of(Advance),
    Nothing,
}

/// How the stack stands when no more steps are made with a token.
#[derive(Clone, Copy)]
pub enum Settled {
    Ate,
    Ended,
    Stuck,
}

/// Why a list of marks has no tree.
#[derive(Clone, Copy, Debug, PartialEq, Eq)]
pub enum ParseFault {
    /// Want of memory.
    OutOfMemory,
    /// The length of the longest prefix that begins a grammatical list.
    SyntaxAt(usize),
}

// A step of the symbol that was on top.
fn act_on(stack: &mut Vec<Symbol>, top: Symbol, look: Option<Mark>) -> Result<Advance, AllocError>
    ensures { IfOk result (λ r. Acts r top look (reverse stack.old.items) (reverse stack.new.items)) }
{
    match top {
        Symbol::Make(_) => Ok(Advance::Goes),
        Symbol::Expect(kind) => match look {
            Some(m) => {
                if sorts::agrees(kind, m) {
                    Ok(Advance::Eats)
                } else {
                    Ok(Advance::Stays)
                }
            }
            None => Ok(Advance::Stays),
        },
        Symbol::Read(part) => expand(stack, part, look),
    }
}

// One step from what is on top.
fn one_step(stack: &mut Vec<Symbol>, look: Option<Mark>) -> Result<Progress, AllocError>
    ensures { IfOk result (λ r. Steps r look (reverse stack.old.items) (reverse stack.new.items)) }
{
    match stack.pop() {
        None => Ok(Progress::Nothing),
        Some(top) => {
            let taken = act_on(stack, top, look)?;
            Ok(Progress::Of(taken))
        }
    }
}

// The steps up to the next token that is taken.
#[tactic(auto, using(crate::proofs::Waits::silent_none, crate::proofs::Waits::silent_more))]
fn settle(stack: &mut Vec<Symbol>, look: Option<Mark>) -> Result<Settled, AllocError>
    ensures { IfOk result (λ r. Settles r look (reverse stack.old.items) (reverse stack.new.items)) }
{
    'steps: loop {
        match one_step(stack, look)? {
            Progress::Nothing => return Ok(Settled::Ended),
            Progress::Of(Advance::Goes) => {}
            Progress::Of(Advance::Eats) => return Ok(Settled::Ate),
            Progress::Of(Advance::Stays) => return Ok(Settled::Stuck),
        }
    }
}

// The steps up to the end of the mark at a place.
#[tactic(auto, using(crate::proofs::Reached::reads))]
fn read(stack: &mut Vec<Symbol>, marks: &[Mark], at: usize) -> Result<Settled, AllocError>
    requires inside { at < length marks.now }
    requires reached { Stands marks.now at (reverse stack.old.items) }
    ensures { IfOk result (λ r. Reads r marks.now at (reverse stack.new.items)) }
{
    let mark = marks[at];
    settle(stack, Some(mark))
}

// The steps after the last mark.
#[tactic(auto, using(crate::proofs::Reached::reads_end))]
fn read_end(stack: &mut Vec<Symbol>, marks: &[Mark]) -> Result<Settled, AllocError>
    requires { Stands marks.now (length marks.now) (reverse stack.old.items) }
    ensures { IfOk result (λ r. ReadsEnd r marks.now) }
{
    settle(stack, None)
}

/// Whether the marks of a unit are grammatical, and if not, the exact place of the syntax fault.
#[tactic(auto, using(crate::proofs::Reached::at_first))]
pub fn recognize(alloc: Global, marks: &[Mark]) -> Result<(), ParseFault>
    ensures { MatchResult result (λ _. Grammatical marks.now) (IsFault marks.now) }
{
    let mut stack = Vec::new(alloc);
    if stack.push(Symbol::Read(Part::ItemsPart)).is_err() {
        return Err(ParseFault::OutOfMemory);
    }
    if stack.push(Symbol::Make(Act::DoNoItems)).is_err() {
        return Err(ParseFault::OutOfMemory);
    }
    for at in 0..marks.len() {
        match read(&mut stack, marks, at) {
            Ok(Settled::Ate) => {}
            Ok(Settled::Ended) => return Err(ParseFault::SyntaxAt(at)),
            Ok(Settled::Stuck) => return Err(ParseFault::SyntaxAt(at)),
            Err(_) => return Err(ParseFault::OutOfMemory),
        }
    }
    match read_end(&mut stack, marks) {
        Ok(Settled::Ended) => Ok(()),
        Ok(Settled::Ate) => Err(ParseFault::SyntaxAt(marks.len())),
        Ok(Settled::Stuck) => Err(ParseFault::SyntaxAt(marks.len())),
        Err(_) => Err(ParseFault::OutOfMemory),
    }
}
