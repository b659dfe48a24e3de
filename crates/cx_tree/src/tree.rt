//! The tree of a list of marks, or where the list has a syntax fault.

ghost use Rattle.std.specs.Prelude.{◌≡◌, ◌∷◌, ◌+◌, ◌^◌, ◌<◌, ◌≤◌, reverse, length, IfOk, OnOk, MatchResult};
ghost use Rattle.cx_parser.specs.Reads.{IsFault};
ghost use Rattle.cx_parser.specs.declared.recognizer.ParseFault.TheVariants.{OutOfMemory};
ghost use Rattle.cx_syntax.specs.Place.{IsTree};
ghost use Rattle.cx_syntax.specs.View.{unit_of};
ghost use Rattle.cx_table.specs.Steps.{Acts};
ghost use Rattle.cx_tree.specs.Stacks.{Makes, Ready, Settles, Stands, Steps, TopReady};
ghost use Rattle.cx_values.specs.Values.{mark_val};
ghost use Rattle.cx_values.specs.View.{values_of};

use cx_acts::perform;
use cx_parser::ParseFault;
use cx_syntax::Mark;
use cx_syntax::tree::UnitTree;
use cx_table::sorts;
use cx_table::symbol::{Act, Part, Symbol};
use cx_table::table::{Advance, expand};
use cx_values::pop::{pop_unit, push};
use cx_values::{PlacedMark, Value};
use std::alloc::{AllocError, Global};

/// How the stacks stand when no more steps are made before a mark is taken, or before the end; this project's own.
#[derive(Clone, Copy)]
pub enum Settled {
    /// The mark is taken, and isn't on the values yet.
    Ate,
    /// No symbol is left.
    Ended,
    /// The symbol on top doesn't take the mark.
    Stuck,
}

// A step of the symbol that was on top. A mark that it takes isn't put on the values.
fn act_on(
    alloc: Global,
    symbols: &mut Vec<Symbol>,
    values: &mut Vec<Value>,
    top: Symbol,
    look: Option<Mark>,
) -> Result<Advance, AllocError>
    requires { Ready top (values_of values.old.items) }
    ensures acts { IfOk result (λ r. Acts r top look (reverse symbols.old.items) (reverse symbols.new.items)) }
    ensures makes { OnOk result (Makes top (values_of values.old.items) (values_of values.new.items)) }
{
    match top {
        Symbol::Make(act) => {
            perform(alloc, act, values)?;
            Ok(Advance::Goes)
        }
        Symbol::Expect(kind) => match look {
            Some(mark) => {
                if sorts::agrees(kind, mark) {
                    Ok(Advance::Eats)
                } else {
                    Ok(Advance::Stays)
                }
            }
            None => Ok(Advance::Stays),
        },
        Symbol::Read(part) => expand(symbols, part, look),
    }
}

// One step from what is on top, if something is.
fn one_step(
    alloc: Global,
    symbols: &mut Vec<Symbol>,
    values: &mut Vec<Value>,
    look: Option<Mark>,
) -> Result<Option<Advance>, AllocError>
    requires { TopReady (reverse symbols.old.items) (values_of values.old.items) }
    ensures { IfOk result (λ r. Steps r look (reverse symbols.old.items) (values_of values.old.items) (reverse symbols.new.items) (values_of values.new.items)) }
{
    match symbols.pop() {
        None => Ok(None),
        Some(top) => {
            let taken = act_on(alloc, symbols, values, top, look)?;
            Ok(Some(taken))
        }
    }
}

// The steps up to the mark at a place, which is taken and not put on the values; past the last mark, up to the end.
#[tactic(auto, using(crate::proofs::Stands::top_ready, crate::proofs::Stands::goes, crate::proofs::Stands::eats))]
fn settle(
    alloc: Global,
    symbols: &mut Vec<Symbol>,
    values: &mut Vec<Value>,
    marks: &[Mark],
    at: usize,
) -> Result<Settled, AllocError>
    requires inside { at ≤ length marks.now }
    requires reached { Stands marks.now at (reverse symbols.old.items) (values_of values.old.items) }
    ensures { IfOk result (λ r. Settles r marks.now at (reverse symbols.new.items) (values_of values.new.items)) }
{
    let look = marks.get(at).copied();
    'steps: loop {
        match one_step(alloc, symbols, values, look)? {
            None => return Ok(Settled::Ended),
            Some(Advance::Goes) => {}
            Some(Advance::Eats) => return Ok(Settled::Ate),
            Some(Advance::Stays) => return Ok(Settled::Stuck),
        }
    }
}

// Puts a mark that was taken on the values.
fn keep(values: &mut Vec<Value>, mark: Mark, at: u32) -> Result<(), ParseFault>
    ensures { MatchResult result (λ _. values_of values.new.items ≡ mark_val mark at ∷ values_of values.old.items) (λ e. e ≡ OutOfMemory) }
{
    match push(values, Value::Mark(PlacedMark { mark, at })) {
        Ok(()) => Ok(()),
        Err(_) => Err(ParseFault::OutOfMemory),
    }
}

// The steps up to the end of the mark at a place.
#[tactic(auto, using(crate::proofs::Stands::kept))]
fn read(
    alloc: Global,
    symbols: &mut Vec<Symbol>,
    values: &mut Vec<Value>,
    marks: &[Mark],
    at: usize,
) -> Result<(), ParseFault>
    requires few { length marks.now < 2 ^ 32 }
    requires inside { at < length marks.now }
    requires reached { Stands marks.now at (reverse symbols.old.items) (values_of values.old.items) }
    ensures { MatchResult result (λ _. Stands marks.now (at + 1) (reverse symbols.new.items) (values_of values.new.items)) (IsFault marks.now) }
{
    match settle(alloc, symbols, values, marks, at) {
        Ok(Settled::Ate) => {
            keep(values, marks[at], at as u32)?;
            Ok(())
        }
        Ok(Settled::Ended) => Err(ParseFault::SyntaxAt(at)),
        Ok(Settled::Stuck) => Err(ParseFault::SyntaxAt(at)),
        Err(_) => Err(ParseFault::OutOfMemory),
    }
}

// The steps after the last mark, and the tree that is then the only value.
#[tactic(auto, using(crate::proofs::Stands::top_unit, crate::proofs::Stands::none_left))]
fn read_end(
    alloc: Global,
    symbols: &mut Vec<Symbol>,
    values: &mut Vec<Value>,
    marks: &[Mark],
) -> Result<UnitTree, ParseFault>
    requires { Stands marks.now (length marks.now) (reverse symbols.old.items) (values_of values.old.items) }
    ensures { MatchResult result (λ tree. IsTree marks.now (unit_of tree)) (IsFault marks.now) }
{
    match settle(alloc, symbols, values, marks, marks.len()) {
        Ok(Settled::Ended) => Ok(pop_unit(values)),
        Ok(Settled::Ate) => Err(ParseFault::SyntaxAt(marks.len())),
        Ok(Settled::Stuck) => Err(ParseFault::SyntaxAt(marks.len())),
        Err(_) => Err(ParseFault::OutOfMemory),
    }
}

/// The tree of the marks of a unit: the only shaped one that spells them, each at its place in the list, after [gram].
/// The boxes and lists of the tree are of `alloc`. The list is short enough that a place is a `u32`.
///
/// Where no tree spells the list the error is `SyntaxAt`, with the length of the longest prefix that begins a
/// grammatical list (this project's own); `OutOfMemory` is want of memory alone.
#[tactic(auto, using(crate::proofs::Stands::first))]
pub fn parse(alloc: Global, marks: &[Mark]) -> Result<UnitTree, ParseFault>
    requires few { length marks.now < 2 ^ 32 }
    ensures { MatchResult result (λ tree. IsTree marks.now (unit_of tree)) (IsFault marks.now) }
{
    let mut symbols = Vec::new(alloc);
    if symbols.push(Symbol::Read(Part::ItemsPart)).is_err() {
        return Err(ParseFault::OutOfMemory);
    }
    if symbols.push(Symbol::Make(Act::DoNoItems)).is_err() {
        return Err(ParseFault::OutOfMemory);
    }
    let mut values = Vec::new(alloc);
    for at in 0..marks.len() {
        read(alloc, &mut symbols, &mut values, marks, at)?;
    }
    read_end(alloc, &mut symbols, &mut values, marks)
}
