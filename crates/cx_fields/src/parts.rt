ghost use Rattle.std.specs.Prelude.{◌≡◌};
ghost use Rattle.cx_fields.specs.Reading.{Gives, unread, text_at, list_at, many_at};
ghost use Rattle.cx_fields.specs.Parts.{instruction_at, code_at, region_at, value_at, initial_at, assertion_at, assertions_at, kind_of};

use crate::{Bounds, ReadFault, Rest, Why};
use cx_code::{Assertion, AssertionKind, Initial, Instruction, Region};
use cx_outside::{Items, Text};
use std::alloc::Global;

/// A list of texts. (This project's own.)
///
/// - `OutOfMemory`: there was no memory.
/// - `Bad`: the first fault of its fields.
#[tactic(auto, unfolding(crate::specs::Reading::list_at))]
pub fn texts_of(alloc: Global, rest: Rest) -> Result<(Items<Text>, Rest), ReadFault>
    ensures { Gives (λ x. (x.0, unread x.1)) result (list_at text_at (unread rest.entry)) }
{
    let (count, rest) = rest.number()?;
    let (texts, rest) = each_text(alloc, count, rest)?;
    Ok((texts, rest))
}

fn each_text(alloc: Global, count: u32, start: Rest) -> Result<(Items<Text>, Rest), ReadFault>
    ensures { Gives (λ x. (x.0, unread x.1)) result (many_at text_at count (unread start.entry)) }
{
    let mut items = Items::new(alloc);
    let mut rest = start;
    for _ in 0..count {
        let (item, after) = rest.text(alloc)?;
        items.push(item)?;
        rest = after;
    }
    Ok((items, rest))
}

/// An instruction, whose index is judged by the bounds. (This project's own.)
#[tactic(auto, unfolding(crate::specs::Parts::instruction_at))]
fn instruction_of<'a>(bounds: &Bounds, rest: Rest<'a>) -> Result<(Instruction, Rest<'a>), ReadFault>
    ensures { Gives (λ x. (x.0, unread x.1)) result (instruction_at bounds.now (unread rest.entry)) }
{
    let (code, rest) = rest.byte()?;
    let (a, rest) = rest.number_in(0, bounds.operand_end(code), Why::Index)?;
    let (b, rest) = rest.number()?;
    Ok((Instruction { code, a, b }, rest))
}

/// The instructions of a function. `room` is the first count of them that passes the limit of the file. Indices are
/// judged by the bounds. (This project's own.)
///
/// - `OutOfMemory`: there was no memory.
/// - `Bad`: the first fault of its fields.
#[tactic(auto, unfolding(crate::specs::Parts::code_at))]
pub fn code_of<'a>(
    alloc: Global,
    bounds: &Bounds,
    room: u64,
    rest: Rest<'a>,
) -> Result<(Items<Instruction>, Rest<'a>), ReadFault>
    ensures { Gives (λ x. (x.0, unread x.1)) result (code_at bounds.now room (unread rest.entry)) }
{
    let (count, rest) = rest.number_in(0, room, Why::Limit)?;
    let (code, rest) = each_instruction(alloc, bounds, count, rest)?;
    Ok((code, rest))
}

fn each_instruction<'a>(
    alloc: Global,
    bounds: &Bounds,
    count: u32,
    start: Rest<'a>,
) -> Result<(Items<Instruction>, Rest<'a>), ReadFault>
    ensures { Gives (λ x. (x.0, unread x.1)) result (many_at (instruction_at bounds.now) count (unread start.entry)) }
{
    let mut items = Items::new(alloc);
    let mut rest = start;
    for _ in 0..count {
        let (item, after) = instruction_of(bounds, rest)?;
        items.push(item)?;
        rest = after;
    }
    Ok((items, rest))
}

#[tactic(auto, unfolding(crate::specs::Parts::region_at))]
fn region_of<'a>(bounds: &Bounds, rest: Rest<'a>) -> Result<(Region, Rest<'a>), ReadFault>
    ensures { Gives (λ x. (x.0, unread x.1)) result (region_at bounds.now (unread rest.entry)) }
{
    let (start, rest) = rest.number()?;
    let (end, rest) = rest.number()?;
    let (kind, rest) = rest.byte_in(1, 5, Why::Range)?;
    let (of, rest) = rest.number_in(0, bounds.caught_end(kind), Why::Index)?;
    let (target, rest) = rest.number()?;
    let (depth, rest) = rest.number()?;
    let region = Region {
        start,
        end,
        kind,
        of,
        target,
        depth,
    };
    Ok((region, rest))
}

/// The unwind table of a function, whose types are judged by the bounds. (This project's own.)
///
/// - `OutOfMemory`: there was no memory.
/// - `Bad`: the first fault of its fields.
#[tactic(auto, unfolding(crate::specs::Reading::list_at))]
pub fn regions_of<'a>(
    alloc: Global,
    bounds: &Bounds,
    rest: Rest<'a>,
) -> Result<(Items<Region>, Rest<'a>), ReadFault>
    ensures { Gives (λ x. (x.0, unread x.1)) result (list_at (region_at bounds.now) (unread rest.entry)) }
{
    let (count, rest) = rest.number()?;
    let (regions, rest) = each_region(alloc, bounds, count, rest)?;
    Ok((regions, rest))
}

fn each_region<'a>(
    alloc: Global,
    bounds: &Bounds,
    count: u32,
    start: Rest<'a>,
) -> Result<(Items<Region>, Rest<'a>), ReadFault>
    ensures { Gives (λ x. (x.0, unread x.1)) result (many_at (region_at bounds.now) count (unread start.entry)) }
{
    let mut items = Items::new(alloc);
    let mut rest = start;
    for _ in 0..count {
        let (item, after) = region_of(bounds, rest)?;
        items.push(item)?;
        rest = after;
    }
    Ok((items, rest))
}

/// What a global holds at first. (This project's own.)
///
/// `Bad`: the first fault of its fields.
#[tactic(auto, unfolding(crate::specs::Parts::initial_at))]
pub fn initial_of(rest: Rest) -> Result<(Initial, Rest), ReadFault>
    ensures { Gives (λ x. (x.0, unread x.1)) result (initial_at (unread rest.entry)) }
{
    let (sort, rest) = rest.byte_in(0, 2, Why::Range)?;
    let (value, rest) = value_of(sort, rest)?;
    Ok((value, rest))
}

#[tactic(auto, unfolding(crate::specs::Parts::value_at))]
fn value_of(sort: u8, rest: Rest) -> Result<(Initial, Rest), ReadFault>
    ensures { Gives (λ x. (x.0, unread x.1)) result (value_at sort (unread rest.entry)) }
{
    if sort == 0 {
        let (high, rest) = rest.number()?;
        let (low, rest) = rest.number()?;
        Ok((Initial::Number(high, low), rest))
    } else {
        let (_, rest) = rest.zero()?;
        let (_, rest) = rest.zero()?;
        Ok((Initial::Null, rest))
    }
}

fn kind_of(code: u8) -> AssertionKind
    ensures { result ≡ kind_of code }
{
    match code {
        1 => AssertionKind::Pre,
        2 => AssertionKind::Post,
        _ => AssertionKind::Assert,
    }
}

#[tactic(auto, unfolding(crate::specs::Parts::assertion_at))]
fn assertion_of<'a>(bounds: &Bounds, rest: Rest<'a>) -> Result<(Assertion, Rest<'a>), ReadFault>
    ensures { Gives (λ x. (x.0, unread x.1)) result (assertion_at bounds.now (unread rest.entry)) }
{
    let (function, rest) = rest.number_in(0, bounds.functions, Why::Index)?;
    let (kind, rest) = rest.byte_in(1, 4, Why::Range)?;
    let (ordinal, rest) = rest.number_in(1, 1 << 32, Why::Range)?;
    let (file, rest) = rest.number_in(0, bounds.texts, Why::Index)?;
    let (comment, rest) = rest.number_in(0, bounds.texts, Why::Index)?;
    let (line, rest) = rest.number()?;
    let (column, rest) = rest.number()?;
    let assertion = Assertion {
        function,
        kind: kind_of(kind),
        ordinal,
        file,
        comment,
        line,
        column,
    };
    Ok((assertion, rest))
}

/// The contract assertions of a file, whose indices are judged by the bounds. (This project's own.)
///
/// - `OutOfMemory`: there was no memory.
/// - `Bad`: the first fault of its fields.
#[tactic(auto, unfolding(crate::specs::Parts::assertions_at))]
pub fn assertions_of<'a>(
    alloc: Global,
    bounds: &Bounds,
    rest: Rest<'a>,
) -> Result<(Items<Assertion>, Rest<'a>), ReadFault>
    ensures { Gives (λ x. (x.0, unread x.1)) result (assertions_at bounds.now (unread rest.entry)) }
{
    let (count, rest) = rest.number_in(0, 4_097, Why::Limit)?;
    let (assertions, rest) = each_assertion(alloc, bounds, count, rest)?;
    Ok((assertions, rest))
}

fn each_assertion<'a>(
    alloc: Global,
    bounds: &Bounds,
    count: u32,
    start: Rest<'a>,
) -> Result<(Items<Assertion>, Rest<'a>), ReadFault>
    ensures { Gives (λ x. (x.0, unread x.1)) result (many_at (assertion_at bounds.now) count (unread start.entry)) }
{
    let mut items = Items::new(alloc);
    let mut rest = start;
    for _ in 0..count {
        let (item, after) = assertion_of(bounds, rest)?;
        items.push(item)?;
        rest = after;
    }
    Ok((items, rest))
}
