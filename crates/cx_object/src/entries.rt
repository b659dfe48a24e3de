ghost use Rattle.std.specs.Prelude.{◌≡◌};
ghost use Rattle.cx_fields.specs.Reading.{Gives, unread, each_at, list_at, many_at};
ghost use Rattle.cx_object.specs.Reading.{type_at, no_value_at, state_at, global_at, body_at, no_body_at, form_at, function_at, code_length, functions_at};

use cx_code::{FunctionBody, FunctionForm, GlobalState, UnitFunction, UnitGlobal, UnitType};
use cx_fields::{Bounds, ReadFault, Rest, Why, code_of, initial_of, regions_of};
use cx_outside::Items;
use std::alloc::Global;

#[tactic(auto, unfolding(crate::specs::Reading::type_at))]
fn type_of<'a>(
    alloc: Global,
    bounds: &Bounds,
    rest: Rest<'a>,
) -> Result<(UnitType, Rest<'a>), ReadFault>
    ensures { Gives (λ x. (x.0, unread x.1)) result (type_at bounds.now (unread rest.entry)) }
{
    let (name, rest) = rest.text(alloc)?;
    let (definition, rest) = rest.text(alloc)?;
    let (leaves, rest) = rest.number_in(1, 257, Why::Range)?;
    let (dropper, rest) = rest.number_in(0, bounds.functions_or_none, Why::Index)?;
    let entry = UnitType {
        name,
        definition,
        leaves,
        dropper,
    };
    Ok((entry, rest))
}

#[tactic(auto, unfolding(cx_fields::specs::Reading::list_at))]
pub(crate) fn types_of<'a>(
    alloc: Global,
    bounds: &Bounds,
    rest: Rest<'a>,
) -> Result<(Items<UnitType>, Rest<'a>), ReadFault>
    ensures { Gives (λ x. (x.0, unread x.1)) result (list_at (type_at bounds.now) (unread rest.entry)) }
{
    let (count, rest) = rest.number()?;
    let (types, rest) = each_type(alloc, bounds, count, rest)?;
    Ok((types, rest))
}

fn each_type<'a>(
    alloc: Global,
    bounds: &Bounds,
    count: u32,
    start: Rest<'a>,
) -> Result<(Items<UnitType>, Rest<'a>), ReadFault>
    ensures { Gives (λ x. (x.0, unread x.1)) result (many_at (type_at bounds.now) count (unread start.entry)) }
{
    let mut items = Items::new(alloc);
    let mut rest = start;
    for _ in 0..count {
        let (item, after) = type_of(alloc, bounds, rest)?;
        items.push(item)?;
        rest = after;
    }
    Ok((items, rest))
}

/// The sort and the halves of a global that the unit doesn't define, which are zero.
#[tactic(auto, unfolding(crate::specs::Reading::no_value_at))]
fn no_value(rest: Rest) -> Result<(u32, Rest), ReadFault>
    ensures { Gives (λ x. (x.0, unread x.1)) result (no_value_at (unread rest.entry)) }
{
    let (_, rest) = rest.byte_in(0, 1, Why::Range)?;
    let (_, rest) = rest.zero()?;
    rest.zero()
}

#[tactic(auto, unfolding(crate::specs::Reading::state_at))]
fn state_of(defined: u8, rest: Rest) -> Result<(GlobalState, Rest), ReadFault>
    ensures { Gives (λ x. (x.0, unread x.1)) result (state_at defined (unread rest.entry)) }
{
    match defined {
        0 => {
            let (_, rest) = no_value(rest)?;
            Ok((GlobalState::Named, rest))
        }
        1 => {
            let (value, rest) = initial_of(rest)?;
            Ok((GlobalState::Defined(value), rest))
        }
        _ => {
            let (_, rest) = no_value(rest)?;
            Ok((GlobalState::Declared, rest))
        }
    }
}

#[tactic(auto, unfolding(crate::specs::Reading::global_at))]
fn global_of(alloc: Global, rest: Rest) -> Result<(UnitGlobal, Rest), ReadFault>
    ensures { Gives (λ x. (x.0, unread x.1)) result (global_at (unread rest.entry)) }
{
    let (name, rest) = rest.text(alloc)?;
    let (type_name, rest) = rest.text(alloc)?;
    let (defined, rest) = rest.byte_in(0, 3, Why::Range)?;
    let (state, rest) = state_of(defined, rest)?;
    let entry = UnitGlobal {
        name,
        type_name,
        state,
    };
    Ok((entry, rest))
}

#[tactic(auto, unfolding(cx_fields::specs::Reading::list_at))]
pub(crate) fn globals_of(alloc: Global, rest: Rest) -> Result<(Items<UnitGlobal>, Rest), ReadFault>
    ensures { Gives (λ x. (x.0, unread x.1)) result (list_at global_at (unread rest.entry)) }
{
    let (count, rest) = rest.number()?;
    let (globals, rest) = each_global(alloc, count, rest)?;
    Ok((globals, rest))
}

fn each_global(
    alloc: Global,
    count: u32,
    start: Rest,
) -> Result<(Items<UnitGlobal>, Rest), ReadFault>
    ensures { Gives (λ x. (x.0, unread x.1)) result (many_at global_at count (unread start.entry)) }
{
    let mut items = Items::new(alloc);
    let mut rest = start;
    for _ in 0..count {
        let (item, after) = global_of(alloc, rest)?;
        items.push(item)?;
        rest = after;
    }
    Ok((items, rest))
}

#[tactic(auto, unfolding(crate::specs::Reading::body_at))]
fn body_of<'a>(
    alloc: Global,
    bounds: &Bounds,
    room: u64,
    rest: Rest<'a>,
) -> Result<(FunctionBody, Rest<'a>), ReadFault>
    ensures { Gives (λ x. (x.0, unread x.1)) result (body_at bounds.now room (unread rest.entry)) }
{
    let (counted, rest) = rest.flag()?;
    let (parameters, rest) = rest.number_in(0, 8_193, Why::Range)?;
    let (slots, rest) = rest.number_in(parameters, 8_193, Why::Range)?;
    let (result, rest) = rest.flag()?;
    let (code, rest) = code_of(alloc, bounds, room, rest)?;
    let (regions, rest) = regions_of(alloc, bounds, rest)?;
    let body = FunctionBody {
        counted,
        parameters,
        slots,
        result,
        code,
        regions,
    };
    Ok((body, rest))
}

/// The same fields of a function that has no body, which are zero.
#[tactic(auto, unfolding(crate::specs::Reading::no_body_at))]
fn no_body(rest: Rest) -> Result<(u32, Rest), ReadFault>
    ensures { Gives (λ x. (x.0, unread x.1)) result (no_body_at (unread rest.entry)) }
{
    let (_, rest) = rest.byte_in(0, 1, Why::Range)?;
    let (_, rest) = rest.zero()?;
    let (_, rest) = rest.zero()?;
    let (_, rest) = rest.byte_in(0, 1, Why::Range)?;
    let (_, rest) = rest.zero()?;
    rest.zero()
}

/// What the unit knows of a function of this sort, from its body text on.
#[tactic(auto, unfolding(crate::specs::Reading::form_at))]
fn form_of<'a>(
    alloc: Global,
    bounds: &Bounds,
    room: u64,
    sort: u8,
    rest: Rest<'a>,
) -> Result<(FunctionForm, Rest<'a>), ReadFault>
    ensures { Gives (λ x. (x.0, unread x.1)) result (form_at bounds.now room sort (unread rest.entry)) }
{
    match sort {
        0 => {
            let (_, rest) = rest.zero()?;
            let (_, rest) = no_body(rest)?;
            Ok((FunctionForm::Needed, rest))
        }
        1 => {
            let (_, rest) = rest.zero()?;
            let (body, rest) = body_of(alloc, bounds, room, rest)?;
            Ok((FunctionForm::Defined(body), rest))
        }
        2 => {
            let (tokens, rest) = rest.text(alloc)?;
            let (body, rest) = body_of(alloc, bounds, room, rest)?;
            Ok((FunctionForm::Inline(tokens, body), rest))
        }
        3 => {
            let (_, rest) = rest.zero()?;
            let (body, rest) = body_of(alloc, bounds, room, rest)?;
            Ok((FunctionForm::Helper(body), rest))
        }
        _ => {
            let (_, rest) = rest.zero()?;
            let (_, rest) = no_body(rest)?;
            Ok((FunctionForm::Declared, rest))
        }
    }
}

#[tactic(auto, unfolding(crate::specs::Reading::function_at))]
fn function_of<'a>(
    alloc: Global,
    bounds: &Bounds,
    room: u64,
    rest: Rest<'a>,
) -> Result<(UnitFunction, Rest<'a>), ReadFault>
    ensures { Gives (λ x. (x.0, unread x.1)) result (function_at bounds.now room (unread rest.entry)) }
{
    let (name, rest) = rest.text(alloc)?;
    let (sort, rest) = rest.byte_in(0, 5, Why::Range)?;
    let (signature, rest) = rest.text(alloc)?;
    let (specifiers, rest) = rest.text(alloc)?;
    let (form, rest) = form_of(alloc, bounds, room, sort, rest)?;
    let function = UnitFunction {
        name,
        signature,
        specifiers,
        form,
    };
    Ok((function, rest))
}

#[tactic(auto, unfolding(crate::specs::Reading::functions_at))]
pub(crate) fn functions_of<'a>(
    alloc: Global,
    bounds: &Bounds,
    rest: Rest<'a>,
) -> Result<(Items<UnitFunction>, Rest<'a>), ReadFault>
    ensures { Gives (λ x. (x.0, unread x.1)) result (functions_at bounds.now (unread rest.entry)) }
{
    let (count, rest) = rest.number_in(0, 262_145, Why::Limit)?;
    let (functions, rest) = each_function(alloc, bounds, count, rest)?;
    Ok((functions, rest))
}

fn code_length(function: &UnitFunction) -> usize
    ensures { result ≡ code_length function.now }
{
    match &function.form {
        FunctionForm::Needed | FunctionForm::Declared => 0,
        FunctionForm::Defined(body) | FunctionForm::Inline(_, body) | FunctionForm::Helper(body) =>
            { body.code.items().len() }
    }
}

fn each_function<'a>(
    alloc: Global,
    bounds: &Bounds,
    count: u32,
    start: Rest<'a>,
) -> Result<(Items<UnitFunction>, Rest<'a>), ReadFault>
    ensures { Gives (λ x. (x.0, unread x.1)) result (each_at code_length (function_at bounds.now) 8388609 count (unread start.entry)) }
{
    let mut items = Items::new(alloc);
    let mut rest = start;
    let mut room: u64 = 8_388_609;
    for _ in 0..count {
        let (item, after) = function_of(alloc, bounds, room, rest)?;
        room = room.saturating_sub(code_length(&item) as u64);
        items.push(item)?;
        rest = after;
    }
    Ok((items, rest))
}
