ghost use Rattle.std.specs.Prelude.{◌≡◌, IfOk, Ok};
ghost use Rattle.cx_code.specs.declared.image.Image.{Image};
ghost use Rattle.cx_code.specs.Spelling.{image_spelling};
ghost use Rattle.cx_code.specs.Storable.{IsStorable};
ghost use Rattle.cx_fields.specs.Reading.{Gives, unread, each_at, list_at, many_at};
ghost use Rattle.cx_image.specs.Reading.{type_at, global_at, function_at, code_length, functions_at, image_at, tables_of, read_image};
ghost use Rattle.cx_image.specs.Words.{ImageOfWords};

use cx_code::{Function, GlobalEntry, Image, TypeEntry};
use cx_fields::{
    Bounds, ReadFault, Rest, Why, assertions_of, code_of, initial_of, regions_of, texts_of,
};
use cx_outside::Items;
use std::alloc::Global;

/// Why bytes gave no image: want of memory, or the first fault of the bytes. (This project's own.)
pub type ImageFault = ReadFault;

/// The image that the bytes of a file are, all of them. It is exactly the one that the bytes spell; other bytes have the
/// first fault from the left. Indices are judged after the last field, and those in code and in unwind tables not here.
/// (The format is this project's own.)
///
/// - `OutOfMemory`: there was no memory.
/// - `Bad`: where and why the bytes are no image: the first field that is cut, that ends past the largest file or whose
///   value its row or a limit doesn't allow; else the first index that is out of its table; else the first byte after the
///   last field.
pub fn decode(alloc: Global, bytes: &[u8]) -> Result<Image, ImageFault>
    ensures found { IfOk result (λ image. IsStorable image × (bytes.now ≡ image_spelling image)) }
    ensures only { (image : Image) → IsStorable image → ImageOfWords image → bytes.now ≡ image_spelling image → Gives (λ read. read) result (Ok image) }
    ensures exact { Gives (λ image. image) result (read_image bytes.now) }
{
    whole(alloc, bytes)
}

#[tactic(auto, unfolding(crate::specs::Reading::type_at))]
fn type_of<'a>(
    alloc: Global,
    bounds: &Bounds,
    rest: Rest<'a>,
) -> Result<(TypeEntry, Rest<'a>), ReadFault>
    ensures { Gives (λ x. (x.0, unread x.1)) result (type_at bounds.now (unread rest.entry)) }
{
    let (name, rest) = rest.text(alloc)?;
    let (leaves, rest) = rest.number_in(1, 257, Why::Range)?;
    let (dropper, rest) = rest.number_in(0, bounds.functions_or_none, Why::Index)?;
    let entry = TypeEntry {
        name,
        leaves,
        dropper,
    };
    Ok((entry, rest))
}

#[tactic(auto, unfolding(cx_fields::specs::Reading::list_at))]
fn types_of<'a>(
    alloc: Global,
    bounds: &Bounds,
    rest: Rest<'a>,
) -> Result<(Items<TypeEntry>, Rest<'a>), ReadFault>
    ensures { Gives (λ x. (x.0, unread x.1)) result (list_at (type_at bounds.now) (unread rest.entry)) }
{
    let (count, rest) = rest.number()?;
    let (types, rest) = each_type(alloc, bounds, count, rest)?;
    Ok((types, rest))
}

fn each_type<'a>(
    alloc: Global,
    bounds: &Bounds,
    count: u32,
    start: Rest<'a>,
) -> Result<(Items<TypeEntry>, Rest<'a>), ReadFault>
    ensures { Gives (λ x. (x.0, unread x.1)) result (many_at (type_at bounds.now) count (unread start.entry)) }
{
    let mut items = Items::new(alloc);
    let mut rest = start;
    for _ in 0..count {
        let (item, after) = type_of(alloc, bounds, rest)?;
        items.push(item)?;
        rest = after;
    }
    Ok((items, rest))
}

#[tactic(auto, unfolding(crate::specs::Reading::global_at))]
fn global_of(alloc: Global, rest: Rest) -> Result<(GlobalEntry, Rest), ReadFault>
    ensures { Gives (λ x. (x.0, unread x.1)) result (global_at (unread rest.entry)) }
{
    let (name, rest) = rest.text(alloc)?;
    let (initial, rest) = initial_of(rest)?;
    Ok((GlobalEntry { name, initial }, rest))
}

#[tactic(auto, unfolding(cx_fields::specs::Reading::list_at))]
fn globals_of(alloc: Global, rest: Rest) -> Result<(Items<GlobalEntry>, Rest), ReadFault>
    ensures { Gives (λ x. (x.0, unread x.1)) result (list_at global_at (unread rest.entry)) }
{
    let (count, rest) = rest.number()?;
    let (globals, rest) = each_global(alloc, count, rest)?;
    Ok((globals, rest))
}

fn each_global(
    alloc: Global,
    count: u32,
    start: Rest,
) -> Result<(Items<GlobalEntry>, Rest), ReadFault>
    ensures { Gives (λ x. (x.0, unread x.1)) result (many_at global_at count (unread start.entry)) }
{
    let mut items = Items::new(alloc);
    let mut rest = start;
    for _ in 0..count {
        let (item, after) = global_of(alloc, rest)?;
        items.push(item)?;
        rest = after;
    }
    Ok((items, rest))
}

#[tactic(auto, unfolding(crate::specs::Reading::function_at))]
fn function_of(alloc: Global, room: u64, rest: Rest) -> Result<(Function, Rest), ReadFault>
    ensures { Gives (λ x. (x.0, unread x.1)) result (function_at room (unread rest.entry)) }
{
    let unbounded = Bounds::none();
    let (name, rest) = rest.text(alloc)?;
    let (counted, rest) = rest.flag()?;
    let (parameters, rest) = rest.number_in(0, 8_193, Why::Range)?;
    let (slots, rest) = rest.number_in(parameters, 8_193, Why::Range)?;
    let (result, rest) = rest.flag()?;
    let (code, rest) = code_of(alloc, &unbounded, room, rest)?;
    let (regions, rest) = regions_of(alloc, &unbounded, rest)?;
    let function = Function {
        name,
        counted,
        parameters,
        slots,
        result,
        code,
        regions,
    };
    Ok((function, rest))
}

#[tactic(auto, unfolding(crate::specs::Reading::functions_at))]
fn functions_of(alloc: Global, rest: Rest) -> Result<(Items<Function>, Rest), ReadFault>
    ensures { Gives (λ x. (x.0, unread x.1)) result (functions_at (unread rest.entry)) }
{
    let (count, rest) = rest.number_in(0, 262_145, Why::Limit)?;
    let (functions, rest) = each_function(alloc, count, rest)?;
    Ok((functions, rest))
}

fn each_function(
    alloc: Global,
    count: u32,
    start: Rest,
) -> Result<(Items<Function>, Rest), ReadFault>
    ensures { Gives (λ x. (x.0, unread x.1)) result (each_at code_length function_at 8388609 count (unread start.entry)) }
{
    let mut items = Items::new(alloc);
    let mut rest = start;
    let mut room: u64 = 8_388_609;
    for _ in 0..count {
        let (item, after) = function_of(alloc, room, rest)?;
        room = room.saturating_sub(item.code.items().len() as u64);
        items.push(item)?;
        rest = after;
    }
    Ok((items, rest))
}

#[tactic(auto, unfolding(crate::specs::Reading::image_at))]
fn image_of<'a>(
    alloc: Global,
    bounds: &Bounds,
    rest: Rest<'a>,
) -> Result<(Image, Rest<'a>), ReadFault>
    ensures { Gives (λ x. (x.0, unread x.1)) result (image_at bounds.now (unread rest.entry)) }
{
    let (_, rest) = rest.head(0x4358_494d)?;
    let (texts, rest) = texts_of(alloc, rest)?;
    let (types, rest) = types_of(alloc, bounds, rest)?;
    let (globals, rest) = globals_of(alloc, rest)?;
    let (functions, rest) = functions_of(alloc, rest)?;
    let (assertions, rest) = assertions_of(alloc, bounds, rest)?;
    let (main, rest) = rest.number_in(0, bounds.functions, Why::Index)?;
    let (handler, rest) = rest.number_in(0, bounds.functions_or_none, Why::Index)?;
    let image = Image {
        texts,
        types,
        globals,
        functions,
        assertions,
        main,
        handler,
    };
    Ok((image, rest))
}

fn tables_of(image: &Image) -> Bounds
    ensures { result ≡ tables_of image.now }
{
    Bounds::of(
        image.texts.items().len(),
        image.types.items().len(),
        image.globals.items().len(),
        image.functions.items().len(),
        image.assertions.items().len(),
    )
}

#[tactic(auto, unfolding(cx_fields::specs::Parts::whole_of))]
fn whole(alloc: Global, bytes: &[u8]) -> Result<Image, ReadFault>
    ensures { Gives (λ image. image) result (read_image bytes.now) }
{
    let start = Rest::new(bytes);
    // Indices are judged after the last field, so the tables are read first, and given up.
    let bounds = {
        let (tables, _) = image_of(alloc, &Bounds::none(), start)?;
        tables_of(&tables)
    };
    let (image, rest) = image_of(alloc, &bounds, start)?;
    if !rest.is_empty() {
        return Err(rest.fault(Why::Trailing));
    }
    Ok(image)
}
