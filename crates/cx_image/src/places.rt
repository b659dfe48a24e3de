ghost use Rattle.std.specs.Prelude.{◌≡◌, ◌<◌, ◌≤◌, ◌^◌, ◌++◌, length, IfOk, IfSome, OnOk, Some, slice_get};
ghost use Rattle.cx_code.specs.declared.image.Function.{Function as Its};
ghost use Rattle.cx_code.specs.Spelling.{function, number};
ghost use Rattle.cx_code.specs.Storable.{IsStorable};
ghost use Rattle.cx_reach.specs.declared.item.Item.TheVariants as items;
ghost use Rattle.cx_image.specs.Places.{HasItem, before_code, before_functions, place_of, up_to};

use crate::encoding::{
    put_before_code, put_before_dropper, put_before_functions, put_before_main, put_before_types,
    put_functions, put_types,
};
use cx_code::Image;
use cx_fields::{put_code, put_count, put_number, put_regions};
use cx_outside::{NoMemory, Text};
use cx_reach::Item;
use std::alloc::Global;

/// Where an item of an image begins in its file, counted from the first byte. As this is asked for at most
/// once, what stands before the item is written, and its length is the place.
#[tactic(auto, using(crate::proofs::Standing::place_fits))]
pub fn place_of(alloc: Global, image: &Image, item: Item) -> Result<u32, NoMemory>
    requires storable { IsStorable image.now }
    requires there { HasItem image.now item }
    ensures { IfOk result (λ at. at ≡ place_of image.now item) }
{
    let before = before(alloc, image, item)?;
    Ok(before.bytes().len() as u32)
}

/// Bytes as many as stand before an item.
fn before(alloc: Global, image: &Image, item: Item) -> Result<Text, NoMemory>
    requires storable { IsStorable image.now }
    requires there { HasItem image.now item }
    ensures { IfOk result (λ before. length before ≡ place_of image.now item) }
{
    match item {
        Item::Instruction(index, place) => before_instruction(alloc, image, index, place),
        Item::Count(index) => before_code(alloc, image, index),
        Item::Region(index, own) => before_region(alloc, image, index, own),
        Item::Dropper(of) => before_dropper(alloc, image, of),
        Item::Main => before_main(alloc, image),
        Item::Handler => before_handler(alloc, image),
    }
}

/// What stands before the count of a function's instructions.
fn before_code(alloc: Global, image: &Image, index: usize) -> Result<Text, NoMemory>
    requires storable { IsStorable image.now }
    requires there { index < length image.now.functions }
    ensures { IfOk result (λ before. before ≡ before_functions image.now ++ number (length image.now.functions) ++ up_to function before_code image.now.functions index) }
{
    let functions = image.functions.items();
    let mut out = Text::new(alloc);
    put_before_functions(&mut out, image)?;
    put_count(&mut out, functions.len())?;
    put_functions(&mut out, &functions[..index])?;
    put_before_code(&mut out, &functions[index])?;
    Ok(out)
}

/// Bytes as many as stand before an instruction. The count that is written is that of the instructions before it.
fn before_instruction(
    alloc: Global,
    image: &Image,
    index: usize,
    place: usize,
) -> Result<Text, NoMemory>
    requires storable { IsStorable image.now }
    requires there { HasItem image.now (items.Instruction index place) }
    ensures { IfOk result (λ before. length before ≡ place_of image.now (items.Instruction index place)) }
{
    let mut out = before_code(alloc, image, index)?;
    put_code(
        &mut out,
        &image.functions.items()[index].code.items()[..place],
    )?;
    Ok(out)
}

/// Bytes as many as stand before a region. The count that is written is that of the regions before it.
fn before_region(alloc: Global, image: &Image, index: usize, own: usize) -> Result<Text, NoMemory>
    requires storable { IsStorable image.now }
    requires there { HasItem image.now (items.Region index own) }
    ensures { IfOk result (λ before. length before ≡ place_of image.now (items.Region index own)) }
{
    let its = &image.functions.items()[index];
    let mut out = before_code(alloc, image, index)?;
    put_code(&mut out, its.code.items())?;
    put_regions(&mut out, &its.regions.items()[..own])?;
    Ok(out)
}

/// What stands before the dropper of a type.
fn before_dropper(alloc: Global, image: &Image, of: usize) -> Result<Text, NoMemory>
    requires storable { IsStorable image.now }
    requires there { of < length image.now.types }
    ensures { IfOk result (λ before. length before ≡ place_of image.now (items.Dropper of)) }
{
    let types = image.types.items();
    let mut out = Text::new(alloc);
    put_before_types(&mut out, image)?;
    put_types(&mut out, image, &types[..of])?;
    put_before_dropper(&mut out, &types[of])?;
    Ok(out)
}

/// What stands before the field `main`.
fn before_main(alloc: Global, image: &Image) -> Result<Text, NoMemory>
    requires storable { IsStorable image.now }
    ensures { IfOk result (λ before. length before ≡ place_of image.now items.Main) }
{
    let mut out = Text::new(alloc);
    put_before_main(&mut out, image)?;
    Ok(out)
}

/// What stands before the field of the handler.
fn before_handler(alloc: Global, image: &Image) -> Result<Text, NoMemory>
    requires storable { IsStorable image.now }
    ensures { IfOk result (λ before. length before ≡ place_of image.now items.Handler) }
{
    let mut out = before_main(alloc, image)?;
    put_number(&mut out, image.main)?;
    Ok(out)
}
