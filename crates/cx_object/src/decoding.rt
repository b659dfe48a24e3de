ghost use Rattle.std.specs.Prelude.{◌≡◌, IfOk, Ok};
ghost use Rattle.cx_code.specs.declared.object.Object.{Object};
ghost use Rattle.cx_code.specs.ObjectSpelling.{object_spelling};
ghost use Rattle.cx_code.specs.ObjectStorable.{IsStorableObject};
ghost use Rattle.cx_fields.specs.Reading.{Gives, unread};
ghost use Rattle.cx_object.specs.Reading.{object_at, tables_of, read_object};
ghost use Rattle.cx_object.specs.Words.{ObjectOfWords};

use crate::entries::{functions_of, globals_of, types_of};
use cx_code::Object;
use cx_fields::{Bounds, ReadFault, Rest, Why, assertions_of, texts_of};
use std::alloc::Global;

/// Why bytes gave no object: want of memory, or the first fault of the bytes. (This project's own.)
pub type ObjectFault = ReadFault;

/// The object that the bytes of a file are, all of them. It is exactly the one that the bytes spell; other bytes have the
/// first fault from the left. Indices, those in code and in unwind tables too, are judged after the last field. (The
/// format is this project's own.)
///
/// - `OutOfMemory`: there was no memory.
/// - `Bad`: where and why the bytes are no object: the first field that is cut, that ends past the largest file or whose
///   value its row or a limit doesn't allow; else the first index that is out of its table; else the first byte after the
///   last field.
pub fn decode(alloc: Global, bytes: &[u8]) -> Result<Object, ObjectFault>
    ensures found { IfOk result (λ object. IsStorableObject object × (bytes.now ≡ object_spelling object)) }
    ensures only { (object : Object) → IsStorableObject object → ObjectOfWords object → bytes.now ≡ object_spelling object → Gives (λ read. read) result (Ok object) }
    ensures exact { Gives (λ object. object) result (read_object bytes.now) }
{
    whole(alloc, bytes)
}

#[tactic(auto, unfolding(crate::specs::Reading::object_at))]
fn object_of<'a>(
    alloc: Global,
    bounds: &Bounds,
    rest: Rest<'a>,
) -> Result<(Object, Rest<'a>), ReadFault>
    ensures { Gives (λ x. (x.0, unread x.1)) result (object_at bounds.now (unread rest.entry)) }
{
    let (_, rest) = rest.head(0x4358_4f42)?;
    let (unit, rest) = rest.text(alloc)?;
    let (texts, rest) = texts_of(alloc, rest)?;
    let (types, rest) = types_of(alloc, bounds, rest)?;
    let (globals, rest) = globals_of(alloc, rest)?;
    let (functions, rest) = functions_of(alloc, bounds, rest)?;
    let (assertions, rest) = assertions_of(alloc, bounds, rest)?;
    let object = Object {
        unit,
        texts,
        types,
        globals,
        functions,
        assertions,
    };
    Ok((object, rest))
}

fn tables_of(object: &Object) -> Bounds
    ensures { result ≡ tables_of object.now }
{
    Bounds::of(
        object.texts.items().len(),
        object.types.items().len(),
        object.globals.items().len(),
        object.functions.items().len(),
        object.assertions.items().len(),
    )
}

#[tactic(auto, unfolding(cx_fields::specs::Parts::whole_of))]
fn whole(alloc: Global, bytes: &[u8]) -> Result<Object, ReadFault>
    ensures { Gives (λ object. object) result (read_object bytes.now) }
{
    let start = Rest::new(bytes);
    // Indices are judged after the last field, so the tables are read first, and given up.
    let bounds = {
        let (tables, _) = object_of(alloc, &Bounds::none(), start)?;
        tables_of(&tables)
    };
    let (object, rest) = object_of(alloc, &bounds, start)?;
    if !rest.is_empty() {
        return Err(rest.fault(Why::Trailing));
    }
    Ok(object)
}
