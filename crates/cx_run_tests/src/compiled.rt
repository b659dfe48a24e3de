ghost use Rattle.std.specs.Prelude.{◌≤◌, length};
ghost use Rattle.std.specs.List.{All};
ghost use Rattle.cx_includes.specs.Assembled.{IsWithin};

use cx_code::Semantic;
use cx_core::CoreUnit;
use cx_front::{unit_of, units_are_built};
use cx_image::{Valid, verify};
use cx_includes::{Assembled, assemble};
use cx_lower::lower;
use cx_outside::MemFiles;
use std::alloc::Global;
use std::test::Fail;

/// The most tokens of a unit that is built.
const MOST_TOKENS: usize = 4096;

/// A unit of the typed program, and the image of it.
#[derive(Drop)]
pub struct Compiled {
    pub unit: CoreUnit,
    pub image: Valid,
}

/// What a text is compiled to, as the unit `a.cpp`.
pub fn compile(alloc: Global, semantic: Semantic, text: &[u8]) -> Result<Compiled, Fail> {
    let mut files = MemFiles::new(alloc, &[])?;
    files.hold(b"a.cpp", text)?;
    let list = assemble(alloc, b"a.cpp", &mut files)?;
    let Some(compiled) = compile_list(alloc, semantic, &list)? else {
        return Err(Fail::new("the unit is not built"));
    };
    Ok(compiled)
}

/// What an assembled list is compiled to, if it is a unit that is built.
fn compile_list(
    alloc: Global,
    semantic: Semantic,
    list: &Assembled,
) -> Result<Option<Compiled>, Fail>
    requires within { All (IsWithin list.now.files) list.now.placed }
    requires short { All (λ file. length file.name ≤ 1024) list.now.files }
{
    if list.items().len() > MOST_TOKENS {
        return Ok(None);
    }
    units_are_built();
    match unit_of(alloc, list)? {
        Some(unit) => {
            let image = lower(alloc, semantic, &unit)?;
            let image = verify(alloc, image)?;
            Ok(Some(Compiled { unit, image }))
        }
        None => Ok(None),
    }
}
