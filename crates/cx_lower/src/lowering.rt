ghost use Rattle.std.specs.Prelude.{◌≡◌, List, IfOk};
ghost use Rattle.cx_code.specs.Rules.{IsValid};
ghost use Rattle.cx_sound.specs.Unread.{ReadsNothing};
ghost use Rattle.cx_core.specs.declared.statement.Statement.{Statement};
ghost use Rattle.cx_core.specs.Runs.{IsFaithful};
ghost use Rattle.cx_simulation.specs.ImageMachine.{image_run};
ghost use Rattle.cx_emit.specs.Units.{StandsMain};
ghost use Rattle.cx_typed.specs.Built.{IsBuilt};
ghost use Rattle.cx_typed.specs.Unit.{IsMainAlone, body_of, program_of};

use crate::image::make_image;
use cx_code::{Image, Semantic};
use cx_core::CoreUnit;
use cx_outside::NoMemory;
use cx_typed::images_of_typed_units_are_faithful;
use std::alloc::Global;

/// The image of a unit that is built, whose assertions all have one semantic. Its runs are those that the unit's typed
/// program permits.
///
/// - `semantic`: the evaluation semantic of each assertion. Under `Ignore` nothing is evaluated.
/// - `unit`: the unit, of `main` alone with typed statements, within the limits.
///
/// Result: the image, which is valid, has no violation handler of its own, reads nothing, and stands for the body of `main`.
///
/// Error: `NoMemory`, where memory is lacking.
///
/// Source: this project's own, for [basic.start.main] of the C++ draft and [basic.contract.eval] of P2900R14.
pub fn lower(alloc: Global, semantic: Semantic, unit: &CoreUnit) -> Result<Image, NoMemory>
    requires built { (statements : List Statement) × IsBuilt unit.now statements }
    ensures valid { IfOk result IsValid }
    ensures no_handler { IfOk result (λ image. image.handler ≡ 0) }
    ensures reads { IfOk result ReadsNothing }
    ensures stands { IfOk result (λ image. (statements : List Statement) × IsMainAlone unit.now statements × StandsMain image (body_of semantic unit.now statements)) }
    ensures faithful { IfOk result (λ image. IsFaithful (image_run image) (program_of semantic unit.now)) }
{
    let image = make_image(alloc, semantic, unit)?;
    images_of_typed_units_are_faithful();
    Ok(image)
}
