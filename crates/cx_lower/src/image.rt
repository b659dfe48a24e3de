//! The image of a unit.
ghost use Rattle.std.specs.Prelude.{◌≡◌, ◌≤◌, List, length, IfOk};
ghost use Rattle.cx_core.specs.declared.statement.Statement.{Statement};
ghost use Rattle.cx_typed.specs.Built.{most_weight, IsBuilt};
ghost use Rattle.cx_core.specs.View.{stmts_of};
ghost use Rattle.cx_typed.specs.Unit.{body_of, IsMainAlone};
ghost use Rattle.cx_typed.specs.Weight.{stmts_weight};
ghost use Rattle.cx_lower.specs.Emitted.{asserted_code};
ghost use Rattle.cx_lower.specs.Literals.{StmtsFit};
ghost use Rattle.cx_lower.specs.Tables.{image_of, image_with};

use crate::body::{body_function, main_function};
use crate::tables::{assertions_of, texts_of};
use cx_code::{Image, Semantic};
use cx_core::{Body, CoreUnit, Statement};
use cx_outside::{Items, NoMemory};
use std::alloc::Global;

/// The image of a unit of `main` alone, whose assertions all have one semantic: its first function, `main`, calls another
/// one, which has the code of the body of `main`.
pub fn make_image(alloc: Global, semantic: Semantic, unit: &CoreUnit) -> Result<Image, NoMemory>
    requires built { (statements : List Statement) × IsBuilt unit.now statements }
    ensures image { IfOk result (λ image. (statements : List Statement) → IsMainAlone unit.now statements → image ≡ image_of unit.now (body_of semantic unit.now statements)) }
{
    image_of(alloc, semantic, unit, statements_of(unit))
}

/// The image of a unit whose body of `main` has these statements.
#[tactic(auto, unfolding(crate::specs::Tables::image_with))]
fn image_of(
    alloc: Global,
    semantic: Semantic,
    unit: &CoreUnit,
    b: &[Statement],
) -> Result<Image, NoMemory>
    requires fits { StmtsFit (stmts_of b.now) }
    requires few { length unit.now.assertions ≤ most_weight }
    requires light { stmts_weight (stmts_of b.now) ≤ most_weight }
    ensures { IfOk result (λ image. image ≡ image_with (asserted_code semantic unit.now.assertions) unit.now (stmts_of b.now)) }
{
    let mut functions = Items::new(alloc);
    functions.push(main_function(alloc)?)?;
    functions.push(body_function(alloc, semantic, unit, b)?)?;
    Ok(Image {
        texts: texts_of(alloc, unit.name.bytes(), unit.assertions.items())?,
        types: Items::new(alloc),
        globals: Items::new(alloc),
        functions,
        assertions: assertions_of(alloc, unit.name.bytes(), unit.assertions.items())?,
        main: 0,
        handler: 0,
    })
}

/// The statements of the unit's one function.
fn statements_of(unit: &CoreUnit) -> &[Statement]
    ensures { (statements : List Statement) → IsMainAlone unit.now statements → result.now ≡ statements }
{
    match unit.functions.items().first() {
        Some(function) => match &function.body {
            Some(Body::Function(b)) => b.as_slice(),
            _ => &[],
        },
        None => &[],
    }
}
