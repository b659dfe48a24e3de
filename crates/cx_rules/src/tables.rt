ghost use Rattle.std.specs.Prelude.{◌≡◌, ◌↔◌, ℕ, ◌<◌, length, slice_get, IsTrue, IfSome};
ghost use Rattle.cx_code.specs.Rules.{IsEntry, IsHookAt};
ghost use Rattle.cx_rules.specs.Parts.{IsOfTables, IsFirstAmong};
ghost use Rattle.cx_rules.specs.Tables.{IsLowest, IsUnfit, BreaksDropper};

use crate::thrown::{first_lost, lesser};
use cx_code::Image;
use cx_reach::{Item, Rule};

/// The first item of an image's tables at which a rule is broken, with the first rule that is: of
/// the droppers of its types, `main` and the handler. In time linear in the image. (This project's
/// own.)
///
/// `None` comes exactly where no rule is broken at an item of the tables.
pub fn tables_rule(image: &Image) -> Option<(Item, Rule)>
    ensures { IsFirstAmong image.now IsOfTables result }
{
    if let Some(of) = first_bad_dropper(image) {
        return Some((Item::Dropper(of), Rule::V7));
    }
    if !has_entry(image) {
        return Some((Item::Main, Rule::V7));
    }
    if !is_hook_at(image, image.handler) {
        return Some((Item::Handler, Rule::V7));
    }
    None
}

/// The first type whose dropper breaks a rule.
fn first_bad_dropper(image: &Image) -> Option<usize>
    ensures { IsLowest (BreaksDropper image.now) result }
{
    lesser(first_unfit(image), first_lost(image))
}

/// The first type whose dropper isn't such as the machine calls.
fn first_unfit(image: &Image) -> Option<usize>
    ensures { IsLowest (IsUnfit image.now) result }
{
    for of in 0..image.types.items().len() {
        if is_unfit(image, of) {
            return Some(of);
        }
    }
    None
}

/// The type's dropper isn't such as the machine calls.
fn is_unfit(image: &Image, of: usize) -> bool
    ensures { IsTrue result ↔ IsUnfit image.now of }
{
    match image.types.items().get(of) {
        Some(entry) => !is_hook_at(image, entry.dropper),
        None => false,
    }
}

/// The first function takes no argument, and gives a value.
fn has_entry(image: &Image) -> bool
    ensures { IsTrue result ↔ IfSome (slice_get image.now.functions image.now.main) IsEntry }
{
    match image.functions.items().get(image.main as usize) {
        Some(function) => function.parameters == 0 && function.result,
        None => true,
    }
}

/// An index plus 1 is 0 or that of a function that takes one value and gives none.
fn is_hook_at(image: &Image, index: u32) -> bool
    ensures { IsTrue result ↔ IsHookAt image.now index }
{
    if index == 0 {
        return true;
    }
    match image.functions.items().get(index as usize - 1) {
        Some(function) => function.parameters == 1 && !function.result,
        None => true,
    }
}
