ghost use Rattle.std.specs.Prelude.{◌≡◌, Err, IfErr, IfOk, IsOk};
ghost use Rattle.cx_code.specs.Rules.{IsValid};
ghost use Rattle.cx_code.specs.Storable.{IsStorable};
ghost use Rattle.cx_reach.specs.declared.item.Item.{Item as Judged};
ghost use Rattle.cx_reach.specs.declared.rule.Rule.{Rule as Its};
ghost use Rattle.cx_reach.specs.Order.{IsFirstBroken};
ghost use Rattle.cx_rules.specs.Parts.{IsFirstIn};
ghost use Rattle.cx_rules.specs.declared.whole.Broken.TheVariants as broken;

use crate::{function_rule, tables_rule};
use cx_code::Image;
use cx_outside::NoMemory;
use cx_reach::laws::{nothing_is_broken_in_valid, valid_where_nothing_is_broken};
use cx_reach::{Item, Rule};
use std::alloc::Global;

/// Why an image isn't accepted. (This project's own.)
#[derive(Clone, Copy, Debug, PartialEq, Eq)]
pub enum Broken {
    /// There was no memory.
    OutOfMemory,
    /// At this item this rule is broken, and nothing before it.
    At(Item, Rule),
}

impl From<NoMemory> for Broken {
    ghost from_gives = { λ _ fault. fault ≡ broken.OutOfMemory };

    fn from(_: NoMemory) -> Self {
        Broken::OutOfMemory
    }
}

/// Accepts an image that keeps the rules V1 to V7, and names the first broken rule of one that
/// doesn't. In time linear in the image, but for the regions, which take a logarithm more. (This
/// project's own.)
///
/// - `alloc` gives the memory that it takes.
/// - `image` is one that a file can hold.
///
/// `OutOfMemory` comes for want of memory alone, and `At` with the first item at which a rule is
/// broken and the first such rule: by function its instructions, the count of them and its regions,
/// then the droppers of the types, `main` and the handler. A valid image is never refused.
pub fn verify(alloc: Global, image: &Image) -> Result<(), Broken>
    requires { IsStorable image.now }
    ensures valid { IsOk result → IsValid image.now }
    ensures broken { (item : Judged) (rule : Its) → result ≡ Err (Broken.At item rule) → IsFirstBroken image.now item rule }
    ensures accepts { IsValid image.now → IfErr result (λ fault. fault ≡ broken.OutOfMemory) }
{
    valid_where_nothing_is_broken();
    nothing_is_broken_in_valid();
    match first_broken(alloc, image)? {
        None => Ok(()),
        Some((item, rule)) => Err(Broken::At(item, rule)),
    }
}

/// The first broken rule of an image, with its item.
fn first_broken(alloc: Global, image: &Image) -> Result<Option<(Item, Rule)>, NoMemory>
    requires { IsStorable image.now }
    ensures { IfOk result (IsFirstIn image.now) }
{
    for index in 0..image.functions.items().len() {
        let function = &image.functions.items()[index];
        if let Some(found) = function_rule(alloc, image, function, index)? {
            return Ok(Some(found));
        }
    }
    Ok(tables_rule(image))
}
