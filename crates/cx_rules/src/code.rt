ghost use Rattle.std.specs.Prelude.{◌<◌, length};
ghost use Rattle.cx_reach.specs.Comes.{AreArrivals};
ghost use Rattle.cx_rules.specs.First.{IsFirstAtPlace, IsFirstInCode};

use crate::instruction_rule;
use cx_code::{Function, Image};
use cx_reach::{Arrival, Rule};

/// The first place of a function's code whose instruction breaks a rule, with the first rule that it
/// breaks. In time linear in the code. (This project's own.)
///
/// - `image` has the tables that the instructions' indices name.
/// - `function` is the function, one of the image or not.
/// - `arrivals` tell how each place is reached, as [`cx_reach::arrivals`] gives them.
///
/// `None` comes exactly where no instruction breaks a rule; that the code is there isn't asked.
pub fn code_rule(image: &Image, function: &Function, arrivals: &[Arrival]) -> Option<(usize, Rule)>
    requires { AreArrivals image.now function.now arrivals.now }
    ensures { IsFirstInCode image.now function.now result }
{
    for place in 0..function.code.items().len() {
        if let Some(rule) = place_rule(image, function, arrivals, place) {
            return Some((place, rule));
        }
    }
    None
}

/// The first rule that the instruction at a place breaks.
fn place_rule(
    image: &Image,
    function: &Function,
    arrivals: &[Arrival],
    place: usize,
) -> Option<Rule>
    requires arrivals { AreArrivals image.now function.now arrivals.now }
    requires place { place < length function.now.code }
    ensures { IsFirstAtPlace image.now function.now place result }
{
    let instruction = function.code.items()[place];
    instruction_rule(image, function, place, instruction, arrivals[place])
}
