ghost use Rattle.std.specs.Prelude.{◌≡◌, ◌+◌, ◌<◌, ◌≤◌, ◌^◌, length, IfOk};
ghost use Rattle.std.specs.List.{All};
ghost use Rattle.cx_includes.specs.Parts.{IsReading};
ghost use Rattle.cx_includes.specs.Taking.{IsPartWithin};

use crate::part::Part;
use crate::reached::Reached;
use crate::stretch::{Stretch, stretch_at};
use cx_outside::{Items, NoMemory};
use std::alloc::Global;

/// The parts of a file, each with its place. The text is read once.
pub fn read(alloc: Global, text: &[u8]) -> Result<Items<Part>, NoMemory>
    requires { length text.now + 2 < 2 ^ 32 }
    ensures reading { IfOk result (λ parts. IsReading text.now parts) }
    ensures within { IfOk result (λ parts. All (IsPartWithin text.now) parts) }
{
    let mut parts = Items::new(alloc);
    let mut reached = Reached::START;
    let mut at = 0;
    while at < text.len() {
        match stretch_at(text, at, reached) {
            Stretch::Blank(length) => {
                let end = at + length;
                reached = reached.passed(text, at, end);
                at = end;
            }
            Stretch::Part(part, length) => {
                parts.push(part)?;
                let end = at + length;
                reached = reached.passed(text, at, end);
                at = end;
            }
            Stretch::Last(part) => {
                parts.push(part)?;
                return Ok(parts);
            }
        }
    }
    Ok(parts)
}
