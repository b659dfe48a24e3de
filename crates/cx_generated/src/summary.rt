ghost use Rattle.std.specs.Prelude.{◌≡◌, ◌++◌, IfOk, OnOk};
ghost use Rattle.std.specs.Fmt.{signed_decimal};
ghost use Rattle.cx_generated.specs.Generated.{summary_line};

use crate::put::put_number;
use crate::unit::FUNCTIONS;
use cx_outside::{NoMemory, Text};
use itoa::Buffer;
use std::alloc::Global;

/// The line that sums up a run of so many units, with its newline. Its form is this project's own.
///
/// Arguments: the allocator; how many units there are; how many evaluations of assertions the run began; what `main`
/// returned.
///
/// - `NoMemory`: there was no memory.
#[tactic(auto, unfolding(crate::specs::Generated::summary_line))]
pub fn summary_line(alloc: Global, units: u8, begins: u32, value: i32) -> Result<Text, NoMemory>
    ensures { IfOk result (λ text. text ≡ summary_line units begins value) }
{
    let mut text = Text::new(alloc);
    text.append(b"make ")?;
    put_number(&mut text, u32::from(units))?;
    text.append(b": functions ")?;
    put_number(&mut text, FUNCTIONS * u32::from(units))?;
    text.append(b", begins ")?;
    put_number(&mut text, begins)?;
    text.append(b", returned ")?;
    put_value(&mut text, value)?;
    text.append(b"\n")?;
    Ok(text)
}

/// Adds a number in decimal digits, with its sign.
fn put_value(out: &mut Text, value: i32) -> Result<(), NoMemory>
    ensures { OnOk result (out.new ≡ out.old ++ signed_decimal value) }
{
    let mut buffer = Buffer::new();
    out.append(buffer.format(value).as_bytes())
}
