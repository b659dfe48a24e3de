ghost use Rattle.std.specs.Prelude.{◌≡◌, ◌++◌, ◌≤◌, IfOk, OnOk};
ghost use Rattle.cx_generated.specs.Generated.{unit_name, head, after_function, value_text, definition_line, declaration_line, main_line, unit_text};

use crate::put::{put_function_name, put_unit_name};
use cx_outside::{NoMemory, Text};
use std::alloc::Global;

/// The functions of a unit.
pub const FUNCTIONS: u32 = 16;

/// The name of a unit's file: `mI.cpp`, where I is its number. The name is this project's own.
///
/// - `NoMemory`: there was no memory.
pub fn unit_name(alloc: Global, unit: u8) -> Result<Text, NoMemory>
    ensures { IfOk result (λ text. text ≡ unit_name unit) }
{
    let mut text = Text::new(alloc);
    put_unit_name(&mut text, u32::from(unit))?;
    Ok(text)
}

/// The text of a unit: its functions, each of which calls the one before it, and after those of the last unit `main`. What
/// it holds is this project's own.
///
/// Arguments: the allocator; how many units there are; the unit's number, from 1.
///
/// - `NoMemory`: there was no memory.
#[tactic(auto, unfolding(crate::specs::Generated::unit_text))]
pub fn unit_text(alloc: Global, units: u8, unit: u8) -> Result<Text, NoMemory>
    requires { 1 ≤ unit }
    ensures { IfOk result (λ text. text ≡ unit_text units unit) }
{
    let mut text = Text::new(alloc);
    put_declaration(&mut text, u32::from(unit))?;
    for function in 1..FUNCTIONS + 1 {
        put_definition(&mut text, u32::from(unit), function)?;
    }
    if unit == units {
        put_main(&mut text, u32::from(unit))?;
    }
    Ok(text)
}

/// The declaration of the function that the unit's first one calls, where there is one before it.
fn put_declaration(out: &mut Text, unit: u32) -> Result<(), NoMemory>
    ensures { OnOk result (out.new ≡ out.old ++ declaration_line unit) }
{
    if unit > 1 {
        put_head(out, unit - 1, FUNCTIONS)?;
        out.append(b";\n")?;
    }
    Ok(())
}

/// A function, with its contract assertions.
fn put_definition(out: &mut Text, unit: u32, function: u32) -> Result<(), NoMemory>
    requires unit { 1 ≤ unit }
    requires function { 1 ≤ function }
    ensures { OnOk result (out.new ≡ out.old ++ definition_line unit function) }
{
    put_head(out, unit, function)?;
    out.append(b" { return ")?;
    put_value(out, unit, function)?;
    out.append(b"; }\n")?;
    Ok(())
}

/// `main`, which calls the last function.
fn put_main(out: &mut Text, unit: u32) -> Result<(), NoMemory>
    ensures { OnOk result (out.new ≡ out.old ++ main_line unit) }
{
    out.append(b"int main() { return ")?;
    put_function_name(out, unit, FUNCTIONS)?;
    out.append(b"(0); }\n")?;
    Ok(())
}

/// A function without its body.
fn put_head(out: &mut Text, unit: u32, function: u32) -> Result<(), NoMemory>
    ensures { OnOk result (out.new ≡ out.old ++ head unit function) }
{
    out.append(b"int ")?;
    put_function_name(out, unit, function)?;
    out.append(b"(const int x) pre(x >= 0) post(r : r >= x)")?;
    Ok(())
}

/// What a function returns.
fn put_value(out: &mut Text, unit: u32, function: u32) -> Result<(), NoMemory>
    requires unit { 1 ≤ unit }
    requires function { 1 ≤ function }
    ensures { OnOk result (out.new ≡ out.old ++ value_text unit function) }
{
    if function == 1 {
        if unit == 1 {
            out.append(b"x")
        } else {
            put_after(out, unit - 1, FUNCTIONS)
        }
    } else {
        put_after(out, unit, function - 1)
    }
}

/// One more than what a function gives.
fn put_after(out: &mut Text, unit: u32, function: u32) -> Result<(), NoMemory>
    ensures { OnOk result (out.new ≡ out.old ++ after_function unit function) }
{
    put_function_name(out, unit, function)?;
    out.append(b"(x) + 1")?;
    Ok(())
}
