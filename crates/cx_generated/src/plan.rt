ghost use Rattle.std.specs.Prelude.{◌≡◌, ◌++◌, IfOk, OnOk};
ghost use Rattle.cx_code.specs.Violation.{semantic_name};
ghost use Rattle.cx_generated.specs.Generated.{semantic_of, calls_name, plan_name, plan_line, plan_text};

use crate::put::{put_number, put_unit_name};
use cx_outside::{NoMemory, Text};
use std::alloc::Global;

/// The name of the plan's file: `m.plan`. It is this project's own.
pub fn plan_name() -> &'static str
    ensures { result.now ≡ plan_name }
{
    "m.plan"
}

/// The text of the plan of so many units, a line each, which goes through the semantics, the callers' checks and the
/// repetitions. What it says is this project's own.
///
/// - `NoMemory`: there was no memory.
#[tactic(auto, unfolding(crate::specs::Generated::plan_text))]
pub fn plan_text(alloc: Global, units: u8) -> Result<Text, NoMemory>
    ensures { IfOk result (λ text. text ≡ plan_text units) }
{
    let mut text = Text::new(alloc);
    for unit in 1..u32::from(units) + 1 {
        put_line(&mut text, unit)?;
    }
    Ok(text)
}

/// `unit mI.cpp SEMANTIC CALLS REPEAT`.
fn put_line(out: &mut Text, unit: u32) -> Result<(), NoMemory>
    ensures { OnOk result (out.new ≡ out.old ++ plan_line unit) }
{
    out.append(b"unit ")?;
    put_unit_name(out, unit)?;
    out.append(b" ")?;
    out.append(semantic_name(unit % 4).as_bytes())?;
    out.append(b" ")?;
    out.append(calls_name(unit % 3).as_bytes())?;
    out.append(b" ")?;
    put_number(out, unit % 8)?;
    out.append(b"\n")?;
    Ok(())
}

/// The semantic of a unit, by its number modulo 4.
fn semantic_name(rest: u32) -> &'static str
    ensures { result.now ≡ semantic_name (semantic_of rest) }
{
    match rest {
        0 => "ignore",
        1 => "observe",
        2 => "enforce",
        _ => "quick_enforce",
    }
}

/// Which assertions a unit checks as caller, by its number modulo 3.
fn calls_name(rest: u32) -> &'static str
    ensures { result.now ≡ calls_name rest }
{
    match rest {
        0 => "none",
        1 => "pre",
        _ => "all",
    }
}
