//! What calls ask of the program: the functions and classes with a number, and the checks of a caller.
ghost use Rattle.std.specs.Prelude.{◌≡◌, ◌<◌, ◌^◌, length, slice_get};
ghost use Rattle.std.specs.Option.{option_map};
ghost use Rattle.cx_core.specs.Leaving.{class_at};
ghost use Rattle.cx_core.specs.Meaning.{caller_checks, checks_at, is_implicit_at, or_no_checks};
ghost use Rattle.cx_core.specs.Program.{is_counted};
ghost use Rattle.cx_plain.specs.Step.{no_calls};
ghost use Rattle.cx_plain_state.specs.Ran.{Ran};
ghost use Rattle.cx_plain_state.specs.Seen.{state_of};
ghost use Rattle.cx_mean_parts.specs.Seen.{Table, body_of, caller_of, checks_of, class_of, function_of, table_of, program_of};
ghost use Rattle.cx_mean_parts.specs.CallParts.{function_with};

use cx_code::Kind;
use cx_core::{Body, Specifier};
use cx_mean_parts::machine::Machine;
use cx_mean_parts::program::{CallerChecks, Class, Function};
use cx_plain_state::{Halt, State, undefined};

/// Whether the depth of calls counts a function with this body.
pub(crate) fn is_counted(body: &Body) -> bool
    ensures { (n : Table) → result ≡ is_counted (body_of n body.now) }
{
    !matches!(
        body,
        Body::ImplicitConstructor(_)
            | Body::ImplicitCopyConstructor(_)
            | Body::ImplicitDestructor(_)
    )
}

/// The function with a number.
#[tactic(auto, unfolding(cx_mean_parts::specs::Seen::program_of, cx_core::specs::Outcome::gives, cx_core::specs::Outcome::ends))]
pub(crate) fn function_with<'p>(
    machine: &Machine<'p>,
    state: &State<'p>,
    function: u32,
) -> Result<&'p Function, Halt>
    ensures { let p = machine.now.program.now in Ran (λ f. function_of (table_of p) f.now) (function_with (program_of p) function (state_of state.now)) result (state_of state.now) }
{
    match machine.function_at(function) {
        Some(f) => Ok(f),
        None => Err(undefined(Kind::Mixed)),
    }
}

/// The class with a number.
#[tactic(auto, unfolding(cx_mean_parts::specs::Seen::program_of, cx_core::specs::Outcome::gives, cx_core::specs::Outcome::ends))]
pub(crate) fn class_with<'p>(
    machine: &Machine<'p>,
    state: &State<'p>,
    class: u32,
) -> Result<&'p Class, Halt>
    ensures { let p = machine.now.program.now in Ran (λ c. class_of c.now) (class_at (program_of p) no_calls class (state_of state.now)) result (state_of state.now) }
{
    match machine.class_at(class) {
        Some(c) => Ok(c),
        None => Err(undefined(Kind::Mixed)),
    }
}

/// Whether the function with a number is implicit.
#[tactic(auto, unfolding(cx_mean_parts::specs::Seen::program_of, cx_core::specs::Outcome::gives, cx_core::specs::Outcome::ends))]
pub(crate) fn is_implicit<'p>(machine: &Machine<'p>, function: u32) -> bool
    ensures { result ≡ is_implicit_at (program_of machine.now.program.now) function }
{
    match machine.function_at(function) {
        Some(f) => !is_counted(&f.body),
        None => false,
    }
}

/// What a unit checks of a function as Caller, if the program says it.
#[tactic(auto, unfolding(cx_mean_parts::specs::Seen::program_of, cx_core::specs::Outcome::gives, cx_core::specs::Outcome::ends))]
fn checks_by_caller<'p>(machine: &Machine<'p>, unit: u32, function: u32) -> Option<&'p CallerChecks>
    ensures { let p = machine.now.program.now in or_no_checks (program_of p) no_calls (option_map (λ c. caller_of (table_of p) c.now) result) ≡ checks_at (program_of p) no_calls function (slice_get (program_of p).callers unit) }
{
    machine
        .program
        .callers
        .get(unit as usize)?
        .get(function as usize)
}

/// What the caller checks before a body.
#[tactic(auto, unfolding(cx_mean_parts::specs::Seen::program_of, cx_core::specs::Outcome::gives, cx_core::specs::Outcome::ends))]
pub(crate) fn caller_preconditions<'p>(
    machine: &Machine<'p>,
    unit: u32,
    function: u32,
) -> &'p [Specifier]
    ensures { let p = machine.now.program.now in checks_of (table_of p) result.now ≡ (caller_checks (program_of p) no_calls unit function).preconditions }
{
    match checks_by_caller(machine, unit, function) {
        Some(checks) => &checks.preconditions,
        None => &[],
    }
}

/// What the caller checks after a body.
#[tactic(auto, unfolding(cx_mean_parts::specs::Seen::program_of, cx_core::specs::Outcome::gives, cx_core::specs::Outcome::ends))]
pub(crate) fn caller_postconditions<'p>(
    machine: &Machine<'p>,
    unit: u32,
    function: u32,
) -> &'p [Specifier]
    ensures { let p = machine.now.program.now in checks_of (table_of p) result.now ≡ (caller_checks (program_of p) no_calls unit function).postconditions }
{
    match checks_by_caller(machine, unit, function) {
        Some(checks) => &checks.postconditions,
        None => &[],
    }
}

/// The number of classes.
#[tactic(auto, unfolding(cx_mean_parts::specs::Seen::program_of, cx_core::specs::Outcome::gives, cx_core::specs::Outcome::ends))]
pub(crate) fn class_count<'p>(machine: &Machine<'p>) -> u64
    ensures count { result ≡ length (program_of machine.now.program.now).classes }
    ensures small { result < 2 ^ 63 }
{
    machine.program.classes.len() as u64
}
