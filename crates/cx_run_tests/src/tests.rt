use crate::begins::begins_in;
use crate::cuts::{Cuts, first_other_cut};
use crate::subject::{Subject, budget_of};
use crate::told::{machine, meaning};
use crate::units::flow::LONG;
use crate::units::{
    Unit, assertions, conversions, expressions, flow, output, undefined, variables,
};
use std::alloc::Global;
use std::process::Abort;
use std::test::Fail;

/// More steps than any of the units takes.
const LIMIT: u32 = 1_000_000;

/// All tables.
const TABLES: [&[Unit]; 7] = [
    expressions::UNITS,
    undefined::UNITS,
    conversions::UNITS,
    variables::UNITS,
    assertions::UNITS,
    flow::UNITS,
    output::UNITS,
];

/// A unit runs as is told, and means this for the evaluations that it begins.
fn check_unit(rt: &impl Abort, alloc: Global, unit: &Unit) -> Result<(), Fail> {
    let subject = Subject::new(alloc, unit.semantic, unit.text.as_bytes())?;
    let run = subject.run(LIMIT)?;
    let image = subject.image.image();
    let shows = unit.shows;
    let lines = machine::run(alloc, image, &run)?;
    assert_eq!(rt; lines.text(), unit.told, "the machine: {shows}");
    let begins = begins_in(alloc, image, run.journal.items())?;
    let meaning = subject.meaning(begins.as_slice(), budget_of(run.steps))?;
    let lines = meaning::run(alloc, &meaning)?;
    assert_eq!(rt; lines.text(), unit.told, "the meaning: {shows}");
    Ok(())
}

fn check_units(rt: &impl Abort, alloc: Global, units: &[Unit]) -> Result<(), Fail> {
    for unit in units {
        check_unit(rt, alloc, unit)?;
    }
    Ok(())
}

#[test]
fn expressions_have_their_values(rt: HostRuntime) -> Result<(), Fail> {
    check_units(&rt, rt.alloc(), expressions::UNITS)
}

#[test]
fn what_has_no_value_ends_undefined_behind_what_was_written(rt: HostRuntime) -> Result<(), Fail> {
    check_units(&rt, rt.alloc(), undefined::UNITS)
}

#[test]
fn values_are_converted_where_another_type_is_wanted(rt: HostRuntime) -> Result<(), Fail> {
    check_units(&rt, rt.alloc(), conversions::UNITS)
}

#[test]
fn variables_are_visible_in_their_blocks(rt: HostRuntime) -> Result<(), Fail> {
    check_units(&rt, rt.alloc(), variables::UNITS)
}

#[test]
fn assertions_are_evaluated_under_their_semantic(rt: HostRuntime) -> Result<(), Fail> {
    check_units(&rt, rt.alloc(), assertions::UNITS)
}

#[test]
fn branches_loops_and_returns_go_where_they_lead(rt: HostRuntime) -> Result<(), Fail> {
    check_units(&rt, rt.alloc(), flow::UNITS)
}

#[test]
fn bytes_are_written_in_order(rt: HostRuntime) -> Result<(), Fail> {
    check_units(&rt, rt.alloc(), output::UNITS)
}

/// A unit's run is one that it permits wherever it is cut.
fn check_cuts(rt: &impl Abort, alloc: Global, unit: &Unit, cuts: Cuts) -> Result<(), Fail> {
    let subject = Subject::new(alloc, unit.semantic, unit.text.as_bytes())?;
    let run = subject.run(LIMIT)?;
    let other = first_other_cut(alloc, &subject, run.steps, cuts)?;
    let shows = unit.shows;
    assert_eq!(rt; other, None, "{shows}");
    Ok(())
}

#[test]
fn a_run_is_permitted_wherever_it_is_cut(rt: HostRuntime) -> Result<(), Fail> {
    for units in TABLES {
        for unit in units.iter().filter(|unit| unit.cut) {
            check_cuts(&rt, rt.alloc(), unit, Cuts::Each)?;
        }
    }
    Ok(())
}

#[test]
fn a_run_of_many_steps_is_permitted_wherever_it_is_cut(rt: HostRuntime) -> Result<(), Fail> {
    check_unit(&rt, rt.alloc(), &LONG)?;
    check_cuts(&rt, rt.alloc(), &LONG, Cuts::Each64th)
}
