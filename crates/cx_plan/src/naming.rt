ghost use Rattle.std.specs.Prelude.{◌≡◌, None, Some, MatchOption, MatchResult};
ghost use Rattle.cx_plan.specs.Names.{is_named, has_assertion, has_unit, has_pair, directive_fault, names_fault, own_fault, own_names_fault};

use crate::fault::PlanFault;
use crate::plan::{Directive, Plan, PlanLine};
use cx_core::CoreUnit;

/// Whether each line of a plan names one of the units, or an assertion of one. Takes no memory.
///
/// Otherwise the first line concerned: `UnknownUnit` where no unit has the name, `UnknownAssertion` where the unit of the
/// name neither declares nor defines a function with the assertion. No other fault is answered. (This project's own.)
pub fn names(plan: &Plan, units: &[CoreUnit]) -> Result<(), PlanFault>
    ensures { MatchResult result (λ _. names_fault units.now plan.now.lines ≡ None) (λ fault. names_fault units.now plan.now.lines ≡ Some fault) }
{
    for line in plan.lines.items() {
        if let Some(fault) = fault_of(units, line) {
            return Err(fault);
        }
    }
    Ok(())
}

/// Whether each line of a plan that is on an assertion of this unit names one that the unit has. Lines on other units
/// aren't looked at. Takes no memory.
///
/// Otherwise `UnknownAssertion` with the first line concerned, and no other fault. (This project's own.)
pub fn names_of(plan: &Plan, unit: &CoreUnit) -> Result<(), PlanFault>
    ensures { MatchResult result (λ _. own_names_fault unit.now plan.now.lines ≡ None) (λ fault. own_names_fault unit.now plan.now.lines ≡ Some fault) }
{
    for line in plan.lines.items() {
        if let Some(fault) = own_fault_of(unit, line) {
            return Err(fault);
        }
    }
    Ok(())
}

fn fault_of(units: &[CoreUnit], line: &PlanLine) -> Option<PlanFault>
    ensures { result ≡ directive_fault units.now line.now.number line.now.says }
{
    match &line.says {
        Directive::Unit(name, _) => {
            if has_unit(units, name.bytes()) {
                None
            } else {
                Some(PlanFault::UnknownUnit(line.number))
            }
        }
        Directive::At(name, assertion, _) => {
            if !has_unit(units, name.bytes()) {
                Some(PlanFault::UnknownUnit(line.number))
            } else if has_pair(units, name.bytes(), assertion.bytes()) {
                None
            } else {
                Some(PlanFault::UnknownAssertion(line.number))
            }
        }
    }
}

fn own_fault_of(unit: &CoreUnit, line: &PlanLine) -> Option<PlanFault>
    ensures { result ≡ own_fault unit.now line.now.number line.now.says }
{
    match &line.says {
        Directive::Unit(_, _) => None,
        Directive::At(name, assertion, _) => {
            if is_named(name.bytes(), unit) && !has_assertion(assertion.bytes(), unit) {
                Some(PlanFault::UnknownAssertion(line.number))
            } else {
                None
            }
        }
    }
}

fn has_unit(units: &[CoreUnit], name: &[u8]) -> bool
    ensures { result ≡ has_unit units.now name.now }
{
    units.iter().any(|unit| is_named(name, unit))
}

fn has_pair(units: &[CoreUnit], name: &[u8], assertion: &[u8]) -> bool
    ensures { result ≡ has_pair units.now name.now assertion.now }
{
    units.iter().any(|unit| is_named(name, unit) && has_assertion(assertion, unit))
}

fn is_named(name: &[u8], unit: &CoreUnit) -> bool
    ensures { result ≡ is_named name.now unit.now }
{
    unit.name.bytes() == name
}

fn has_assertion(assertion: &[u8], unit: &CoreUnit) -> bool
    ensures { result ≡ has_assertion assertion.now unit.now }
{
    unit.assertions
        .items()
        .iter()
        .any(|entry| entry.name.bytes() == assertion)
}
