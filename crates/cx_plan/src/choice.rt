ghost use Rattle.std.specs.Prelude.{◌≡◌, ◌+◌, drop};
ghost use Rattle.cx_plan.specs.Chosen.{choice_or, choice_among, choice_of, semantic_among, chosen_of};

use crate::plan::{Directive, Plan};
use cx_code::Semantic;
use cx_core::{Calls, Choice};

/// What the plan says of a unit; without a line of its own the unit has the plan's one semantic, and checks neither as
/// Caller nor again. Takes no memory. (This project's own.)
pub fn unit_choice(plan: &Plan, unit: &[u8]) -> Choice
    ensures { result ≡ choice_of plan.now unit.now }
{
    for line in plan.lines.items() {
        if let Directive::Unit(name, choice) = &line.says {
            if name.bytes() == unit {
                return *choice;
            }
        }
    }
    Choice {
        semantic: plan.semantic,
        calls: Calls::Nothing,
        repeat: 0,
    }
}

/// The semantic of an assertion of a unit: that of the line on it, or else the unit's. Takes no memory. (This project's
/// own.)
pub fn chosen(plan: &Plan, unit: &[u8], assertion: &[u8]) -> Semantic
    ensures { result ≡ chosen_of plan.now unit.now assertion.now }
{
    for line in plan.lines.items() {
        if let Directive::At(name, other, semantic) = &line.says {
            if name.bytes() == unit && other.bytes() == assertion {
                return *semantic;
            }
        }
    }
    unit_choice(plan, unit).semantic
}
