//! A chain of functions over one or two units, each with a precondition and a postcondition, which both parties may
//! evaluate, with repetitions.
use crate::build::{Build, Made};
use cx_code::{AssertionKind, Party, Semantic};
use cx_core::{Assertion, BinaryOperator, Operand, ResultKind, Specifier};
use cx_mean::{CallerChecks, Function, PlannedAssertion, Program};
use cx_outside::{NoMemory, Text};
use cx_plain_state::Evaluation;
use std::alloc::Global;

/// How many units there are.
#[derive(Clone, Copy)]
pub enum Units {
    One,
    Two,
}

impl Units {
    /// The number of the last function; sixteen are in a unit, and they are numbered from 1.
    fn last(self) -> u32 {
        match self {
            Units::One => 16,
            Units::Two => 32,
        }
    }

    /// The unit of `main`.
    fn of_main(self) -> u32 {
        match self {
            Units::One => 0,
            Units::Two => 1,
        }
    }

    /// The unit whose code calls a function: that of the next function, or of `main`.
    fn calling(self, number: u32) -> u32 {
        if number == self.last() {
            self.of_main()
        } else {
            number / 16
        }
    }
}

/// The unit of a function.
fn unit_of(number: u32) -> u32 {
    if number <= 16 { 0 } else { 1 }
}

/// What the plan says of a unit: under which semantic it evaluates, how often, and whether as Caller of postconditions
/// too. As Caller of preconditions both units evaluate.
#[derive(Clone, Copy)]
struct Plan {
    semantic: Semantic,
    times: u16,
    takes_all: bool,
}

/// `unit m1.cpp observe pre 1` and `unit m2.cpp enforce all 2`.
fn plan_of(unit: u32) -> Plan {
    match unit {
        0 => Plan {
            semantic: Semantic::Observe,
            times: 2,
            takes_all: false,
        },
        _ => Plan {
            semantic: Semantic::Enforce,
            times: 3,
            takes_all: true,
        },
    }
}

/// The name of the one precondition or postcondition of a function.
fn name(alloc: Global, number: u32, kind: AssertionKind) -> Made<Text> {
    let text = match kind {
        AssertionKind::Pre => format!(in alloc; "f{number}#pre1")?,
        AssertionKind::Post => format!(in alloc; "f{number}#post1")?,
        AssertionKind::Assert => format!(in alloc; "f{number}#assert1")?,
    };
    Text::copy_of(alloc, text.as_bytes())
}

/// `x >= 0` or `r >= x`, its place aside.
fn assertion(alloc: Global, number: u32, kind: AssertionKind) -> Made<Assertion> {
    let comment: &[u8] = match kind {
        AssertionKind::Post => b"r >= x",
        _ => b"x >= 0",
    };
    Ok(Assertion {
        kind,
        name: name(alloc, number, kind)?,
        file: Text::copy_of(alloc, b"m.cpp")?,
        line: 1,
        column: 1,
        comment: Text::copy_of(alloc, comment)?,
    })
}

/// The specifier of a function under the plan of a unit. Its assertion is added to the table.
fn specifier(
    b: Build,
    table: &mut Vec<PlannedAssertion>,
    number: u32,
    kind: AssertionKind,
    plan: Plan,
) -> Made<Specifier> {
    let Ok(index) = u32::try_from(table.len()) else {
        return Err(NoMemory);
    };
    table.push(PlannedAssertion {
        assertion: assertion(b.alloc, number, kind)?,
        semantic: plan.semantic,
        times: plan.times,
    })?;
    b.specifier(index, predicate(b, kind))
}

fn predicate(b: Build, kind: AssertionKind) -> Made<Operand> {
    match kind {
        AssertionKind::Post => b.ints(
            BinaryOperator::GreaterEqual,
            b.read_int(b.result_name()),
            b.value_in(0),
        ),
        _ => b.ints(BinaryOperator::GreaterEqual, b.value_in(0), b.number(0)),
    }
}

/// `x` in the first function, and one more than the function before it in the others.
fn value_of(b: Build, number: u32) -> Made<Operand> {
    if number < 2 {
        return b.value_in(0);
    }
    let before = b.called(number - 1, b.list([b.int_argument(b.value_in(0))]));
    b.ints(BinaryOperator::Add, before, b.number(1))
}

/// `int f(const int x) pre(x >= 0) post(r : r >= x) { return ..; }`
fn function(b: Build, table: &mut Vec<PlannedAssertion>, number: u32) -> Made<Function> {
    let unit = unit_of(number);
    let plan = plan_of(unit);
    let before = specifier(b, table, number, AssertionKind::Pre, plan);
    let after = specifier(b, table, number, AssertionKind::Post, plan);
    let body = b.list([b.returns(value_of(b, number))]);
    let plain = b.in_unit(unit, b.function(ResultKind::ScalarObject, body));
    b.before(b.list([before]), b.after(b.list([after]), plain))
}

/// What a unit checks as Caller of a function.
fn caller(
    b: Build,
    table: &mut Vec<PlannedAssertion>,
    number: u32,
    plan: Plan,
) -> Made<CallerChecks> {
    let before = b.list([specifier(b, table, number, AssertionKind::Pre, plan)]);
    if plan.takes_all {
        let after = specifier(b, table, number, AssertionKind::Post, plan);
        return b.checks(before, b.list([after]));
    }
    b.checks(before, b.list([]))
}

/// What a unit checks as Caller, by function.
fn callers(
    b: Build,
    table: &mut Vec<PlannedAssertion>,
    units: Units,
    unit: u32,
) -> Made<Vec<CallerChecks>> {
    let mut checks = b.list([b.no_checks()])?;
    for number in 1..=units.last() {
        checks.push(caller(b, table, number, plan_of(unit))?)?;
    }
    Ok(checks)
}

/// The sixteen functions of each unit, behind `main`, which calls the last one with 0.
fn functions(b: Build, table: &mut Vec<PlannedAssertion>, units: Units) -> Made<Vec<Function>> {
    let arguments = b.list([b.int_argument(b.number(0))]);
    let main = b.main(b.list([b.returns(b.called(units.last(), arguments))]));
    let mut functions = b.list([b.in_unit(units.of_main(), main)])?;
    for number in 1..=units.last() {
        functions.push(function(b, table, number)?)?;
    }
    Ok(functions)
}

/// In each unit sixteen such functions, each of which calls the one before it, and in the last unit
/// `int main() { return f(0); }`, which calls the last one.
pub fn chain_of(b: Build, units: Units) -> Made<Program> {
    let mut table = Vec::new(b.alloc);
    let functions = functions(b, &mut table, units);
    let mut program = b.program(functions)?;
    for unit in 0..=units.of_main() {
        let checks = callers(b, &mut table, units, unit)?;
        program.callers.push(checks)?;
    }
    program.assertions = table;
    Ok(program)
}

/// The evaluations that one party makes of an assertion in a block are added.
fn add_row(
    alloc: Global,
    begins: &mut Vec<Evaluation>,
    number: u32,
    kind: AssertionKind,
    party: Party,
    plan: Plan,
) -> Made<()> {
    for _ in 0..plan.times {
        begins.push(Evaluation {
            assertion: name(alloc, number, kind)?,
            party,
            semantic: plan.semantic,
        })?;
    }
    Ok(())
}

/// The evaluations of preconditions, from the last function to the first, the Caller's before the Definer's, are added.
fn add_before(alloc: Global, begins: &mut Vec<Evaluation>, units: Units) -> Made<()> {
    for number in (1..=units.last()).rev() {
        let calling = plan_of(units.calling(number));
        let own = plan_of(unit_of(number));
        add_row(
            alloc,
            begins,
            number,
            AssertionKind::Pre,
            Party::Caller,
            calling,
        )?;
        add_row(
            alloc,
            begins,
            number,
            AssertionKind::Pre,
            Party::Definer,
            own,
        )?;
    }
    Ok(())
}

/// The evaluations of postconditions, from the first function to the last, the Definer's before the Caller's, are added.
fn add_after(alloc: Global, begins: &mut Vec<Evaluation>, units: Units) -> Made<()> {
    for number in 1..=units.last() {
        let calling = plan_of(units.calling(number));
        let own = plan_of(unit_of(number));
        add_row(
            alloc,
            begins,
            number,
            AssertionKind::Post,
            Party::Definer,
            own,
        )?;
        if calling.takes_all {
            add_row(
                alloc,
                begins,
                number,
                AssertionKind::Post,
                Party::Caller,
                calling,
            )?;
        }
    }
    Ok(())
}

/// The evaluations that a run of such a program begins, in their order.
pub fn begins_of_chain(alloc: Global, units: Units) -> Made<Vec<Evaluation>> {
    let mut begins = Vec::new(alloc);
    add_before(alloc, &mut begins, units)?;
    add_after(alloc, &mut begins, units)?;
    Ok(begins)
}
