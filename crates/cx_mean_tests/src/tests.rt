use crate::build::{Build, Made};
use crate::programs::Worked;
use crate::programs::chain::{Units, begins_of_chain, chain_of};
use crate::rows::budgets::Spent;
use crate::rows::{
    LARGE, Row, assertions, blocks, budgets, depth, exceptions, expressions, handlers, objects,
    pointers,
};
use crate::told::{Counts, begins_in, counted, told};
use cx_code::{Ending, Party, Semantic};
use cx_mean::{Program, mean_of};
use cx_outside::{NoMemory, Text};
use cx_plain_state::{Answer, Evaluation};
use std::alloc::Global;
use std::test::Fail;

/// A run of a program, as text.
fn run_under(
    alloc: Global,
    program: &Program,
    begins: &[Evaluation],
    input: &[u8],
    budget: u64,
) -> Made<String> {
    match mean_of(alloc, program, begins, input, budget) {
        Ok(meaning) => told(alloc, &meaning),
        Err(_) => Err(NoMemory),
    }
}

/// The run of a row's program, as text.
fn run_of(alloc: Global, row: Row) -> Made<String> {
    let program = row.of.program(Build { alloc })?;
    let begins = begins_in(alloc, row.begins.unwrap_or(row.told))?;
    run_under(alloc, &program, begins.as_slice(), row.input, row.budget)
}

/// The first row whose program has another run, by its index, and that run.
fn first_other(alloc: Global, rows: &[Row]) -> Made<Option<(usize, String)>> {
    for (index, row) in rows.iter().enumerate() {
        let told = run_of(alloc, *row)?;
        if told.as_str() != row.told {
            return Ok(Some((index, told)));
        }
    }
    Ok(None)
}

#[test]
fn a_contract_assert_is_evaluated_under_its_semantic(rt: HostRuntime) -> Result<(), Fail> {
    assert_eq!(rt; first_other(rt.alloc(), assertions::ROWS)?, None);
    Ok(())
}

#[test]
fn a_block_of_checks_takes_the_permitted_orders_alone(rt: HostRuntime) -> Result<(), Fail> {
    assert_eq!(rt; first_other(rt.alloc(), blocks::ROWS)?, None);
    Ok(())
}

#[test]
fn expressions_give_their_values_or_end_undefined(rt: HostRuntime) -> Result<(), Fail> {
    assert_eq!(rt; first_other(rt.alloc(), expressions::ROWS)?, None);
    Ok(())
}

#[test]
fn objects_are_made_copied_and_destroyed_in_their_order(rt: HostRuntime) -> Result<(), Fail> {
    assert_eq!(rt; first_other(rt.alloc(), objects::ROWS)?, None);
    Ok(())
}

#[test]
fn exceptions_destroy_what_they_leave_up_to_an_edge(rt: HostRuntime) -> Result<(), Fail> {
    assert_eq!(rt; first_other(rt.alloc(), exceptions::ROWS)?, None);
    Ok(())
}

#[test]
fn violation_handlers_are_told_of_the_violation_and_may_throw(rt: HostRuntime) -> Result<(), Fail> {
    assert_eq!(rt; first_other(rt.alloc(), handlers::ROWS)?, None);
    Ok(())
}

#[test]
fn calls_are_at_most_4096_deep(rt: HostRuntime) -> Result<(), Fail> {
    assert_eq!(rt; first_other(rt.alloc(), depth::ROWS)?, None);
    Ok(())
}

#[test]
fn calls_through_pointers_have_the_definer_alone(rt: HostRuntime) -> Result<(), Fail> {
    assert_eq!(rt; first_other(rt.alloc(), pointers::ROWS)?, None);
    Ok(())
}

/// Whether a run goes on, behind some of these lines.
fn is_going(run: &str, lines: &str) -> bool {
    match run.strip_suffix("going\n") {
        Some(front) => lines.starts_with(front),
        None => false,
    }
}

/// The first budget under which a program's run is another than its units say, and that run.
fn first_other_budget(alloc: Global, spent: Spent) -> Made<Option<(u64, String)>> {
    let program = spent.of.program(Build { alloc })?;
    let begins = begins_in(alloc, spent.told)?;
    for budget in 0..=spent.units {
        let run = run_under(alloc, &program, begins.as_slice(), b"", budget)?;
        if !is_going(run.as_str(), spent.told) {
            return Ok(Some((budget, run)));
        }
    }
    let budget = spent.units.saturating_add(1);
    let run = run_under(alloc, &program, begins.as_slice(), b"", budget)?;
    if run.as_str() != spent.told {
        return Ok(Some((budget, run)));
    }
    Ok(None)
}

#[test]
fn a_run_goes_on_until_its_units_are_spent(rt: HostRuntime) -> Result<(), Fail> {
    let alloc = rt.alloc();
    assert_eq!(rt; first_other(alloc, budgets::ROWS)?, None);
    for (index, spent) in budgets::SPENT.iter().enumerate() {
        assert_eq!(rt; first_other_budget(alloc, *spent)?, None, "{index}");
    }
    Ok(())
}

/// The assertion of `main`, and that of the handler so often.
fn begins_of_handlers(alloc: Global, times: u32) -> Made<Vec<Evaluation>> {
    let mut begins = begins_in(alloc, "begin main#assert1 definer enforce\n")?;
    for _ in 0..times {
        begins.push(Evaluation {
            assertion: Text::copy_of(alloc, b"handle_contract_violation#assert1")?,
            party: Party::Definer,
            semantic: Semantic::Enforce,
        })?;
    }
    Ok(begins)
}

/// The counts of a run that ends, and how it ends.
fn counts_of(
    alloc: Global,
    program: &Program,
    begins: &[Evaluation],
) -> Made<Option<(Counts, Ending)>> {
    match mean_of(alloc, program, begins, b"", LARGE) {
        Ok(meaning) => match meaning.answer {
            Answer::Ended(ending) => Ok(Some((counted(meaning.trace.as_slice()), ending))),
            _ => Ok(None),
        },
        Err(_) => Err(NoMemory),
    }
}

#[test]
fn handlers_within_handlers_become_too_deep(rt: HostRuntime) -> Result<(), Fail> {
    let alloc = rt.alloc();
    let program = Worked::HandlingWithinHandling.program(Build { alloc })?;
    let begins = begins_of_handlers(alloc, 4095)?;
    let wanted = Counts {
        begins: 4096,
        verdicts: 4096,
        handlers: 4095,
        events: 4096 + 4096 + 4095,
    };
    let found = counts_of(alloc, &program, begins.as_slice())?;
    assert_eq!(rt; found, Some((wanted, Ending::TooDeep)));
    Ok(())
}

/// The counts of a run of a chain of functions, and how it ends.
fn counts_of_chain(alloc: Global, units: Units) -> Made<Option<(Counts, Ending)>> {
    let program = chain_of(Build { alloc }, units)?;
    let begins = begins_of_chain(alloc, units)?;
    counts_of(alloc, &program, begins.as_slice())
}

#[test]
fn a_chain_of_functions_is_checked_by_both_parties(rt: HostRuntime) -> Result<(), Fail> {
    for (units, begins, events, value) in [(Units::One, 96, 192, 15), (Units::Two, 292, 584, 31)] {
        let wanted = Counts {
            begins,
            verdicts: begins,
            handlers: 0,
            events,
        };
        let found = counts_of_chain(rt.alloc(), units)?;
        assert_eq!(rt; found, Some((wanted, Ending::Returned(value))));
    }
    Ok(())
}
