//! Rows of checks: what is owed, and what the row may go on with.
ghost use Rattle.std.specs.Prelude.{◌≡◌, ◌<◌, length, map, nat_eq, IfOk, IfErr, IfSome};
ghost use Rattle.std.specs.Option.{option_map};
ghost use Rattle.cx_core.specs.Block.{begin_told, next_told};
ghost use Rattle.cx_core.specs.Event.{party_number, same_evaluation, semantic_number};
ghost use Rattle.cx_core.specs.View.{operand_of};
ghost use Rattle.cx_plain.specs.Step.{continued, due_in_all, evaluation_of as evaluation_by, first_due, has_stood};
ghost use Rattle.cx_plain_state.specs.declared.answer.Halt.TheVariants.{Want};
ghost use Rattle.cx_plain_state.specs.Ran.{Ran, unit_of};
ghost use Rattle.cx_plain_state.specs.Seen.{evaluation_of, state_of};
ghost use Rattle.cx_mean_parts.specs.Seen.{Table, checks_of, table_of};
ghost use Rattle.cx_mean_parts.specs.Tasks.{check_seen, due_of, row_of};
ghost use Rattle.cx_mean_parts.specs.CallParts.{checks_due, place_due};

use cx_code::{Party, Semantic};
use cx_core::{Operand, Specifier};
use cx_mean_parts::machine::Machine;
use cx_mean_parts::task::{Check, Due, Row};
use cx_plain_state::{Answer, Evaluation, Event, Halt, State};

/// The next evaluation that is told.
#[tactic(auto, unfolding(cx_plain_state::specs::Seen::state_of, cx_core::specs::Block::next_told))]
pub(crate) fn next_told<'p>(state: &State<'p>) -> Result<&'p Evaluation, Halt>
    ensures { Ran (λ e. evaluation_of e.now) (next_told (state_of state.now)) result (state_of state.now) }
{
    match state.begins.first() {
        Some(e) => Ok(e),
        None => Err(Halt::Over(Answer::Waiting)),
    }
}

/// The evaluation that is told begins.
#[tactic(auto, unfolding(cx_plain_state::specs::Seen::state_of, cx_core::specs::Block::begin_told))]
pub(crate) fn begin_told(state: &mut State<'_>) -> Result<(), Halt>
    ensures { Ran unit_of (begin_told (state_of state.old)) result (state_of state.new) }
{
    match state.begins.split_first() {
        None => Err(Halt::Over(Answer::Waiting)),
        Some((e, rest)) => {
            state.trace.push(Event::Begin(e))?;
            state.begins = rest;
            Ok(())
        }
    }
}

fn is_same_party(a: Party, b: Party) -> bool
    ensures { result ≡ nat_eq (party_number a) (party_number b) }
{
    match (a, b) {
        (Party::Definer, Party::Definer) | (Party::Caller, Party::Caller) => true,
        _ => false,
    }
}

fn semantic_number(semantic: Semantic) -> u8
    ensures { result ≡ semantic_number semantic }
{
    match semantic {
        Semantic::Ignore => 1,
        Semantic::Observe => 2,
        Semantic::Enforce => 3,
        Semantic::QuickEnforce => 4,
    }
}

/// Whether an evaluation is one that a party makes of an assertion.
fn is_evaluation(e: &Evaluation, party: Party, check: Check<'_>) -> bool
    ensures { result ≡ same_evaluation (evaluation_of e.now) (evaluation_by party (check_seen check.entry).of) }
{
    e.assertion.bytes() == check.planned.assertion.name.bytes()
        && is_same_party(e.party, party)
        && semantic_number(e.semantic) == semantic_number(check.planned.semantic)
}

/// Whether an assertion has stood once, or is never to stand.
fn has_stood(due: &Due<'_>) -> bool
    ensures { result ≡ has_stood (due_of due.now) }
{
    due.left < due.check.planned.times || due.check.planned.times == 0
}

/// The place of the assertion whose evaluation is told, if each before it has stood.
fn place_due(e: &Evaluation, party: Party, due: &[Due<'_>]) -> Option<usize>
    ensures value { result ≡ place_due party (evaluation_of e.now) (map due_of due.now) }
    ensures within { IfSome result (λ i. i < length due.now) }
{
    let (first, rest) = due.split_first()?;
    if is_evaluation(e, party, first.check) {
        return Some(0);
    }
    if !has_stood(first) {
        return None;
    }
    Some(place_due(e, party, rest)? + 1)
}

/// The assertion whose evaluation is told, if the row may go on with it, and what is owed then.
pub(crate) fn go_on<'p>(
    e: &Evaluation,
    party: Party,
    due: Vec<Due<'p>>,
) -> Option<(Check<'p>, Vec<Due<'p>>)>
    ensures { option_map (λ more. (check_seen more.0, map due_of more.1.items)) result ≡ continued party (evaluation_of e.now) (map due_of due.entry.items) }
{
    let mut due = due;
    let i = place_due(e, party, &due)?;
    let Due { check, left } = due[i];
    let left = left.checked_sub(1)?;
    due[i] = Due { check, left };
    Some((check, due))
}

/// How many evaluations are owed in all, or `None` where that is too many for a number.
pub(crate) fn due_in_all(due: &[Due<'_>]) -> Option<u64>
    ensures { IfSome result (λ count. count ≡ due_in_all (checks_due (map due_of due.now))) }
{
    match due.split_first() {
        None => Some(0),
        Some((first, rest)) => u64::from(first.check.planned.times).checked_add(due_in_all(rest)?),
    }
}

/// What is owed of an assertion of the program's table.
fn first_due<'p>(
    machine: &Machine<'p>,
    assertion: u32,
    predicate: &'p Operand,
) -> Result<Due<'p>, Halt>
    ensures due { let n = table_of machine.now.program.now in IfOk result (λ d. due_of d ≡ first_due (record { of = n assertion; predicate = operand_of predicate.now })) }
    ensures want { IfErr result (λ halt. halt ≡ Want) }
{
    let Some(planned) = machine.program.assertions.get(assertion as usize) else {
        return Err(Halt::Want);
    };
    let check = Check { planned, predicate };
    Ok(Due {
        check,
        left: planned.times,
    })
}

/// What is owed of the assertions of a function.
fn all_due<'p>(machine: &Machine<'p>, specifiers: &'p [Specifier]) -> Result<Vec<Due<'p>>, Halt>
    ensures due { let n = table_of machine.now.program.now in IfOk result (λ due. map due_of due.items ≡ map first_due (checks_of n specifiers.now)) }
    ensures want { IfErr result (λ halt. halt ≡ Want) }
{
    let mut due = Vec::new(machine.alloc);
    for s in specifiers {
        due.push(first_due(machine, s.assertion, &s.predicate)?)?;
    }
    Ok(due)
}

/// What a row owes at first. An assertion that isn't in the program's table is want of it.
pub(crate) fn row_due<'p>(machine: &Machine<'p>, row: Row<'p>) -> Result<Vec<Due<'p>>, Halt>
    ensures due { let n = table_of machine.now.program.now in IfOk result (λ due. map due_of due.items ≡ map first_due (row_of n row.entry)) }
    ensures want { IfErr result (λ halt. halt ≡ Want) }
{
    match row {
        Row::Specifiers(specifiers) => all_due(machine, specifiers),
        Row::Statement(assertion, predicate) => {
            Ok(vec![in machine.alloc; first_due(machine, assertion, predicate)?]?)
        }
    }
}
