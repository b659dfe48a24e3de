ghost use Rattle.std.specs.Prelude.{◌≡◌, map, IfOk, is_some, option_map, option_and_then};
ghost use Rattle.std.specs.List.{list_all};
ghost use Rattle.std.specs.String.{string_bytes};
ghost use Rattle.cx_words.specs.Value.{is_name, number_in, most_made};
ghost use Rattle.cx_words.specs.Verbs.{verb_in};
ghost use Rattle.cx_words.specs.Words.{plain_given, plain_request, text_of, steps_of, semantic_of, fits_row, is_name_or_none, has_names, has_size, is_asked, request_by, request_of};

use crate::command::command;
use crate::distinct::are_distinct;
use crate::given::{Given, given_in};
use crate::value::{is_name, number_in, semantic_in};
use crate::verbs::{Row, Verb, fits_number, fits_place, row_of, verb_in};
use clap::error::ErrorKind;
use cx_code::Semantic;
use cx_outside::{Items, NoMemory};
use std::alloc::Global;

/// What the words ask for. This project's own.
#[derive(Debug, Drop)]
pub struct Request<'w> {
    /// What is to be done.
    pub verb: Verb,
    /// The names behind the verb, in their order. Behind `make` it is a decimal number from 1 to 64.
    pub names: Items<&'w str>,
    /// The name of the file that is made, the value of `-o`.
    pub output: Option<&'w str>,
    /// The name of the plan.
    pub plan: Option<&'w str>,
    /// The name of the journal.
    pub journal: Option<&'w str>,
    /// The greatest number of steps of a run, 1,000,000 where the words don't say.
    pub steps: u32,
    /// The semantic of the units that the plan doesn't name, enforce where the words don't say.
    pub semantic: Semantic,
}

const MOST_STEPS: u32 = 10_000_000;

const USUAL_STEPS: u32 = 1_000_000;

const MOST_MADE: u32 = 64;

/// What the words ask for.
///
/// Arguments: the allocator, and the words behind the program's name.
///
/// Result: `None` where the words ask for nothing, as clap refuses them or what it finds doesn't fit the verb. `NoMemory`
/// comes for want of memory alone.
///
/// Source: this project's own.
pub fn read_words<'w>(alloc: Global, words: &'w [String]) -> Result<Option<Request<'w>>, NoMemory>
    ensures { IfOk result (λ request. option_map plain_request request ≡ request_of (map string_bytes words.now)) }
{
    match command(alloc)?.try_get_matches_from(words) {
        Ok(matches) => request_by(alloc, given_in(alloc, &matches)?),
        Err(error) if error.kind() == ErrorKind::OutOfMemory => Err(NoMemory),
        Err(_) => Ok(None),
    }
}

/// What is asked for by the values of the arguments.
fn request_by<'w>(alloc: Global, given: Given<'w>) -> Result<Option<Request<'w>>, NoMemory>
    ensures { IfOk result (λ request. option_map plain_request request ≡ request_by (plain_given given.entry)) }
{
    let (Some(verb), Some(steps), Some(semantic)) = (
        verb_of(given.verb),
        steps_of(given.steps),
        semantic_of(given.semantic),
    ) else {
        return Ok(None);
    };
    if !is_asked(alloc, verb, &given)? {
        return Ok(None);
    }
    Ok(Some(Request {
        verb,
        names: given.names,
        output: given.output,
        plan: given.plan,
        journal: given.journal,
        steps,
        semantic,
    }))
}

/// The verb, if it is one.
fn verb_of(word: Option<&str>) -> Option<Verb>
    ensures { result ≡ option_and_then verb_in (text_of word.entry) }
{
    verb_in(word?)
}

/// The limit of steps, if the option has one or isn't there.
fn steps_of(word: Option<&str>) -> Option<u32>
    ensures { result ≡ steps_of (text_of word.entry) }
{
    match word {
        Some(word) => number_in(MOST_STEPS, word),
        None => Some(USUAL_STEPS),
    }
}

/// The semantic, if the option has one or isn't there.
fn semantic_of(word: Option<&str>) -> Option<Semantic>
    ensures { result ≡ semantic_of (text_of word.entry) }
{
    match word {
        Some(word) => semantic_in(word),
        None => Some(Semantic::Enforce),
    }
}

/// Whether the values fit the verb.
fn is_asked(alloc: Global, verb: Verb, given: &Given) -> Result<bool, NoMemory>
    ensures { IfOk result (λ answer. answer ≡ is_asked verb (plain_given given.now)) }
{
    let names = given.names.items();
    if !fits_row(row_of(verb), given) || !has_names(given) || !has_size(verb, names) {
        return Ok(false);
    }
    are_distinct(alloc, names)
}

/// Whether the options are those of the row, and the number of names fits it.
fn fits_row(row: Row, given: &Given) -> bool
    ensures { result ≡ fits_row row (plain_given given.now) }
{
    fits_place(row.output, given.output.is_some())
        && fits_place(row.plan, given.plan.is_some())
        && fits_place(row.steps, given.steps.is_some())
        && fits_place(row.semantic, given.semantic.is_some())
        && fits_place(row.journal, given.journal.is_some())
        && fits_number(row.names, given.names.items().len())
}

/// Whether what is named has a name.
fn has_names(given: &Given) -> bool
    ensures { result ≡ has_names (plain_given given.now) }
{
    are_names(given.names.items())
        && is_name_or_none(given.output)
        && is_name_or_none(given.plan)
        && is_name_or_none(given.journal)
}

fn are_names(names: &[&str]) -> bool
    ensures { result ≡ list_all (λ name. is_name name.now) names.now }
{
    names.iter().all(|name| is_name(name))
}

fn is_name_or_none(value: Option<&str>) -> bool
    ensures { result ≡ is_name_or_none (text_of value.entry) }
{
    match value {
        Some(word) => is_name(word),
        None => true,
    }
}

/// Whether the verb `make` has a number behind it.
fn has_size(verb: Verb, names: &[&str]) -> bool
    ensures { result ≡ has_size verb (map (λ name. name.now) names.now) }
{
    match verb {
        Verb::Make => are_sizes(names),
        _ => true,
    }
}

fn are_sizes(names: &[&str]) -> bool
    ensures { result ≡ list_all (λ name. is_some (number_in most_made name.now)) names.now }
{
    names
        .iter()
        .all(|name| number_in(MOST_MADE, name).is_some())
}
