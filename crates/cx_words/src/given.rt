ghost use Rattle.std.specs.Prelude.{◌≡◌, [], map, unwrap_or, codes, IfOk};
ghost use Rattle.clap.specs.Words.{all_of, found_of, rows_of};
ghost use Rattle.cx_words.specs.Words.{plain_given, given_in};

use clap::ArgMatches;
use cx_outside::{Items, NoMemory};
use std::alloc::Global;

/// The values of the arguments that clap found, as they are written.
#[derive(Debug, Drop)]
pub struct Given<'w> {
    pub verb: Option<&'w str>,
    pub names: Items<&'w str>,
    pub output: Option<&'w str>,
    pub plan: Option<&'w str>,
    pub steps: Option<&'w str>,
    pub semantic: Option<&'w str>,
    pub journal: Option<&'w str>,
}

/// The values in what clap found.
pub fn given_in<'w>(alloc: Global, matches: &ArgMatches<'w>) -> Result<Given<'w>, NoMemory>
    ensures { IfOk result (λ given. plain_given given ≡ given_in (rows_of (found_of matches.now))) }
{
    Ok(Given {
        verb: matches.get_str("verb"),
        names: names_in(alloc, matches)?,
        output: matches.get_str("output"),
        plan: matches.get_str("plan"),
        steps: matches.get_str("steps"),
        semantic: matches.get_str("semantic"),
        journal: matches.get_str("journal"),
    })
}

/// The names behind the verb.
fn names_in<'w>(alloc: Global, matches: &ArgMatches<'w>) -> Result<Items<&'w str>, NoMemory>
    ensures { IfOk result (λ names. map (λ name. name.now) names ≡ unwrap_or (all_of (codes "names") (rows_of (found_of matches.now))) []) }
{
    match matches.get_strs("names") {
        Some(names) => copied(alloc, names),
        None => Ok(Items::new(alloc)),
    }
}

/// The names as a list of their own.
fn copied<'w>(alloc: Global, names: &[&'w str]) -> Result<Items<&'w str>, NoMemory>
    ensures { IfOk result (λ list. list ≡ names.now) }
{
    let mut list = Items::new(alloc);
    for name in names {
        list.push(*name)?;
    }
    Ok(list)
}
