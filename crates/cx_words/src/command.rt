ghost use Rattle.std.specs.Prelude.{◌≡◌, false, IfOk};
ghost use Rattle.clap.specs.Words.{app_of, rule_of};
ghost use Rattle.cx_words.specs.Command.{command, names_rule, option_rule, output_rule, verb_rule};

use clap::{Arg, Command};
use cx_outside::NoMemory;
use std::alloc::Global;

/// The command that clap reads the words of.
pub fn command<'w>(alloc: Global) -> Result<Command<'w>, NoMemory>
    ensures { IfOk result (λ made. app_of made ≡ command) }
{
    let command = Command::new(alloc, "cx")
        .no_binary_name(true)
        .disable_help_flag(true)
        .disable_version_flag(true)
        .arg(verb(alloc))?
        .arg(names(alloc))?
        .arg(output(alloc))?
        .arg(option(alloc, "plan"))?
        .arg(option(alloc, "steps"))?
        .arg(option(alloc, "semantic"))?
        .arg(option(alloc, "journal"))?;
    Ok(command)
}

/// The first word that is no option, which has to be there.
fn verb<'w>(alloc: Global) -> Arg<'w>
    ensures rule { rule_of result ≡ verb_rule }
    ensures own { result.global ≡ false }
{
    Arg::new(alloc, "verb").required(true)
}

/// The words behind the verb that are no options.
fn names<'w>(alloc: Global) -> Arg<'w>
    ensures rule { rule_of result ≡ names_rule }
    ensures own { result.global ≡ false }
{
    Arg::new(alloc, "names").num_args(0..)
}

/// The option `-o`, with one value.
fn output<'w>(alloc: Global) -> Arg<'w>
    ensures rule { rule_of result ≡ output_rule }
    ensures own { result.global ≡ false }
{
    Arg::new(alloc, "output").short('o')
}

/// An option of this long name, with one value.
fn option<'w>(alloc: Global, name: &'w str) -> Arg<'w>
    ensures rule { rule_of result ≡ option_rule name.entry.now }
    ensures own { result.global ≡ false }
{
    Arg::new(alloc, name).long(name)
}
