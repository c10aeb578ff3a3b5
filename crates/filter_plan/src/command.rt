//! The definition of the command line for `clap`.

ghost use Rattle.std.specs.Prelude.{◌≡◌, IfOk, [], ◌∷◌, ◌++◌, false, fold, map, codes};
ghost use Rattle.clap.specs.Words.{app_of, rule_of, with_rule};
ghost use Rattle.filter_plan.specs.Words.{autfilt, command_of, operands_rule};
ghost use Rattle.filter_plan.specs.inner.Entries.{entry_rule};

use crate::entry::Entry;
use crate::table::TABLE;
use aut_base::Memory;
use clap::{Arg, ArgAction, Command};
use std::alloc::Global;

/// The command with all its options. `clap` adds none of its own.
#[tactic(auto, unfolding(crate::specs::Words::autfilt, crate::specs::Table::table))]
pub(crate) fn command<'a>(alloc: Global) -> Result<Command<'a>, Memory>
    ensures { IfOk result (λ c. app_of c ≡ autfilt) }
{
    Ok(with_options(alloc, bare(alloc), TABLE.as_slice())?.arg(files(alloc))?)
}

/// The command without any option.
fn bare<'a>(alloc: Global) -> Command<'a>
    ensures { app_of result ≡ command_of [] }
{
    Command::new(alloc, "autfilt")
        .no_binary_name(true)
        .disable_help_flag(true)
        .disable_version_flag(true)
        .disable_help_subcommand(true)
}

/// The command with these options added after those that it has.
fn with_options<'a>(
    alloc: Global,
    command: Command<'a>,
    entries: &[Entry],
) -> Result<Command<'a>, Memory>
    ensures { IfOk result (λ c. app_of c ≡ fold with_rule (app_of command.entry) (map entry_rule entries.now)) }
{
    let mut command = command;
    'entries: for entry in entries {
        command = command.arg(argument(alloc, entry))?;
    }
    Ok(command)
}

/// The `clap` argument of an option.
fn argument<'a>(alloc: Global, entry: &Entry) -> Arg<'a>
    ensures rule { rule_of result ≡ entry_rule entry.now }
    ensures local { result.global ≡ false }
{
    let action = if entry.takes_value {
        ArgAction::Set
    } else {
        ArgAction::SetTrue
    };
    let plain = Arg::new(alloc, entry.name).long(entry.name).action(action);
    match entry.letter {
        Some(letter) => plain.short(letter),
        None => plain,
    }
}

/// The `clap` argument of the files that are given without an option.
fn files<'a>(alloc: Global) -> Arg<'a>
    ensures rule { rule_of result ≡ operands_rule (codes "FILE") }
    ensures local { result.global ≡ false }
{
    Arg::new(alloc, "FILE").action(ArgAction::Append)
}
