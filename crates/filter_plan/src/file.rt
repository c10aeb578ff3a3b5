//! Options and operands whose values are names of files.

ghost use Rattle.std.specs.Prelude.{◌≡◌, ◌++◌, IfErr, OnOk, map};
ghost use Rattle.clap.specs.Words.{found_of, rows_of};
ghost use Rattle.filter_plan.specs.Table.{IsFile, values_of};

use crate::UsageFault;
use crate::reading::OptionValue;
use crate::values::values;
use aut_base::{Text, Words};
use clap::ArgMatches;
use std::alloc::Global;

impl OptionValue for Text {
    ghost is_read = { IsFile };

    /// The text as the name of a file.
    fn read(alloc: Global, text: &str) -> Result<Text, UsageFault> {
        Ok(Text::from_bytes(alloc, text.as_bytes())?)
    }
}

/// Appends the files that the option or operand has as its values to the list. The only fault is want of memory.
pub(crate) fn add_files(
    alloc: Global,
    files: &mut Words,
    matches: &ArgMatches,
    id: &str,
) -> Result<(), UsageFault>
    ensures files { OnOk result (files.new ≡ files.old ++ values_of id.now (rows_of (found_of matches.now))) }
    ensures memory { IfErr result (λ fault. fault ≡ UsageFault.Memory) }
{
    match values(matches, id) {
        Some(names) => add_all(alloc, files, names),
        None => Ok(()),
    }
}

/// Appends these files to the list.
fn add_all(alloc: Global, files: &mut Words, names: &[&str]) -> Result<(), UsageFault>
    ensures files { OnOk result (files.new ≡ files.old ++ map (λ t. t.now) names.now) }
    ensures memory { IfErr result (λ fault. fault ≡ UsageFault.Memory) }
{
    'names: for name in names {
        files.push(Text::from_bytes(alloc, name.as_bytes())?)?;
    }
    Ok(())
}
