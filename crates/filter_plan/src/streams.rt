//! The streams that are read.

ghost use Rattle.std.specs.Prelude.{◌≡◌, ◌≤◌, IfErr, IfOk, IsErrOf, codes, length};
ghost use Rattle.clap.specs.Words.{found_of, rows_of};
ghost use Rattle.filter_plan.specs.Table.{values_of};
ghost use Rattle.filter_plan.specs.Words.{named_streams, streams_of};

use crate::UsageFault;
use crate::file::add_files;
use crate::values::value;
use aut_base::{Text, Words};
use clap::ArgMatches;
use std::alloc::Global;

/// The streams in their order, or `Usage` exactly where the option for the first of them is given twice.
pub(crate) fn read_streams(
    alloc: Global,
    matches: &ArgMatches,
    made: Option<u32>,
) -> Result<Words, UsageFault>
    ensures streams { IfOk result (λ streams. streams ≡ streams_of (named_streams (rows_of (found_of matches.now))) made) }
    ensures once { IfOk result (λ _. length (values_of (codes "file") (rows_of (found_of matches.now))) ≤ 1) }
    ensures usage { IsErrOf result UsageFault.Usage → length (values_of (codes "file") (rows_of (found_of matches.now))) ≤ 1 → ⊥ }
{
    let _first = value(matches, "file")?;
    let mut named = Words::new(alloc);
    add_files(alloc, &mut named, matches, "file")?;
    add_files(alloc, &mut named, matches, "FILE")?;
    or_standard_input(alloc, named, made)
}

/// The named streams, or standard input where none is named and none is generated.
fn or_standard_input(alloc: Global, named: Words, made: Option<u32>) -> Result<Words, UsageFault>
    ensures streams { IfOk result (λ streams. streams ≡ streams_of named made) }
    ensures memory { IfErr result (λ fault. fault ≡ UsageFault.Memory) }
{
    if !named.is_empty() || made.is_some() {
        return Ok(named);
    }
    let mut input = Words::new(alloc);
    input.push(Text::from_bytes(alloc, b"-")?)?;
    Ok(input)
}
