//! What is printed of a kept automaton, by the options.

ghost use Rattle.std.specs.Prelude.{◌≡◌, IfOk, IsErrOf};
ghost use Rattle.clap.specs.Words.{found_of, rows_of};
ghost use Rattle.filter_plan.specs.inner.Outputs.{IsOutput};
ghost use Rattle.filter_plan.specs.declared.plan.Output.{Output};

use crate::reading::value_of;
use crate::{Output, StatsText, UsageFault};
use aut_base::Text;
use clap::ArgMatches;
use std::alloc::Global;

/// What is printed of an automaton, or `Usage` exactly where one of the options for it can't be read, or both are given.
pub(crate) fn output_of(alloc: Global, matches: &ArgMatches) -> Result<Output, UsageFault>
    ensures output { IfOk result (IsOutput (rows_of (found_of matches.now))) }
    ensures usage { IsErrOf result UsageFault.Usage → (output : Output) → IsOutput (rows_of (found_of matches.now)) output → ⊥ }
{
    let figures = value_of::<StatsText>(alloc, matches, "stats")?;
    let refuted = value_of::<Text>(alloc, matches, "refute")?;
    match (figures, refuted) {
        (None, None) => Ok(Output::Hoa),
        (Some(format), None) => Ok(Output::Stats(format)),
        (None, Some(file)) => Ok(Output::Refute(file)),
        (Some(_), Some(_)) => Err(UsageFault::Usage),
    }
}
