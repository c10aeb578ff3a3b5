//! The automaton that was parsed, built.

ghost use Rattle.autfilt_run.specs.inner.Taking.{TakesAutomaton};
ghost use Rattle.hoa_parser.specs.Raw.{written};

use crate::fault::RunFault;
use hoa_reader::{Named, Raw, build};
use std::alloc::Global;

/// Builds the automaton that was parsed, with its name, where it is valid and within the limits of reading.
pub(crate) fn automaton_taken(alloc: Global, raw: Raw) -> Result<Named, RunFault>
    ensures { TakesAutomaton result (written raw) }
{
    Ok(build(alloc, raw)?)
}
