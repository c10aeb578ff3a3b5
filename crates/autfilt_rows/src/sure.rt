//! Runs over inputs and sinks whose types have no faults.

use aut_base::{Limit, Memory, Names, Text, Words};
use aut_io::{SureInputs, SureSink};
use autfilt_run::{Ended, autfilt};
use row_files::{Count, Fault};
use std::alloc::Global;

/// Texts, and the end of a run over each.
const ROWS: [(&[u8], Ended); 5] = [
    (b"", Ended::NoneOutput),
    (
        b"HOA: v1 Acceptance: 0 t --BODY-- State: 0 [t] 0 --END--",
        Ended::Output,
    ),
    (b"HOA: v1 Start 0", Ended::Syntax),
    (
        b"HOA: v1 Acceptance: 1 Inf(1) --BODY-- --END--",
        Ended::Invalid,
    ),
    (
        b"HOA: v1 Acceptance: 513 t --BODY-- --END--",
        Ended::Limit(Limit::Sets),
    ),
];

/// The end of a run without words over this standard input.
fn ended(alloc: Global, text: &[u8]) -> Result<Ended, Memory> {
    Ok(ended_over(alloc, &mut inputs(alloc, text)?))
}

/// Inputs with this standard input alone.
fn inputs(alloc: Global, text: &[u8]) -> Result<SureInputs, Memory> {
    let mut names = Names::new(alloc);
    names.push(Text::from_bytes(alloc, b"-")?)?;
    let mut texts = Words::new(alloc);
    texts.push(Text::from_bytes(alloc, text)?)?;
    Ok(SureInputs::new(names, texts))
}

fn ended_over(alloc: Global, inputs: &mut SureInputs) -> Ended {
    let words = Words::new(alloc);
    autfilt(
        alloc,
        &words,
        inputs,
        &mut SureSink::new(),
        &mut SureSink::new(),
    )
}

/// Counts these runs, and those that end otherwise.
pub(crate) fn count_all(rt: &HostRuntime, count: &mut Count) -> Result<(), Fault> {
    for (text, wanted) in ROWS.iter() {
        count.take(rt, different(rt.alloc(), text, *wanted)?)?;
    }
    Ok(())
}

/// What is printed where a run ends otherwise.
fn different(alloc: Global, text: &[u8], wanted: Ended) -> Result<Option<String>, Fault> {
    let ended = ended(alloc, text)?;
    if ended == wanted {
        return Ok(None);
    }
    Ok(Some(format!(in alloc; "a sure run: {ended:?} in place of {wanted:?}")?))
}
