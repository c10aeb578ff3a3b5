//! Tells whether constructions make of automata what was worked out by hand, and whether what they make of small automata
//! accepts the words that it should; and the same of what is decided of automata.
#![tactic(auto)]

mod calls;
mod compared;
mod decisions;
mod hiding;
mod made;
mod monitors;
mod oracles;
mod parities;
mod shapes;

use calls::Constructions;
use decisions::Decisions;
use row_files::{Count, Stop, ask};

/// The files of rows of constructions, in the folder where the program runs.
const CONSTRUCTIONS: [&str; 5] = [
    "operations.rows",
    "hiding.rows",
    "forms.rows",
    "monitors.rows",
    "parity.rows",
];

/// Those of decisions.
const DECISIONS: [&str; 3] = ["emptiness.rows", "inclusion.rows", "unambiguity.rows"];

fn main(rt: HostRuntime) -> Result<(), Stop> {
    let mut count = Count::new();
    ask(&rt, &CONSTRUCTIONS, Constructions, &mut count)?;
    ask(&rt, &DECISIONS, Decisions, &mut count)?;
    try_small(&rt, &mut count)?;
    count.end(&rt)
}

/// The rows that are in no file: random automata.
fn try_small(rt: &HostRuntime, count: &mut Count) -> Result<(), Stop> {
    oracles::agree(rt, count)?;
    compared::operations(rt, count)?;
    compared::forms(rt, count)?;
    parities::compared(rt, count)?;
    hiding::compared(rt, count)?;
    monitors::compared(rt, count)?;
    decisions::compared(rt, count)?;
    Ok(())
}
