//! Explorations of two small transition systems under several limits.

mod doubling;
mod rising;

ghost use Rattle.std.specs.Prelude.{◌<◌};

use crate::words::{count, part, rest, two_counts};
use aut_base::{Memory, Numbers};
use doubling::{Doubling, Number};
use exploration::{Explored, Fault, Limits, explore};
use rising::Rising;
use row_files::Answer;
use std::alloc::Global;

/// From `BOUND; STATES CLASSES`: how the exploration of the doubled numbers from 1 ends.
pub(crate) fn add_doubled(alloc: Global, answer: &mut Answer, line: &str) -> Result<(), Memory> {
    let mut system = Doubling {
        bound: count(part(line, 0)),
        made: Numbers::new(alloc),
    };
    let found = explore(alloc, &mut system, Number { n: 1 }, limits(rest(line)));
    add_end(answer, &found);
    Ok(())
}

/// From `STATES CLASSES`: how the exploration from the list of 1 and 2 ends.
pub(crate) fn add_risen(alloc: Global, answer: &mut Answer, line: &str) -> Result<(), Memory> {
    let start = Numbers::from_vec(Vec::from_slice(alloc, &[1, 2])?);
    let found = explore(alloc, &mut Rising { steps: 0 }, start, limits(line));
    add_end(answer, &found);
    Ok(())
}

/// The limits of states, which is not 0, and of classes.
fn limits(words: &str) -> Limits
    ensures { 0 < result.states }
{
    let (states, classes) = two_counts(words);
    Limits {
        states: states.max(1),
        classes,
    }
}

/// Adds how an exploration ended: with so many states and edges, or at a limit.
fn add_end<T: Drop, C: Copy, N: Copy>(
    answer: &mut Answer,
    found: &Result<Explored<T, C, N>, Fault>,
) {
    match found {
        Ok(found) => {
            answer.add_number(found.states.len() as u64);
            answer.add(b" states, ");
            answer.add_number(found.edges.len() as u64);
            answer.add(b" edges");
        }
        Err(Fault::States) => answer.add(b"limit States"),
        Err(Fault::Classes) => answer.add(b"limit Classes"),
        Err(Fault::StepFailed) => answer.add(b"limit StepFailed"),
        Err(Fault::Memory) => answer.add(b"limit Memory"),
    }
}
