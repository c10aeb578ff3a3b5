//! Random automata, compared with their monitors.

use crate::compared::makes;
use crate::made::Single;
use aut_base::Memory;
use aut_core::Automaton;
use row_automata::{Accepted, Choices, Letters, Paths, Words, chosen, count_call};
use row_files::{Count, Fault};
use std::alloc::Global;

/// The number of letters after the stem that are tried: three sets of states at three positions of a cycle repeat by then.
const LETTERS: usize = 14;

/// Automata of two states under every tenth condition.
pub(crate) fn compared(rt: &HostRuntime, count: &mut Count) -> Result<(), Fault> {
    let mut choices = Choices::chance();
    for number in 0..240u32 {
        let number = number.wrapping_mul(10);
        let a = chosen(rt.alloc(), &mut choices, b"a", 2, &[0, 0, 1, 1], number)?;
        let is_right = is_right(rt.alloc(), &a)?;
        count_call(rt, count, is_right, "monitor", &[&a])?;
    }
    Ok(())
}

/// Whether the monitor accepts the right words.
fn is_right(alloc: Global, a: &Automaton) -> Result<bool, Memory> {
    let words = Words::new(2, 2, 3);
    let wanted = wanted(a, &words)?;
    Ok(makes(alloc, Single::Monitor, a, &wanted, &words))
}

/// The words each of whose prefixes can be continued to a word that the automaton accepts: it leads to a state from which some word
/// is accepted.
fn wanted(a: &Automaton, words: &Words) -> Result<Accepted, Memory> {
    let paths = Paths::new(a)?;
    let alive = paths.alive(a.formula(), &Words::new(2, 1, 4))?;
    let mut wanted = Accepted::nothing();
    for cycle in 0..words.cycles() {
        for stem in 0..words.stems() {
            let prefix = prefix(words.stem(stem), words.cycle(cycle))?;
            if paths.go_on(alive, prefix) {
                wanted.add(stem, cycle);
            }
        }
    }
    Ok(wanted)
}

/// The longest prefix of a word that is tried.
fn prefix(stem: Letters, cycle: Letters) -> Result<Letters, Memory> {
    let mut letters = stem;
    for place in 0..LETTERS {
        letters.push(cycle.at(place.checked_rem(cycle.len()).unwrap_or(0)))?;
    }
    Ok(letters)
}
