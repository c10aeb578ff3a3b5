//! Random automata: a word is found exactly where some short word is accepted.

use crate::decisions::ask_about::word_of;
use crate::decisions::fits;
use aut_base::Memory;
use aut_core::Automaton;
use row_automata::{Choices, Words, chosen, count_call};
use row_files::{Count, Fault};
use std::alloc::Global;

/// Random automata of two states with three edges; the condition changes from one to the next.
pub(crate) fn compared(rt: &HostRuntime, count: &mut Count) -> Result<(), Fault> {
    let mut choices = Choices::chance();
    for number in 0..6000u32 {
        let a = three_edges(rt.alloc(), &mut choices, number)?;
        let is_right = is_found(rt.alloc(), &a)?;
        count_call(rt, count, is_right, "accepted_word", &[&a])?;
    }
    Ok(())
}

/// An automaton over `a` of two states under the condition of this number, with two edges from one of them.
pub(crate) fn three_edges(
    alloc: Global,
    choices: &mut Choices,
    number: u32,
) -> Result<Automaton, Fault> {
    let from: &[u32] = if number % 2 == 0 {
        &[0, 0, 1]
    } else {
        &[0, 1, 1]
    };
    chosen(alloc, choices, b"a", 2, from, number)
}

/// Whether a word of the automaton is found, or no word of a list is accepted.
fn is_found(alloc: Global, a: &Automaton) -> Result<bool, Memory> {
    fits(alloc, word_of(alloc, a)?, a, a, &Words::new(2, 2, 4))
}
