//! Random pairs of automata: a word is found exactly where both accept some short word.

use crate::decisions::ask_about::word_of_both;
use crate::decisions::fits;
use aut_base::Memory;
use aut_core::Automaton;
use row_automata::{Choices, Words, chosen, count_call};
use row_files::{Count, Fault};
use std::alloc::Global;

/// Random pairs of automata of three states, with two edges from each, over one or both of the names.
pub(crate) fn compared(rt: &HostRuntime, count: &mut Count) -> Result<(), Fault> {
    let mut choices = Choices::chance();
    for number in 0..500u32 {
        compare(rt, count, &mut choices, number)?;
    }
    Ok(())
}

/// A random pair.
fn compare(
    rt: &HostRuntime,
    count: &mut Count,
    choices: &mut Choices,
    number: u32,
) -> Result<(), Fault> {
    let a = three_states(rt.alloc(), choices, number)?;
    let b = three_states(rt.alloc(), choices, number.wrapping_mul(3))?;
    let is_right = is_found(rt.alloc(), &a, &b)?;
    count_call(rt, count, is_right, "word_of_both", &[&a, &b])
}

/// Whether a word of both is found, or no word of a list is accepted by both.
fn is_found(alloc: Global, a: &Automaton, b: &Automaton) -> Result<bool, Memory> {
    fits(
        alloc,
        word_of_both(alloc, a, b)?,
        a,
        b,
        &Words::new(4, 2, 3),
    )
}

fn three_states(alloc: Global, choices: &mut Choices, number: u32) -> Result<Automaton, Fault> {
    let names: &[u8] = match number % 4 {
        0 => b"a",
        1 => b"b",
        2 => b"ab",
        _ => b"ba",
    };
    let from = &[0, 0, 1, 1, 2, 2];
    chosen(alloc, choices, names, 3, from, number.wrapping_mul(5))
}
