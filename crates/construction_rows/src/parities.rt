//! Random automata, compared with their parity automata and the complements of these.

use crate::compared::is_just;
use crate::made::{Single, make};
use aut_base::Memory;
use aut_core::Automaton;
use row_automata::{Accepted, Choices, Paths, Words, accepted, chosen, count_call};
use row_files::{Count, Fault};
use std::alloc::Global;

/// Automata over one name and over two, with their parity automata and their complements.
pub(crate) fn compared(rt: &HostRuntime, count: &mut Count) -> Result<(), Fault> {
    let mut choices = Choices::chance();
    compare_over(rt, count, &mut choices, b"a", 240)?;
    compare_over(rt, count, &mut choices, b"ab", 80)
}

/// So many automata over these names.
fn compare_over(
    rt: &HostRuntime,
    count: &mut Count,
    choices: &mut Choices,
    names: &[u8],
    rows: u32,
) -> Result<(), Fault> {
    let letters = if names.len() > 1 { 4 } else { 2 };
    for number in 0..rows {
        let a = three_states(rt.alloc(), choices, names, number)?;
        let is_right = is_right(rt.alloc(), &a, letters)?;
        count_call(rt, count, is_right, "parity", &[&a])?;
    }
    Ok(())
}

/// A random automaton of one state to three, with two edges from each, or one, so that some are deterministic.
fn three_states(
    alloc: Global,
    choices: &mut Choices,
    names: &[u8],
    number: u32,
) -> Result<Automaton, Fault> {
    let states = 1 + number % 3;
    let from: &[u32] = match number % 6 {
        0 => &[0, 0],
        1 => &[0, 0, 1, 1],
        2 => &[0, 0, 1, 1, 2, 2],
        3 => &[0],
        4 => &[0, 1],
        _ => &[0, 1, 2],
    };
    chosen(alloc, choices, names, states, from, number.wrapping_mul(13))
}

/// Whether the parity automaton accepts the words of an automaton, and its complement the others, each by a single run.
fn is_right(alloc: Global, a: &Automaton, letters: u32) -> Result<bool, Memory> {
    let words = Words::new(letters, 2, 3);
    let own = accepted(a, &words)?;
    let others = own.others(&words);
    Ok(
        makes_single(alloc, Single::Parity, a, &own, &words, letters)
            && makes_single(alloc, Single::Complement, a, &others, &words, letters),
    )
}

/// Whether the construction makes an automaton that accepts exactly these words, and in which each word has one run.
fn makes_single(
    alloc: Global,
    call: Single,
    a: &Automaton,
    wanted: &Accepted,
    words: &Words,
    letters: u32,
) -> bool {
    match make(alloc, call, a) {
        Ok(made) => is_single(&made, letters) && is_just(&made, wanted, words),
        Err(_) => false,
    }
}

/// Whether each word has exactly one run.
fn is_single(a: &Automaton, letters: u32) -> bool {
    match Paths::new(a) {
        Ok(paths) => paths.are_single(letters),
        Err(_) => false,
    }
}
