//! Calls of `aut_core` on small automata and names of rows.

use crate::guards::calls::add_cubes;
use crate::values::letter;
use crate::words::part;
use aut_base::{Memory, Names};
use aut_core::{Automaton, NameFault, join_names};
use row_automata::read;
use row_files::{Answer, Fault};
use std::alloc::Global;

/// Whether an automaton is deterministic and complete.
pub(crate) fn add_verdict(alloc: Global, answer: &mut Answer, line: &str) -> Result<(), Fault> {
    let a = read(alloc, line)?;
    answer.add(verdict(a.is_deterministic(), a.is_complete()));
    Ok(())
}

fn verdict(is_deterministic: bool, is_complete: bool) -> &'static [u8] {
    match (is_deterministic, is_complete) {
        (true, true) => b"deterministic, complete",
        (true, false) => b"deterministic",
        (false, true) => b"complete",
        (false, false) => b"neither",
    }
}

/// From `NAMES; AUTOMATON`: the text of the label of the first edge of the last state, over these names and then the
/// automaton's own.
pub(crate) fn add_over(alloc: Global, answer: &mut Answer, line: &str) -> Result<(), Fault> {
    let a = read(alloc, part(line, 1))?;
    let first = letter(alloc, part(line, 0).as_bytes())?;
    Ok(add_label_over(alloc, answer, &a, first.names())?)
}

/// Adds the text of that label, over these names and then the automaton's own.
fn add_label_over(
    alloc: Global,
    answer: &mut Answer,
    a: &Automaton,
    first: &Names,
) -> Result<(), Memory> {
    if let Ok(names) = join_names(alloc, first, a.names()) {
        add_copy(alloc, answer, &a.over(alloc, &names)?)?;
    }
    Ok(())
}

/// Adds the text of that label, by a copy.
fn add_copy(alloc: Global, answer: &mut Answer, a: &Automaton) -> Result<(), Memory> {
    add_label(alloc, answer, &a.copy(alloc)?)
}

/// Adds the text of the label of the first edge of the last state.
fn add_label(alloc: Global, answer: &mut Answer, a: &Automaton) -> Result<(), Memory> {
    if a.states() == 0 {
        return Ok(());
    }
    match a.links_of(a.states() - 1).first() {
        Some(link) => add_cubes(alloc, answer, a.guards(), link.guard),
        None => Ok(()),
    }
}

/// From `NAMES; NAMES`: the joined names.
pub(crate) fn add_joined(alloc: Global, answer: &mut Answer, line: &str) -> Result<(), Memory> {
    let first = letter(alloc, part(line, 0).as_bytes())?;
    let second = letter(alloc, part(line, 1).as_bytes())?;
    add_names(alloc, answer, first.names(), second.names())
}

/// Adds the joined names, or `!` for too many.
fn add_names(alloc: Global, answer: &mut Answer, a: &Names, b: &Names) -> Result<(), Memory> {
    match join_names(alloc, a, b) {
        Ok(names) => add_each(answer, &names),
        Err(NameFault::Names) => answer.add(b"!"),
        Err(NameFault::Memory) => return Err(Memory),
    }
    Ok(())
}

fn add_each(answer: &mut Answer, names: &Names) {
    for name in names.as_slice() {
        answer.add(name.as_bytes());
    }
}
