//! Calls of `label_guards` on labels of rows.

pub(crate) mod calls;
mod functions;
pub(crate) mod sample;
mod tables;

use crate::labels::label;
use crate::words::{count, part, rest};
use aut_base::{MOST_NAMES, Memory};
use calls::{add_cubes, classes, of_label};
use label_guards::{Guard, GuardList, Guards};
use row_files::Answer;
use std::alloc::Global;

/// From `PROPOSITIONS; LABEL`: the text of a label over so many propositions, in brackets.
pub(crate) fn add_canonical(alloc: Global, answer: &mut Answer, line: &str) -> Result<(), Memory> {
    let mut store = Guards::new(alloc, count(part(line, 0)).min(MOST_NAMES))?;
    let guard = guard(alloc, &mut store, part(line, 1))?;
    answer.add(b"[");
    add_cubes(alloc, answer, &store, guard)?;
    answer.add(b"]");
    Ok(())
}

/// The guard of a label.
fn guard(alloc: Global, store: &mut Guards, written: &str) -> Result<Guard, Memory> {
    let label = label(alloc, written)?;
    of_label(store, &label)
}

/// From `MOST; LABEL; LABEL..`, with `-` for no label: the classes of labels over two propositions, or `more` where there are
/// more than `MOST`.
pub(crate) fn add_divided(alloc: Global, answer: &mut Answer, line: &str) -> Result<(), Memory> {
    let mut store = Guards::new(alloc, 2)?;
    let list = list(alloc, &mut store, rest(line))?;
    match classes(alloc, &mut store, &list, count(part(line, 0)))? {
        Some(found) => return add_each(alloc, answer, &store, found.as_slice()),
        None => answer.add(b"more"),
    }
    Ok(())
}

/// The guards of these labels.
fn list(alloc: Global, store: &mut Guards, written: &str) -> Result<GuardList, Memory> {
    let mut list = GuardList::new(alloc);
    if written != "-" {
        for label in written.split("; ") {
            list.push(guard(alloc, store, label)?)?;
        }
    }
    Ok(list)
}

/// Adds the texts of guards.
fn add_each(
    alloc: Global,
    answer: &mut Answer,
    store: &Guards,
    guards: &[Guard],
) -> Result<(), Memory> {
    for guard in guards {
        if !answer.is_empty() {
            answer.add(b"; ");
        }
        add_cubes(alloc, answer, store, *guard)?;
    }
    Ok(())
}
