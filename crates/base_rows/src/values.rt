//! Calls of `aut_base` on conditions, labels and letters of rows.

use crate::labels::label;
use crate::words::{add_truth, digit, part, rest};
use aut_base::{Formula, Label, Letter, Marks, Memory, Names, Text};
use row_automata::marks;
use row_files::{Answer, Fault, read_condition};
use std::alloc::Global;

/// From `CONDITION; EDGE; EDGE..`: whether the cycle of these edges meets the condition.
pub(crate) fn add_met_by(alloc: Global, answer: &mut Answer, line: &str) -> Result<(), Fault> {
    let formula = read_condition(alloc, part(line, 0))?;
    add_truth(answer, is_met_by(alloc, &formula, rest(line))?);
    Ok(())
}

fn is_met_by(alloc: Global, formula: &Formula, edges: &str) -> Result<bool, Memory> {
    let mut cycle = Vec::new(alloc);
    for edge in edges.split("; ") {
        cycle.push(marks(alloc, bits(edge.as_bytes()))?)?;
    }
    is_met(alloc, formula, &cycle)
}

/// Whether the cycle meets the condition, by a copy of it.
fn is_met(alloc: Global, formula: &Formula, cycle: &[Marks]) -> Result<bool, Memory> {
    if cycle.is_empty() {
        return Ok(false);
    }
    Ok(formula.copy(alloc)?.met_by(cycle))
}

/// The marks of an edge, which are digits, as bits.
fn bits(bytes: &[u8]) -> u32 {
    let mut bits = 0;
    for byte in bytes {
        if let Some(mark) = digit(*byte) {
            bits |= 1u32 << mark.min(31);
        }
    }
    bits
}

/// The letter in which the propositions of these names hold, of one byte each. `-` is no name.
pub(crate) fn letter(alloc: Global, names: &[u8]) -> Result<Letter, Memory> {
    let mut letter = Letter::new(alloc);
    for name in names {
        if *name != b'-' {
            letter.add(Text::from_bytes(alloc, &[*name])?)?;
        }
    }
    Ok(letter)
}

/// From `LABEL; NAMES; LETTER`: whether the label holds at the letter.
pub(crate) fn add_holds(alloc: Global, answer: &mut Answer, line: &str) -> Result<(), Memory> {
    let label = label(alloc, part(line, 0))?;
    let known = letter(alloc, part(line, 1).as_bytes())?;
    let names = known.names();
    add_truth(answer, holds_at(alloc, &label, names, part(line, 2))?);
    Ok(())
}

fn holds_at(alloc: Global, label: &Label, names: &Names, at: &str) -> Result<bool, Memory> {
    let at = letter(alloc, at.as_bytes())?;
    Ok(label.is_below(names.len()) && label.holds(names, &at))
}

/// From `LABEL; DIGITS`: whether the label is true, where each of two digits is the truth of a proposition.
pub(crate) fn add_label_truth(
    alloc: Global,
    answer: &mut Answer,
    line: &str,
) -> Result<(), Memory> {
    let digits = part(line, 1);
    let on = [digits.starts_with('1'), digits.ends_with('1')];
    let label = label(alloc, part(line, 0))?;
    add_truth(answer, label.is_below(on.len()) && label.truth(&on));
    Ok(())
}

/// From `LETTER; NAME`: how many names the letter has, whether it has the name, or the name's index.
pub(crate) fn add_of_names(
    alloc: Global,
    answer: &mut Answer,
    call: &str,
    line: &str,
) -> Result<(), Memory> {
    let letter = letter(alloc, part(line, 0).as_bytes())?;
    let name = Text::from_bytes(alloc, part(line, 1).as_bytes())?;
    match call {
        "names" => answer.add_number(letter.names().len() as u64),
        "has" => add_truth(answer, letter.has(&name)),
        _ => add_position(answer, letter.names(), &name),
    }
    Ok(())
}

/// Adds the index of a name among a few, or `none`.
fn add_position(answer: &mut Answer, names: &Names, name: &Text) {
    if names.len() > 100 {
        return;
    }
    match names.position(name) {
        Some(place) => answer.add_number(u64::from(place)),
        None => answer.add(b"none"),
    }
}
