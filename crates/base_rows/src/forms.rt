//! Calls of `acc_forms` on conditions of rows.

pub(crate) mod calls;
pub(crate) mod compare;
mod truths;

use crate::words::{add_truth, count, part};
use acc_forms::{empty_meets, has_fin, parity_min_odd, terms_count};
use aut_base::{Formula, Memory};
pub(crate) use calls::Call;
use calls::{made, terms_made};
use row_files::{Answer, Fault, read_condition, show_condition};
use std::alloc::Global;

/// What a call makes of the conditions of a line.
pub(crate) fn add_made(
    alloc: Global,
    answer: &mut Answer,
    call: Call,
    line: &str,
) -> Result<(), Fault> {
    let first = read_condition(alloc, part(line, 0))?;
    match part(line, 1) {
        "" => Ok(show_made(alloc, answer, call, &first, &first)?),
        second => show_made_of_two(alloc, answer, call, &first, second),
    }
}

fn show_made_of_two(
    alloc: Global,
    answer: &mut Answer,
    call: Call,
    f: &Formula,
    second: &str,
) -> Result<(), Fault> {
    let g = read_condition(alloc, second)?;
    Ok(show_made(alloc, answer, call, f, &g)?)
}

fn show_made(
    alloc: Global,
    answer: &mut Answer,
    call: Call,
    f: &Formula,
    g: &Formula,
) -> Result<(), Memory> {
    show_condition(answer, &made(alloc, call, f, g)?);
    Ok(())
}

/// What a call tells of the condition of a line.
pub(crate) fn add_told(
    alloc: Global,
    answer: &mut Answer,
    call: &str,
    line: &str,
) -> Result<(), Fault> {
    let formula = read_condition(alloc, line)?;
    Ok(tell(alloc, answer, call, &formula)?)
}

fn tell(alloc: Global, answer: &mut Answer, call: &str, formula: &Formula) -> Result<(), Memory> {
    match call {
        "has_fin" => add_truth(answer, has_fin(formula)),
        "empty_meets" => add_truth(answer, empty_meets(formula)),
        "terms_count" => answer.add_number(terms_count(formula)),
        _ => add_terms_made(answer, terms_made(alloc, formula)?),
    }
    Ok(())
}

/// Adds how many terms were made, or `too many`.
fn add_terms_made(answer: &mut Answer, terms: Option<u64>) {
    match terms {
        Some(terms) => answer.add_number(terms),
        None => answer.add(b"too many"),
    }
}

/// The parity condition of so many priorities, of which there must be few.
pub(crate) fn add_parity(alloc: Global, answer: &mut Answer, line: &str) -> Result<(), Memory> {
    let priorities = count(line);
    if priorities > 0 && priorities < 1000 {
        show_condition(answer, &parity_min_odd(alloc, priorities)?);
    }
    Ok(())
}
