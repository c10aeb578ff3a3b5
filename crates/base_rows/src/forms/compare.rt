//! Compares what the calls make of a condition with the truth that it should have.

use crate::forms::calls::{Call, RAISED, made, terms_made};
use crate::forms::truths::{Cycles, truths};
use acc_forms::{empty_meets, terms_count};
use aut_base::{Formula, Memory};
use row_automata::{ALL_CONDITIONS, condition};
use row_files::{Answer, Count, Fault, read_condition, show_condition};
use std::alloc::Global;

/// With which conditions each one is joined.
const OTHERS: [&str; 4] = ["t", "f", "I0,F1,&", "I!0,F0,|"];

/// Counts all small conditions, and those on which a call is wrong.
pub(crate) fn count_all(rt: &HostRuntime, count: &mut Count) -> Result<(), Fault> {
    for number in 0..ALL_CONDITIONS {
        let formula = condition(rt.alloc(), number)?;
        count_one(rt, &formula, count)?;
    }
    Ok(())
}

fn count_one(rt: &HostRuntime, formula: &Formula, count: &mut Count) -> Result<(), Fault> {
    if is_right(rt.alloc(), formula)? && is_joined_rightly(rt.alloc(), formula)? {
        return count.take(rt, None);
    }
    let text = told(rt.alloc(), formula)?;
    count.take(rt, Some(text))
}

/// The text of a condition on which a call is wrong.
fn told(alloc: Global, formula: &Formula) -> Result<String, Fault> {
    let mut told = Answer::new(alloc);
    told.add(b"condition ");
    show_condition(&mut told, formula);
    Ok(String::from_utf8_lossy(alloc, told.end()?.as_bytes())?)
}

/// Whether every call on the condition alone is right.
fn is_right(alloc: Global, f: &Formula) -> Result<bool, Memory> {
    let own = truths(f, 0);
    // The edges of the first cycle are in no set.
    let is_empty_right = empty_meets(f) == (own % 2 == 1);
    let is_counted_rightly = terms_made(alloc, f)? == Some(terms_count(f));
    Ok(
        is_empty_right
            && is_counted_rightly
            && truths_of_made(alloc, Call::Dual, f, f, 0)? == !own
            && truths_of_made(alloc, Call::Shift, f, f, RAISED)? == own
            && truths_of_made(alloc, Call::Spread, f, f, 0)? == own,
    )
}

/// The truths of what a call makes of the conditions.
fn truths_of_made(
    alloc: Global,
    call: Call,
    f: &Formula,
    g: &Formula,
    low: u32,
) -> Result<Cycles, Memory> {
    Ok(truths(&made(alloc, call, f, g)?, low))
}

/// Whether conjunctions and disjunctions with some other conditions have the right truth.
fn is_joined_rightly(alloc: Global, formula: &Formula) -> Result<bool, Fault> {
    for written in OTHERS {
        let other = read_condition(alloc, written)?;
        if !is_joined_with(alloc, formula, &other)? {
            return Ok(false);
        }
    }
    Ok(true)
}

fn is_joined_with(alloc: Global, f: &Formula, g: &Formula) -> Result<bool, Memory> {
    let own = truths(f, 0);
    let other = truths(g, 0);
    Ok(
        truths_of_made(alloc, Call::Conj, f, g, 0)? == own & other
            && truths_of_made(alloc, Call::Disj, g, f, 0)? == own | other,
    )
}
