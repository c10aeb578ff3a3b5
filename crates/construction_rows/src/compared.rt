//! Random automata, compared with what constructions make of them: do they accept the right words?

use crate::made::{Double, Made, Single, make, make_of_two};
use aut_base::Memory;
use aut_core::Automaton;
use row_automata::{Accepted, CONDITIONS, Choices, Words, accepted, chosen, count_call};
use row_files::{Count, Fault};
use std::alloc::Global;

/// Random automata and pairs of them: completion, trimming, sum and products, and pruning of the Büchi form.
pub(crate) fn operations(rt: &HostRuntime, count: &mut Count) -> Result<(), Fault> {
    let mut choices = Choices::chance();
    for number in 0..200u32 {
        operate(rt, count, &mut choices, number.wrapping_mul(11))?;
    }
    Ok(())
}

/// A random pair.
fn operate(
    rt: &HostRuntime,
    count: &mut Count,
    choices: &mut Choices,
    number: u32,
) -> Result<(), Fault> {
    let other = number.wrapping_mul(7);
    let a = chosen(rt.alloc(), choices, b"a", 2, &[0, 0, 1], number)?;
    let b = chosen(rt.alloc(), choices, b"b", 2, &[0, 0, 1], other)?;
    let is_right = are_right(rt.alloc(), &a, &b)?;
    count_call(rt, count, is_right, "operations", &[&a, &b])
}

/// Whether the operations on an automaton, and those on it and another one, make automata of the right words.
fn are_right(alloc: Global, a: &Automaton, b: &Automaton) -> Result<bool, Memory> {
    let words = Words::new(4, 1, 2);
    let own = accepted(a, &words)?;
    let other = accepted(b, &words)?;
    Ok(keep(alloc, a, &own, &words) && join(alloc, a, b, &own, &other, &words))
}

/// Whether completion, trimming and pruning keep the words of an automaton.
fn keep(alloc: Global, a: &Automaton, own: &Accepted, words: &Words) -> bool {
    makes(alloc, Single::Complete, a, own, words)
        && makes(alloc, Single::Trim, a, own, words)
        && prune_keeps(alloc, make(alloc, Single::Buchi, a), own, words)
}

fn prune_keeps(alloc: Global, made: Made, own: &Accepted, words: &Words) -> bool {
    match made {
        Ok(buchi) => makes(alloc, Single::Prune, &buchi, own, words),
        Err(_) => false,
    }
}

/// Whether the sum and the products of two automata accept the words that one of them accepts, or both.
fn join(
    alloc: Global,
    a: &Automaton,
    b: &Automaton,
    own: &Accepted,
    other: &Accepted,
    words: &Words,
) -> bool {
    let some = own.joined(other, false);
    let all = own.joined(other, true);
    accepts_just(make_of_two(alloc, Double::Sum, a, b), &some, words)
        && accepts_just(make_of_two(alloc, Double::Product, a, b), &all, words)
        && accepts_just(make_of_two(alloc, Double::ProductOr, a, b), &some, words)
}

/// Whether the construction makes an automaton that accepts exactly these words.
pub(crate) fn makes(
    alloc: Global,
    call: Single,
    a: &Automaton,
    wanted: &Accepted,
    words: &Words,
) -> bool {
    accepts_just(make(alloc, call, a), wanted, words)
}

/// Whether an automaton was made and accepts exactly these words.
fn accepts_just(made: Made, wanted: &Accepted, words: &Words) -> bool {
    match made {
        Ok(made) => is_just(&made, wanted, words),
        Err(_) => false,
    }
}

/// Whether the automaton accepts exactly these words.
pub(crate) fn is_just(a: &Automaton, wanted: &Accepted, words: &Words) -> bool {
    match accepted(a, words) {
        Ok(found) => found.is(wanted),
        Err(_) => false,
    }
}

/// An automaton under each small condition, with its copies without Fin and its Büchi form.
pub(crate) fn forms(rt: &HostRuntime, count: &mut Count) -> Result<(), Fault> {
    let mut choices = Choices::chance();
    for number in 0..CONDITIONS {
        let a = chosen(rt.alloc(), &mut choices, b"a", 2, &[0, 0, 1, 1], number)?;
        let is_right = keeps_in_forms(rt.alloc(), &a)?;
        count_call(rt, count, is_right, "forms", &[&a])?;
    }
    Ok(())
}

/// Whether both forms accept the words of the automaton.
fn keeps_in_forms(alloc: Global, a: &Automaton) -> Result<bool, Memory> {
    let words = Words::new(2, 2, 3);
    let own = accepted(a, &words)?;
    Ok(
        makes(alloc, Single::Copies, a, &own, &words)
            && makes(alloc, Single::Buchi, a, &own, &words),
    )
}
