//! Two ways to decide whether a word is accepted, compared with each other.

use aut_base::Memory;
use aut_core::Automaton;
use row_automata::{Accepted, Choices, Word, Words, accepted, accepts, chosen, count_call};
use row_files::{Count, Fault};
use std::alloc::Global;

/// All automata over `a` of two states with an edge from each, and some with more edges; the condition changes from one to
/// the next.
pub(crate) fn agree(rt: &HostRuntime, count: &mut Count) -> Result<(), Fault> {
    agree_on_all(rt, count)?;
    agree_on_some(rt, count)
}

/// All automata over `a` of two states with an edge from each.
fn agree_on_all(rt: &HostRuntime, count: &mut Count) -> Result<(), Fault> {
    for number in 0..4096u32 {
        let mut choices = Choices::Digits(u64::from(number));
        let a = chosen(rt.alloc(), &mut choices, b"a", 2, &[0, 1], number)?;
        compare(rt, count, &a, &Words::new(2, 1, 2))?;
    }
    Ok(())
}

/// Random automata over two names, with two edges from each of two states.
fn agree_on_some(rt: &HostRuntime, count: &mut Count) -> Result<(), Fault> {
    let mut choices = Choices::chance();
    for number in 0..300u32 {
        let number = number.wrapping_mul(7);
        let a = chosen(rt.alloc(), &mut choices, b"ab", 2, &[0, 0, 1, 1], number)?;
        compare(rt, count, &a, &Words::new(4, 1, 2))?;
    }
    Ok(())
}

/// Whether they agree on each word.
fn compare(rt: &HostRuntime, count: &mut Count, a: &Automaton, words: &Words) -> Result<(), Fault> {
    let by_paths = accepted(a, words)?;
    let by_product = accepted_by_product(rt.alloc(), a, words)?;
    count_call(rt, count, by_paths.is(&by_product), "accepts", &[a])
}

/// The words that the product with them accepts.
fn accepted_by_product(alloc: Global, a: &Automaton, words: &Words) -> Result<Accepted, Memory> {
    let mut accepted = Accepted::nothing();
    for cycle in 0..words.cycles() {
        for stem in 0..words.stems() {
            let word = Word {
                stem: words.stem(stem),
                cycle: words.cycle(cycle),
            };
            if accepts(alloc, a, &word)? {
                accepted.add(stem, cycle);
            }
        }
    }
    Ok(accepted)
}
