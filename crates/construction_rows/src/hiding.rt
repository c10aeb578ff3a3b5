//! Random automata with `a` hidden, compared with the definition of hiding.

use crate::compared::is_just;
use crate::made::hidden;
use ap_project::Hide;
use aut_base::Memory;
use aut_core::Automaton;
use row_automata::{Choices, Words, accepted, chosen, count_call};
use row_files::{Count, Fault};
use std::alloc::Global;

/// The kinds of hiding, each with the letters that each letter may be with `a` hidden, as bits: those that agree with it on `b`, all of
/// them, those without `a`, or those with it.
const WAYS: [(Hide, &str, [u32; 4]); 3] = [
    (Hide::Any, "any a", [3, 3, 12, 12]),
    (Hide::Absent, "absent a", [1, 1, 4, 4]),
    (Hide::Present, "present a", [2, 2, 8, 8]),
];

/// Random automata of two states and four edges, with each kind of hiding.
pub(crate) fn compared(rt: &HostRuntime, count: &mut Count) -> Result<(), Fault> {
    let mut choices = Choices::chance();
    for _ in 0..500 {
        let a = chosen(rt.alloc(), &mut choices, b"ab", 2, &[0, 0, 1, 1], 0)?;
        compare_ways(rt, count, &a)?;
    }
    Ok(())
}

/// An automaton with each kind of hiding.
fn compare_ways(rt: &HostRuntime, count: &mut Count, a: &Automaton) -> Result<(), Fault> {
    for (how, call, may_be) in WAYS {
        let is_right = is_hidden(rt.alloc(), a, how, may_be)?;
        count_call(rt, count, is_right, call, &[a])?;
    }
    Ok(())
}

/// Whether each word is accepted with `a` hidden exactly where the automaton accepts some word that differs from it in `a`
/// alone.
fn is_hidden(alloc: Global, a: &Automaton, how: Hide, may_be: [u32; 4]) -> Result<bool, Memory> {
    let words = Words::new(4, 1, 2);
    let wanted = accepted(a, &words.blurred(may_be))?;
    Ok(is_just(&hidden(alloc, a, b"a", how)?, &wanted, &words))
}
