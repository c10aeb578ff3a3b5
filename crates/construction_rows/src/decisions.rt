//! The calls that decide about automata, by their names in rows, and on random automata.

mod ask_about;
mod emptiness;
mod inclusion_pairs;
mod runs;
mod two_runs;

use crate::calls::line;
use crate::shapes::{line as line_of, ring};
use ask_about::{Found, verdict, word_of, word_of_both};
use aut_base::Memory;
use aut_core::Automaton;
use row_automata::{Word, Words, accepted, accepts, add_pair, read};
use row_files::{Answer, Answers, Count, Fault, kind_and_rest, number};
use runs::is_reduced;
use std::alloc::Global;

/// The rows that are in no file: random automata.
pub(crate) fn compared(rt: &HostRuntime, count: &mut Count) -> Result<(), Fault> {
    emptiness::compared(rt, count)?;
    inclusion_pairs::compared(rt, count)?;
    two_runs::compared(rt, count)
}

/// Answers whether there is a word, how long it is where the automaton is large, or whether the automaton is unambiguous.
#[derive(Drop)]
pub(crate) struct Decisions;

impl Answers for Decisions {
    fn add_answer(
        &self,
        rt: &HostRuntime,
        answer: &mut Answer,
        call: &str,
        lines: &str,
    ) -> Result<(), Fault> {
        let alloc = rt.alloc();
        let first = line(lines, 0);
        match call {
            "accepted_word" => add_accepted(alloc, answer, first),
            "word_of_both" => add_of_both(alloc, answer, first, line(lines, 1)),
            "is_unambiguous" => add_verdict(alloc, answer, first),
            _ => add_of_large(alloc, answer, call, first),
        }
    }
}

/// The calls on large automata, which rows name by their shape.
fn add_of_large(alloc: Global, answer: &mut Answer, call: &str, line: &str) -> Result<(), Fault> {
    match call {
        "word_of_line" => add_of_line(alloc, answer, line),
        "word_of_rings" => add_of_rings(alloc, answer, line),
        "is_unambiguous_ring" => add_of_ring(alloc, answer, number(line)?),
        _ => Err(Fault::UnknownKind),
    }
}

/// Adds whether the automaton of a line accepts a word.
fn add_accepted(alloc: Global, answer: &mut Answer, line: &str) -> Result<(), Fault> {
    let a = read(alloc, line)?;
    Ok(add_word(alloc, answer, word_of(alloc, &a)?, &a, &a)?)
}

/// Adds whether the automata of two lines accept a word together.
fn add_of_both(alloc: Global, answer: &mut Answer, first: &str, second: &str) -> Result<(), Fault> {
    let a = read(alloc, first)?;
    let b = read(alloc, second)?;
    Ok(add_word(alloc, answer, word_of_both(alloc, &a, &b)?, &a, &b)?)
}

/// Adds whether the automaton of a line is unambiguous.
fn add_verdict(alloc: Global, answer: &mut Answer, line: &str) -> Result<(), Fault> {
    let a = read(alloc, line)?;
    answer.add(verdict(alloc, &a).as_bytes());
    Ok(())
}

/// Adds the length of a word of a large line of this shape.
fn add_of_line(alloc: Global, answer: &mut Answer, shape: &str) -> Result<(), Fault> {
    let a = line_of(alloc, shape)?;
    add_length(answer, word_of(alloc, &a)?);
    Ok(())
}

/// Adds the length of a word of two large rings, from their numbers of states.
fn add_of_rings(alloc: Global, answer: &mut Answer, line: &str) -> Result<(), Fault> {
    let (first, second) = kind_and_rest(line);
    let a = single_ring(alloc, first)?;
    let b = single_ring(alloc, second)?;
    add_length(answer, word_of_both(alloc, &a, &b)?);
    Ok(())
}

/// A ring of so many states that starts in one of them.
fn single_ring(alloc: Global, states: &str) -> Result<Automaton, Fault> {
    ring(alloc, number(states)?, 1, true, "I0")
}

/// Adds whether a large ring each of whose states is a start is unambiguous.
fn add_of_ring(alloc: Global, answer: &mut Answer, states: u32) -> Result<(), Fault> {
    let a = ring(alloc, states, states, states % 2 == 1, "I0")?;
    answer.add(verdict(alloc, &a).as_bytes());
    Ok(())
}

/// Adds whether there is a word. If so, it has to be reduced, and both have to accept it.
fn add_word(
    alloc: Global,
    answer: &mut Answer,
    found: Found,
    a: &Automaton,
    b: &Automaton,
) -> Result<(), Memory> {
    if let Found::Word(told) = found {
        if !is_right(alloc, &told.word, a, b)? {
            answer.add(b"wrong word");
            return Ok(());
        }
    }
    answer.add(found.told().as_bytes());
    Ok(())
}

/// Whether what is found fits: a word is right, and where there is none no word of a list is accepted by both.
fn fits(
    alloc: Global,
    found: Found,
    a: &Automaton,
    b: &Automaton,
    words: &Words,
) -> Result<bool, Memory> {
    match found {
        Found::Word(told) => is_right(alloc, &told.word, a, b),
        Found::Nothing => Ok(accepted(a, words)?.is_apart_from(&accepted(b, words)?)),
        Found::Refused(_) => Ok(false),
    }
}

/// Whether both accept the word, and it is reduced.
fn is_right(alloc: Global, word: &Word, a: &Automaton, b: &Automaton) -> Result<bool, Memory> {
    Ok(is_reduced(word) && accepts(alloc, a, word)? && accepts(alloc, b, word)?)
}

/// Adds the lengths of the stem and the cycle of the word.
fn add_length(answer: &mut Answer, found: Found) {
    match found {
        Found::Word(told) => add_pair(answer, told.stem as u64, told.cycle as u64),
        _ => answer.add(found.told().as_bytes()),
    }
}
