//! The decision procedures, each called in a single function.

ghost use Rattle.std.specs.Prelude.{◌+◌, ◌<◌, ◌^◌};

use crate::decisions::runs::read_word;
use aut_base::{Lasso, Memory};
use aut_core::Automaton;
use aut_ops::PairFault;
use inclusion::{accept_together, counterexample};
use lasso_emptiness::{accepted_word, accepts_some};
use row_automata::Word;
use std::alloc::Global;
use unambiguous::{SquareFault, is_unambiguous};

/// More sets than the automata of rows have.
const MOST: u32 = 1000;

/// The word that is found, that there is none, or the word for why neither is known.
#[derive(Clone, Copy)]
pub(crate) enum Found {
    Word(Told),
    Nothing,
    Refused(&'static str),
}

/// A word as the oracles read it, and the lengths of its stem and its cycle.
#[derive(Clone, Copy)]
pub(crate) struct Told {
    pub(crate) word: Word,
    pub(crate) stem: usize,
    pub(crate) cycle: usize,
}

/// What two calls say that should agree, and disagree.
const APART: Found = Found::Refused("apart");

impl Found {
    /// What is found, in a word.
    pub(crate) fn told(self) -> &'static str {
        match self {
            Found::Word(_) => "word",
            Found::Nothing => "none",
            Found::Refused(why) => why,
        }
    }
}

/// A word that the automaton accepts. The call that answers without a word has to agree.
pub(crate) fn word_of(alloc: Global, a: &Automaton) -> Result<Found, Memory> {
    let is_said = accepts_some(alloc, a)?;
    Ok(agreed(read_found(found_word(alloc, a)?), is_said))
}

fn read_found(found: Option<Lasso>) -> Option<Told> {
    match found {
        Some(lasso) => Some(Told {
            word: read_word(&lasso),
            stem: lasso.stem.len(),
            cycle: lasso.cycle.len(),
        }),
        None => None,
    }
}

/// The word, or that there is none, where the call that answers without a word says the same.
fn agreed(found: Option<Told>, is_said: bool) -> Found {
    match found {
        Some(word) if is_said => Found::Word(word),
        None if !is_said => Found::Nothing,
        _ => APART,
    }
}

fn found_word(alloc: Global, a: &Automaton) -> Result<Option<Lasso>, Memory> {
    accepted_word(alloc, a)
}

/// A word that both accept. The call that answers without a word has to agree.
pub(crate) fn word_of_both(alloc: Global, a: &Automaton, b: &Automaton) -> Result<Found, Memory> {
    if a.sets() > MOST || b.sets() > MOST {
        return Ok(Found::Refused("large"));
    }
    let said = said_of_both(alloc, a, b);
    match found_word_of_both(alloc, a, b) {
        Ok(found) => found_of_both(read_found(found), said),
        Err(fault) => refused(fault, said),
    }
}

/// What is found, where the call that answers without a word says the same.
fn found_of_both(found: Option<Told>, said: Result<bool, PairFault>) -> Result<Found, Memory> {
    match said {
        Ok(is_said) => Ok(agreed(found, is_said)),
        Err(PairFault::Memory) => Err(Memory),
        Err(_) => Ok(APART),
    }
}

/// Why neither is known, where both calls say the same.
fn refused(fault: PairFault, said: Result<bool, PairFault>) -> Result<Found, Memory> {
    match (fault, said) {
        (PairFault::Memory, _) | (_, Err(PairFault::Memory)) => Err(Memory),
        (PairFault::Names, Err(PairFault::Names)) => Ok(Found::Refused("names")),
        (PairFault::Pairs, Err(PairFault::Pairs)) => Ok(Found::Refused("pairs")),
        _ => Ok(APART),
    }
}

fn found_word_of_both(
    alloc: Global,
    a: &Automaton,
    b: &Automaton,
) -> Result<Option<Lasso>, PairFault>
    requires { a.now.sets + b.now.sets < 2 ^ 32 }
{
    counterexample(alloc, a, b)
}

fn said_of_both(alloc: Global, a: &Automaton, b: &Automaton) -> Result<bool, PairFault>
    requires { a.now.sets + b.now.sets < 2 ^ 32 }
{
    accept_together(alloc, a, b)
}

/// Whether the automaton is unambiguous.
pub(crate) fn verdict(alloc: Global, a: &Automaton) -> &'static str {
    if a.sets() > MOST {
        return "large";
    }
    match is_unambiguous(alloc, a) {
        Ok(true) => "unambiguous",
        Ok(false) => "ambiguous",
        Err(SquareFault::Pairs) => "pairs",
        Err(SquareFault::Memory) => "memory",
    }
}
