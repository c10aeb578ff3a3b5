//! Automata of few states over two sets, chosen pseudo-randomly or enumerated.

ghost use Rattle.std.specs.Prelude.{◌<◌};

use crate::build::{Plain, add_edge, add_names, bare, described};
use crate::conditions::{CONDITIONS, condition};
use aut_base::{Description, Memory};
use aut_core::Automaton;
use row_files::{Fault, Sequence};
use std::alloc::Global;

/// A source of choices: pseudo-random numbers, or the digits of a number, so that counting up enumerates all choices.
#[derive(Clone, Copy)]
pub enum Choices {
    Chance(Sequence),
    Digits(u64),
}

impl Choices {
    /// Pseudo-random choices, the same in each run.
    pub fn chance() -> Choices {
        Choices::Chance(Sequence::new(1))
    }

    /// The next choice, below a bound that is not 0.
    pub fn next(&mut self, bound: u32) -> u32
        requires { 0 < bound }
        ensures { result < bound }
    {
        match self {
            Choices::Chance(sequence) => sequence.next(bound),
            Choices::Digits(number) => {
                let digit = (*number % u64::from(bound)) as u32;
                *number /= u64::from(bound);
                digit
            }
        }
    }
}

/// An automaton of this many states over one name or two, with one chosen edge from each of the listed states, under the condition
/// of a number modulo `CONDITIONS`. The first state is a start, and each other one with probability 1/4.
pub fn chosen(
    alloc: Global,
    choices: &mut Choices,
    names: &[u8],
    states: u32,
    from: &[u32],
    number: u32,
) -> Result<Automaton, Fault> {
    let mut d = bare(alloc, states, 2, condition(alloc, number % CONDITIONS)?);
    choose(alloc, &mut d, choices, names, from)?;
    described(alloc, &d)
}

/// Adds the names, and chosen starts and edges.
fn choose(
    alloc: Global,
    d: &mut Description,
    choices: &mut Choices,
    names: &[u8],
    from: &[u32],
) -> Result<(), Memory> {
    let states = d.states.max(1);
    add_names(alloc, &mut d.names, names)?;
    d.starts.push(0)?;
    for state in 1..states {
        if choices.next(4) == 0 {
            d.starts.push(state)?;
        }
    }
    for state in from {
        let edge = edge(choices, names.len(), states, *state);
        add_edge(alloc, &mut d.edges, names.len(), edge)?;
    }
    Ok(())
}

/// An edge with a chosen set of letters, target and marks.
fn edge(choices: &mut Choices, names: usize, states: u32, from: u32) -> Plain
    requires { 0 < states }
{
    let letters = if names > 1 {
        choices.next(16)
    } else {
        choices.next(4)
    };
    Plain {
        from,
        letters,
        to: choices.next(states),
        sets: choices.next(4),
    }
}
