//! Acceptance of lasso words, decided by a search of the paths that read the cycle with the marks that they collect.

mod search;
mod steps;

use crate::outcomes::Accepted;
use crate::words::{Letters, Words};
use aut_base::{Formula, Memory};
use aut_core::Automaton;
use search::{Nodes, Search};
use steps::{MOST_STATES, MOST_STEPS, Step, starts, steps};

/// Which words of a list the automaton accepts. Refused where it is too large.
pub fn accepted(a: &Automaton, words: &Words) -> Result<Accepted, Memory> {
    Paths::new(a)?.accepted(a.formula(), words)
}

/// An automaton over some of the names `a` and `b`, prepared for the search. Sets of states are bits.
#[derive(Clone, Copy)]
pub struct Paths {
    states: usize,
    starts: u64,
    /// The edges that read some letter, and behind them some that read none.
    steps: [Step; MOST_STEPS],
}

impl Paths {
    /// Refused where there are too many states, sets or edges.
    pub fn new(a: &Automaton) -> Result<Paths, Memory> {
        Ok(Paths {
            states: a.states() as usize,
            starts: starts(a)?,
            steps: steps(a)?,
        })
    }

    /// Whether there is exactly one start, and for each state and each of the first `letters` letters exactly one edge.
    pub fn are_single(&self, letters: u32) -> bool {
        for state in 0..self.states {
            for letter in 0..letters {
                if self.ways(state, 1u32 << letter.min(31)) != 1 {
                    return false;
                }
            }
        }
        self.starts.count_ones() == 1
    }

    /// The number of edges of a state that read a letter.
    fn ways(&self, state: usize, letter: u32) -> u32 {
        let mut ways = 0u32;
        for step in self.steps.iter() {
            if step.is_open(bit(state), letter) {
                ways = ways.saturating_add(1);
            }
        }
        ways
    }

    /// Which words are accepted.
    pub fn accepted(&self, formula: &Formula, words: &Words) -> Result<Accepted, Memory> {
        let mut accepted = Accepted::nothing();
        let mut nodes = Nodes::new();
        for number in 0..words.cycles() {
            let from = self.accepting(formula, words.cycle(number), &mut nodes)?;
            let Some(stems) = accepted.stems.get_mut(number as usize) else {
                return Err(Memory);
            };
            *stems = self.stems_to(from, words);
        }
        Ok(accepted)
    }

    /// The stems that lead from a start to one of these states.
    fn stems_to(&self, states: u64, words: &Words) -> u32 {
        let mut stems = 0;
        for number in 0..words.stems() {
            if self.after_all(self.starts, words.stem(number)) & states != 0 {
                stems |= 1u32 << number.min(31);
            }
        }
        stems
    }

    /// The states from which at least one of these words is accepted.
    pub fn alive(&self, formula: &Formula, words: &Words) -> Result<u64, Memory> {
        let mut alive = 0;
        let mut nodes = Nodes::new();
        for number in 0..words.cycles() {
            let from = self.accepting(formula, words.cycle(number), &mut nodes)?;
            alive |= self.leading(from, words);
        }
        Ok(alive)
    }

    /// The states from which a path that reads one of the stems leads to one of these.
    fn leading(&self, ends: u64, words: &Words) -> u64 {
        let mut leading = 0;
        for state in 0..self.states {
            for number in 0..words.stems() {
                if self.after_all(bit(state), words.stem(number)) & ends != 0 {
                    leading |= bit(state);
                }
            }
        }
        leading
    }

    /// The states from which the cycle repeated for ever is accepted: some rounds of it lead to a state from which a path that meets the
    /// condition leads back to that state after some rounds.
    fn accepting(
        &self,
        formula: &Formula,
        cycle: Letters,
        nodes: &mut Nodes,
    ) -> Result<u64, Memory> {
        let rounds = self.rounds(cycle);
        let search = Search {
            steps: &self.steps,
            formula,
            cycle,
            rounds: &rounds,
        };
        let closing = search.closing(nodes)?;
        let mut accepting = 0;
        for (state, ends) in rounds.iter().enumerate() {
            if *ends & closing != 0 {
                accepting |= bit(state);
            }
        }
        Ok(accepting)
    }

    /// For each state, the states to which one or more rounds of the cycle lead.
    fn rounds(&self, cycle: Letters) -> [u64; MOST_STATES] {
        let mut single = [0; MOST_STATES];
        for (state, ends) in single.iter_mut().enumerate() {
            if state < self.states {
                *ends = self.after_all(bit(state), cycle);
            }
        }
        let mut rounds = single;
        for ends in rounds.iter_mut() {
            if *ends != 0 {
                *ends = spread(*ends, &single);
            }
        }
        rounds
    }

    /// Whether after each prefix of the letters one of these states can be reached.
    pub fn go_on(&self, states: u64, letters: Letters) -> bool {
        let mut here = self.starts;
        for place in 0..letters.len() {
            if here & states == 0 {
                return false;
            }
            here = self.after(here, letters.at(place));
        }
        here & states != 0
    }

    /// The states to which paths lead from these that read the letters.
    fn after_all(&self, begin: u64, letters: Letters) -> u64 {
        let mut here = begin;
        for place in 0..letters.len() {
            here = self.after(here, letters.at(place));
        }
        here
    }

    /// The states to which edges lead from these at the letter.
    fn after(&self, here: u64, letter: u32) -> u64 {
        let mut next = 0;
        for step in self.steps.iter() {
            if step.is_last() {
                break;
            }
            if step.is_open(here, letter) {
                next |= bit(step.to);
            }
        }
        next
    }
}

/// The set of this state alone.
fn bit(state: usize) -> u64 {
    1u64 << state.min(63) as u32
}

/// These states, and all that are reached from them by `ends`.
fn spread(own: u64, ends: &[u64]) -> u64 {
    let mut all = own;
    for _ in 0..ends.len() {
        let more = grown(all, ends);
        if more == all {
            break;
        }
        all = more;
    }
    all
}

/// These states, and those that are reached from them by one of `ends`.
fn grown(states: u64, ends: &[u64]) -> u64 {
    let mut all = states;
    for (state, more) in ends.iter().enumerate() {
        if states & bit(state) != 0 {
            all |= *more;
        }
    }
    all
}
