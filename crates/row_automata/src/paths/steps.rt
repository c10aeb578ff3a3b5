//! The edges of an automaton, prepared for the search.

use crate::paths::bit;
use aut_base::{Memory, Names};
use aut_core::{Automaton, Link};

/// The most states: their sets are bits of a word.
pub(crate) const MOST_STATES: usize = 64;

/// The most acceptance sets.
const MOST_SETS: u32 = 31;

/// The most edges.
pub(crate) const MOST_STEPS: usize = 256;

/// An edge, with bit masks of its sets and of the letters that satisfy its label.
#[derive(Clone, Copy)]
pub(crate) struct Step {
    pub(crate) from: usize,
    pub(crate) to: usize,
    pub(crate) sets: u32,
    pub(crate) letters: u32,
}

impl Step {
    /// Whether this edge, and so each that comes after it, reads no letter.
    pub(crate) fn is_last(&self) -> bool {
        self.letters == 0
    }

    /// Whether the edge leaves one of these states and reads one of these letters.
    pub(crate) fn is_open(&self, here: u64, letters: u32) -> bool {
        self.letters & letters != 0 && here & bit(self.from) != 0
    }
}

/// The set of the starts. Refused where there are too many states or sets.
pub(crate) fn starts(a: &Automaton) -> Result<u64, Memory> {
    if a.states() as usize > MOST_STATES || a.sets() > MOST_SETS {
        return Err(Memory);
    }
    let mut starts = 0;
    for start in a.starts().as_slice() {
        starts |= bit(*start as usize);
    }
    Ok(starts)
}

/// The edges that read some letter, before some that read none.
pub(crate) fn steps(a: &Automaton) -> Result<[Step; MOST_STEPS], Memory> {
    let none = Step {
        from: 0,
        to: 0,
        sets: 0,
        letters: 0,
    };
    let mut steps = [none; MOST_STEPS];
    let mut count = 0usize;
    for link in a.links() {
        let step = read_link(a, link);
        if !step.is_last() {
            let Some(place) = steps.get_mut(count) else {
                return Err(Memory);
            };
            *place = step;
            count = count.saturating_add(1);
        }
    }
    Ok(steps)
}

/// The edge of a link, with its letters.
fn read_link(a: &Automaton, link: &Link) -> Step {
    let mut sets = 0;
    for place in 0..link.marks.len() {
        sets |= 1u32 << (*link.marks.at(place)).min(31);
    }
    Step {
        from: link.from as usize,
        to: link.to as usize,
        sets,
        letters: letters(a, link),
    }
}

/// The letters over `a` and `b` that satisfy the label, by number: `a` holds where it is odd, `b` where it is at least two.
fn letters(a: &Automaton, link: &Link) -> u32 {
    let mut letters = 0;
    for letter in 0..4u32 {
        let number = valuation(a.names(), letter % 2 == 1, letter >= 2);
        if a.guards().has(link.guard) && a.guards().holds_at(link.guard, number) {
            letters |= 1u32 << letter;
        }
    }
    letters
}

/// The number of the valuation of the names where `a` and `b` have these truths.
fn valuation(names: &Names, has_a: bool, has_b: bool) -> u64 {
    let mut number = 0;
    for (place, name) in names.as_slice().iter().enumerate() {
        let holds = match name.as_bytes() {
            b"a" => has_a,
            b"b" => has_b,
            _ => false,
        };
        if holds {
            number |= 1u64 << place.min(63);
        }
    }
    number
}
