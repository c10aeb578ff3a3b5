//! Which words of a list are accepted.

use crate::words::Words;

/// The most cycles of a list.
pub(crate) const MOST_CYCLES: usize = 84;

/// For each cycle of a list of words, a bit for each stem with which the word is accepted.
#[derive(Clone, Copy)]
pub struct Accepted {
    pub(crate) stems: [u32; MOST_CYCLES],
}

impl Accepted {
    /// No word.
    pub fn nothing() -> Accepted {
        Accepted {
            stems: [0; MOST_CYCLES],
        }
    }

    /// Adds the word of a stem and a cycle, given by their numbers.
    pub fn add(&mut self, stem: u32, cycle: u32) {
        if let Some(stems) = self.stems.get_mut(cycle as usize) {
            *stems |= 1u32 << stem.min(31);
        }
    }

    /// The other words of the list.
    pub fn others(&self, words: &Words) -> Accepted {
        let all = (1u32 << words.stems().min(31)).wrapping_sub(1);
        let mut others = *self;
        for (cycle, stems) in others.stems.iter_mut().enumerate() {
            if cycle < words.cycles() as usize {
                *stems ^= all;
            }
        }
        others
    }

    /// The words that are in both, or those that are in one of them.
    pub fn joined(&self, other: &Accepted, both: bool) -> Accepted {
        let mut joined = *self;
        for (own, more) in joined.stems.iter_mut().zip(other.stems.iter()) {
            if both {
                *own &= *more;
            } else {
                *own |= *more;
            }
        }
        joined
    }

    /// Whether no word is in both.
    pub fn is_apart_from(&self, other: &Accepted) -> bool {
        self.joined(other, true).is(&Accepted::nothing())
    }

    /// Whether just the same words are in both.
    pub fn is(&self, other: &Accepted) -> bool {
        self.stems == other.stems
    }
}
