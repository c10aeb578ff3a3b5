//! Lasso words over the names `a` and `b`.

ghost use Rattle.std.specs.Prelude.{◌<◌};

use aut_base::Memory;

/// The most letters of a list.
const MOST_LETTERS: usize = 16;

/// Letters in order, at most sixteen. Each is given by four bits: those of the letters that it may be. Letter 0 has no name, letter 1
/// has `a`, letter 2 has `b`, and letter 3 has both. Over `a` alone there are the first two.
#[derive(Clone, Copy)]
pub struct Letters {
    count: usize,
    bits: u64,
}

impl Letters {
    pub fn new() -> Letters {
        Letters { count: 0, bits: 0 }
    }

    /// The number of letters.
    pub fn len(&self) -> usize {
        self.count
    }

    /// The letter at this place, from 0.
    pub fn at(&self, place: usize) -> u32 {
        (self.bits >> shift(place) & 15) as u32
    }

    /// The last letter, or 0 where there is none.
    pub fn last(&self) -> u32 {
        self.at(self.count.saturating_sub(1))
    }

    /// Adds a letter at the end. Refused where there are sixteen.
    pub fn push(&mut self, letter: u32) -> Result<(), Memory> {
        if self.count >= MOST_LETTERS {
            return Err(Memory);
        }
        self.add(letter);
        Ok(())
    }

    /// Adds a letter where there is room.
    fn add(&mut self, letter: u32) {
        self.bits |= u64::from(letter & 15) << shift(self.count);
        self.count = self.count.saturating_add(1);
    }
}

/// Where the bits of the letter at a place begin.
fn shift(place: usize) -> u32
    ensures { result < 64 }
{
    4 * place.min(15) as u32
}

/// A lasso word.
#[derive(Clone, Copy)]
pub struct Word {
    pub stem: Letters,
    pub cycle: Letters,
}

impl Word {
    /// The number of positions before the cycle begins anew.
    pub(crate) fn len(&self) -> usize {
        self.stem.len().saturating_add(self.cycle.len())
    }

    /// The letter at a position before that.
    pub(crate) fn at(&self, place: usize) -> u32 {
        if place < self.stem.len() {
            return self.stem.at(place);
        }
        self.cycle.at(place.saturating_sub(self.stem.len()))
    }
}

/// All words of stems and cycles of at most these lengths over the first letters, by their numbers: the shortest come first.
#[derive(Clone, Copy)]
pub struct Words {
    letters: u32,
    stem: u32,
    cycle: u32,
    /// For each letter, those that it may be.
    may_be: [u32; 4],
}

impl Words {
    /// All words with stems and cycles of at most these lengths, over the first `letters` letters.
    pub fn new(letters: u32, stem: u32, cycle: u32) -> Words {
        Words {
            letters,
            stem,
            cycle,
            may_be: [1, 2, 4, 8],
        }
    }

    /// The same words, where each letter may be all of these.
    pub fn blurred(&self, may_be: [u32; 4]) -> Words {
        Words {
            letters: self.letters,
            stem: self.stem,
            cycle: self.cycle,
            may_be,
        }
    }

    /// The number of stems.
    pub fn stems(&self) -> u32 {
        self.count(0, self.stem)
    }

    /// The number of cycles.
    pub fn cycles(&self) -> u32 {
        self.count(1, self.cycle)
    }

    /// The stem of a number.
    pub fn stem(&self, number: u32) -> Letters {
        self.list(0, number)
    }

    /// The cycle of a number.
    pub fn cycle(&self, number: u32) -> Letters {
        self.list(1, number)
    }

    /// The number of lists of these lengths.
    fn count(&self, shortest: u32, longest: u32) -> u32 {
        let mut count = 0u32;
        for length in shortest..longest.saturating_add(1) {
            count = count.saturating_add(self.letters.saturating_pow(length));
        }
        count
    }

    /// The list of a number among those that are at least so long.
    fn list(&self, shortest: u32, number: u32) -> Letters {
        let mut rest = number;
        for length in shortest..16 {
            let count = self.letters.saturating_pow(length);
            if rest < count {
                return self.digits(length, rest);
            }
            rest = rest.saturating_sub(count);
        }
        Letters::new()
    }

    /// The letters whose numbers are the digits of a number.
    fn digits(&self, length: u32, number: u32) -> Letters {
        let mut rest = number;
        let mut list = Letters::new();
        for _ in 0..length {
            let digit = rest.checked_rem(self.letters).unwrap_or(0) as usize;
            list.add(self.may_be.get(digit).copied().unwrap_or(0));
            rest = rest.checked_div(self.letters).unwrap_or(0);
        }
        list
    }
}
