//! Lasso words, in the form that the oracles read.

use aut_base::{Lasso, Letter};
use row_automata::{Letters, Word};

/// The word over `a` and `b`. A letter with another name becomes one that no edge reads, and a list that is too long one without
/// letters, so that the word isn't reduced.
pub(crate) fn read_word(word: &Lasso) -> Word {
    Word {
        stem: letters(word.stem.as_slice()),
        cycle: letters(word.cycle.as_slice()),
    }
}

fn letters(list: &[Letter]) -> Letters {
    let mut letters = Letters::new();
    for letter in list {
        if letters.push(mask(letter)).is_err() {
            return Letters::new();
        }
    }
    letters
}

/// The bit of a letter, or no bit where it has another name than `a` and `b`.
fn mask(letter: &Letter) -> u32 {
    let mut number = 0u32;
    for name in letter.names().as_slice() {
        number |= match name.as_bytes() {
            b"a" => 1,
            b"b" => 2,
            _ => 4,
        };
    }
    if number > 3 {
        return 0;
    }
    1u32 << number
}

/// Whether the word is reduced: the cycle is no repetition of a shorter one, and the stem ends in another letter than the
/// cycle.
pub(crate) fn is_reduced(word: &Word) -> bool {
    if word.stem.len() > 0 && word.stem.last() == word.cycle.last() {
        return false;
    }
    for part in 1..word.cycle.len() {
        if word.cycle.len() % part == 0 && repeats(word.cycle, part) {
            return false;
        }
    }
    word.cycle.len() > 0
}

/// Whether the cycle repeats its first `part` letters.
fn repeats(cycle: Letters, part: usize) -> bool {
    for place in part..cycle.len() {
        if cycle.at(place) != cycle.at(place - part) {
            return false;
        }
    }
    true
}
