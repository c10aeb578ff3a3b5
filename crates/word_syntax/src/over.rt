//! Whether a word is over some names.

ghost use Rattle.std.specs.Prelude.{◌↔◌, All, IsTrue};
ghost use Rattle.word_syntax.specs.Printing.{HoldsOnly};

use aut_base::{Lasso, Letter, Names};

/// Whether the letters of the word have these names alone.
pub fn is_over(word: &Lasso, names: &Names) -> bool
    ensures { IsTrue result ↔ (All (HoldsOnly names.now) word.now.stem × All (HoldsOnly names.now) word.now.cycle) }
{
    all_hold_only(word.stem.as_slice(), names) && all_hold_only(word.cycle.as_slice(), names)
}

// Whether each of these letters has these names alone.
fn all_hold_only(letters: &[Letter], names: &Names) -> bool
    ensures { IsTrue result ↔ All (HoldsOnly names.now) letters.now }
{
    letters.iter().all(|letter| holds_only(letter, names))
}

/// Whether the letter has these names alone.
pub(crate) fn holds_only(letter: &Letter, names: &Names) -> bool
    ensures { IsTrue result ↔ HoldsOnly names.now letter.now }
{
    'names: for name in letter.names().as_slice() {
        if !names.has(name) {
            return false;
        }
    }
    true
}
