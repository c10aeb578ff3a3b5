//! Laws of the notation and of lasso words.

ghost use Rattle.std.specs.Prelude.{ℕ, List};
ghost use Rattle.word_syntax.specs.ReadBack.{PrintedIsReadBack};
ghost use Rattle.word_syntax.specs.Words.{OneReducedLasso};
ghost use Rattle.word_syntax.specs.Writing.{OneReading};

/// A text writes at most one pattern, and none where it has an error. It has an error at one offset at most.
pub fn one_reading()
    ensures { (text : List ℕ) → OneReading text }
{}

/// An infinite word has at most one reduced lasso word.
pub fn one_reduced_lasso()
    ensures { OneReducedLasso }
{}

/// A printed word is read back as a pattern. The words that match it are those that agree on the names with an unrolling of
/// the printed word.
pub fn printed_is_read_back()
    ensures { PrintedIsReadBack }
{}
