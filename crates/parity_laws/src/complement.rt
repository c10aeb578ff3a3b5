//! Complements by the dual condition.

ghost use Rattle.parity_laws.specs.Complement.{ComplementsOfTheSame, DeterminisedDualIsComplement, DualIsComplement};

/// A deterministic and complete automaton with the dual condition accepts exactly the lasso words that the automaton
/// doesn't.
pub fn dual_is_complement()
    ensures { DualIsComplement }
{}

/// A complement of an automaton is a complement of every automaton with the same language.
pub fn complements_of_the_same()
    ensures { ComplementsOfTheSame }
{}

/// A determinised automaton with the dual condition accepts just the lasso words that the Büchi automaton doesn't.
pub fn determinised_dual_is_complement()
    ensures { DeterminisedDualIsComplement }
{}
