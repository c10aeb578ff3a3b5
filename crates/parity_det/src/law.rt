//! Laws of deterministic parity automata and of complements.

ghost use Rattle.parity_det.specs.Complements.{ComplementExists, ComplementIsDetermined, ParityExcludesLimits, ParityExists};
ghost use Rattle.parity_det.specs.Determinisation.{DeterminisationIsDetermined, ParityIsDetermined};
ghost use Rattle.parity_det.specs.Promises.{ParityHasFewSets};

/// A Büchi automaton has at most one determinised automaton, or meets at most one limit, and never both.
pub fn determinisation_is_determined()
    ensures { DeterminisationIsDetermined }
{}

/// An automaton has one parity automaton.
pub fn parity_is_determined()
    ensures { ParityIsDetermined }
{}

/// An automaton has one complement.
pub fn complement_is_determined()
    ensures { ComplementIsDetermined }
{}

/// An automaton passes at most one limit of the construction of its parity automaton, and none where it has a parity
/// automaton and its Büchi form is within the limits.
pub fn parity_excludes_limits()
    ensures { ParityExcludesLimits }
{}

/// An automaton that passes no limit has a parity automaton.
pub fn parity_exists()
    ensures { ParityExists }
{}

/// An automaton that is deterministic or passes no limit has a complement.
pub fn complement_exists()
    ensures { ComplementExists }
{}

/// The parity automaton of an automaton is deterministic and complete with a parity min odd condition, and has at most 2N +
/// 1 sets, where N is the number of useful states of its Büchi form, or 1 if there are none.
pub fn parity_has_few_sets()
    ensures { ParityHasFewSets }
{}
