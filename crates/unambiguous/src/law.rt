//! Laws of unambiguous automata.

ghost use Rattle.unambiguous.specs.Laws.{DeterministicIsUnambiguous, PartedDecides, PlacesFixStart, RunsAreAcceptance, TwiceIsAmbiguous};

/// An automaton is unambiguous exactly where its square, started in the pairs in which two runs may have diverged, accepts
/// no lasso word.
pub fn parted_decides()
    ensures { PartedDecides }
{}

/// Deterministic automata are unambiguous.
pub fn deterministic_is_unambiguous()
    ensures { DeterministicIsUnambiguous }
{}

/// An automaton that lists one edge twice isn't unambiguous.
pub fn twice_is_ambiguous()
    ensures { TwiceIsAmbiguous }
{}

/// A lasso word has an accepting run, as a list of edge indices, exactly where it is accepted.
pub fn runs_are_acceptance()
    ensures { RunsAreAcceptance }
{}

/// The indices of the edges of an accepting run determine its start.
pub fn places_fix_start()
    ensures { PlacesFixStart }
{}
