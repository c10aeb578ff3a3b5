//! The language of a determinised automaton.

ghost use Rattle.parity_laws.specs.Buchi.{WellFormedIsBuchi};
ghost use Rattle.parity_laws.specs.Determinised.{DeterminisedAcceptsTheSame};

/// A well-formed automaton with the condition `Inf(0)` is a Büchi automaton.
pub fn well_formed_is_buchi()
    ensures { WellFormedIsBuchi }
{}

/// A deterministic automaton whose states are the trees of a Büchi automaton accepts the same lasso words, all of them.
pub fn determinised_accepts_the_same()
    ensures { DeterminisedAcceptsTheSame }
{}
