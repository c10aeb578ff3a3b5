//! A worked example, to which the laws apply.

ghost use Rattle.parity_laws.specs.Example.{WorkedDeterminisation};

/// An automaton of two states, its determinised one, and its complement.
pub fn worked_determinisation()
    ensures { WorkedDeterminisation }
{}
