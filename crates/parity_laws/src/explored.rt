//! Determinisation class by class.

ghost use Rattle.parity_laws.specs.Classes.{ClassesOfGuards};
ghost use Rattle.parity_laws.specs.Explored.{ExploredIsDeterminised};

/// Classes of guards, as `label_guards` makes them, are classes of the labels of these guards.
pub fn classes_of_guards()
    ensures { ClassesOfGuards }
{}

/// An automaton that is explored class by class is deterministic and complete, and its edges are steps under each letter
/// that meets them.
pub fn explored_is_determinised()
    ensures { ExploredIsDeterminised }
{}
