//! A worked example, to which the laws apply.

ghost use Rattle.safra_laws.specs.Example.{WorkedPriorities, WorkedRound, WorkedTrees};

/// The trees of an automaton of two states, and which names are green and red in the steps between them.
pub fn worked_trees()
    ensures { WorkedTrees }
{}

/// The priorities along two rounds of these trees: the least is odd in one, and even in the other.
pub fn worked_priorities()
    ensures { WorkedPriorities }
{}

/// A round of one letter after which the trees come back: the premises of the laws hold of it, and so do their conclusions.
pub fn worked_round()
    ensures { WorkedRound }
{}
