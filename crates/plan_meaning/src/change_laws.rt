//! Laws of changes.

ghost use Rattle.plan_meaning.specs.ChangeExamples.{ChangeExamples};
ghost use Rattle.plan_meaning.specs.Laws.{ChangesAreDetermined, ChangesExist};

/// A list of changes makes at most one automaton, or else passes at most one limit, and never both.
pub fn changes_are_determined()
    ensures { ChangesAreDetermined }
{}

/// Of each automaton the changes of a plan make an automaton, or they pass a limit (said by double negation).
pub fn changes_exist()
    ensures { ChangesExist }
{}

/// What the set operation of some plans says of some words, and in which order changes are made.
pub fn change_examples()
    ensures { ChangeExamples }
{}
