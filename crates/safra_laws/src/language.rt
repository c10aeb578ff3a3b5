//! The language of trees: from green names and priorities to an accepting run of the automaton, and back. A stable green
//! name of a round (`HasGreenName`) is one that is green at some letter of it, while neither it nor a lower name is red at
//! any.

ghost use Rattle.safra_laws.specs.Language.{AcceptedIsGreen, AcceptedIsOdd, GreenHasCycle, GreenIsAccepted, GreenIsOdd, OddIsAccepted, OddIsGreen};
ghost use Rattle.safra_laws.specs.Priorities.{PrioritiesAreBelow, PriorityByFirst};

/// Where a run with an accepting move and the trees both come back after a round, the round has a stable green name.
pub fn accepted_is_green()
    ensures { AcceptedIsGreen }
{}

/// Where the trees come back after a round, a stable green name of it holds a state with an accepting cycle.
pub fn green_has_cycle()
    ensures { GreenHasCycle }
{}

/// Where the trees come back after a round with a stable green name, the automaton accepts.
pub fn green_is_accepted()
    ensures { GreenIsAccepted }
{}

/// A priority is the number of one of 2 * most + 1 acceptance sets.
pub fn priorities_are_below()
    ensures { PrioritiesAreBelow }
{}

/// The priority of a step follows from the least of its red and the least of its green names.
pub fn priority_by_first()
    ensures { PriorityByFirst }
{}

/// A stable green name makes the least priority of the round odd.
pub fn green_is_odd()
    ensures { GreenIsOdd }
{}

/// Where the least priority of a round is odd, the round has a stable green name.
pub fn odd_is_green()
    ensures { OddIsGreen }
{}

/// Where a run with an accepting move and the trees both come back after a round, the least priority of the round is odd.
pub fn accepted_is_odd()
    ensures { AcceptedIsOdd }
{}

/// Where the trees come back after a round whose least priority is odd, the automaton accepts.
pub fn odd_is_accepted()
    ensures { OddIsAccepted }
{}
