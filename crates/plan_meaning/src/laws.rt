//! Laws of the verdict on an automaton, and of limits.

ghost use Rattle.plan_meaning.specs.FilterExamples.{FilterExamples};
ghost use Rattle.plan_meaning.specs.Laws.{OneLimitOfInclusion, VerdictIsOne, PassTheirOwn, AVerdictExists};

/// There is no more than one verdict on an automaton, and where it is compared with another no more than one limit is passed.
pub fn verdict_is_one()
    ensures verdict { VerdictIsOne }
    ensures inclusion { OneLimitOfInclusion }
{}

/// There is a verdict on each automaton (said by double negation).
pub fn a_verdict_exists()
    ensures { AVerdictExists }
{}

/// A filter, a change and a comparison of two automata pass no limits but those that are listed for them.
pub fn only_own_limits()
    ensures { PassTheirOwn }
{}

/// What each filter says of some automata of one and two states, and some verdicts on them.
pub fn filter_examples()
    ensures { FilterExamples }
{}
