//! Laws of products and of trimmed and pruned automata: existence and uniqueness.

ghost use Rattle.aut_ops.specs.Laws.{FewPairsExcludeMore, PairsAreDetermined, PairsExist, ProductsAreDetermined, ProductsExist, PrunedExists, PrunedIsDetermined, ReachedByLetters};
ghost use Rattle.aut_ops.specs.Laws.{TrimmedExists, TrimmedIsDetermined};

/// The list of pairs of two automata is unique, and has exactly the pairs that are reached.
pub fn pairs_are_determined()
    ensures { PairsAreDetermined }
{}

/// The product of two automata under a join of their conditions is unique.
pub fn products_are_determined()
    ensures { ProductsAreDetermined }
{}

/// Where a product has at most n states, no more than n pairs are reached.
pub fn few_pairs_exclude_more()
    ensures { FewPairsExcludeMore }
{}

/// The pairs that are reached are those to which one list of letters leads in both automata.
pub fn reached_by_letters()
    ensures { ReachedByLetters }
{}

/// The trimmed automaton of an automaton is unique.
pub fn trimmed_is_determined()
    ensures { TrimmedIsDetermined }
{}

/// The pruned automaton of an automaton is unique.
pub fn pruned_is_determined()
    ensures { PrunedIsDetermined }
{}

/// Two automata have a list of their pairs within a limit, or reach more pairs than that.
pub fn pairs_exist()
    ensures { PairsExist }
{}

/// Two automata have a product under each join of their conditions within a limit, or reach more pairs than that.
pub fn products_exist()
    ensures { ProductsExist }
{}

/// Each automaton has a trimmed one (classically: it isn't so that there is none).
pub fn trimmed_exists()
    ensures { TrimmedExists }
{}

/// Each automaton has a pruned one (classically: it isn't so that there is none).
pub fn pruned_exists()
    ensures { PrunedExists }
{}
