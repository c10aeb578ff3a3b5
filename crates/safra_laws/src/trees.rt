//! What holds of every tree that steps lead to, and what a step depends on.

ghost use Rattle.safra_laws.specs.Canonical.{FirstIsCanonical, StepsKeepCanonical};
ghost use Rattle.safra_laws.specs.Trees.{FirstIsTree, RootIsReached, RootMovesAreEnough, StepsKeepTrees, TreesAreFew};

/// The tree of the starts is a tree.
pub fn first_is_tree()
    ensures { FirstIsTree }
{}

/// The step of a tree is a tree, under the moves of any letter.
pub fn steps_keep_trees()
    ensures { StepsKeepTrees }
{}

/// The root's states are those of the subset construction: where runs over the word may be.
pub fn root_is_reached()
    ensures { RootIsReached }
{}

/// The trees that a word leads to have no more names than there are states.
pub fn trees_are_few()
    ensures { TreesAreFew }
{}

/// A step and its priority depend only on the set of moves from the root's states: not on their order or multiplicity, nor
/// on other moves.
pub fn root_moves_are_enough()
    ensures { RootMovesAreEnough }
{}

/// The tree of the starts is canonical: each node lists its states in rising order, and the root is its own parent.
pub fn first_is_canonical()
    ensures { FirstIsCanonical }
{}

/// The step of a canonical tree is canonical.
pub fn steps_keep_canonical()
    ensures { StepsKeepCanonical }
{}
