//! Laws of trees and of their step.

ghost use Rattle.safra_trees.specs.Laws.{EqualTreesAreOneList, SameListSameTree, StoredTreesAreTrees, WorkedSteps};

/// Every tree has the invariant that the step relies on: parents have lower names, a child holds only what its parent
/// holds, siblings share no state, and no node is empty or covered by its children.
pub fn stored_trees_are_trees()
    ensures { StoredTreesAreTrees }
{}

/// Trees that are the same list of nodes are equal.
pub fn same_list_same_tree()
    ensures { SameListSameTree }
{}

/// Trees compare as equal exactly where they are the same list of nodes.
pub fn equal_trees_are_one_list()
    ensures { EqualTreesAreOneList }
{}

/// The trees and events of a small automaton, worked out step by step.
pub fn worked_steps()
    ensures { WorkedSteps }
{}
