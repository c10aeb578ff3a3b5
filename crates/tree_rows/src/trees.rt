//! The first tree, and its steps.

ghost use Rattle.std.specs.Prelude.{◌<◌, All, IfOk, IsTrue};
ghost use Rattle.safra_trees.specs.Events.{IsMoveInRange};
ghost use Rattle.safra_trees.specs.Trees.{root_states};
ghost use Rattle.safra_trees.specs.View.{tree_of};

use aut_base::{Memory, Numbers};
use row_files::Fault;
use safra_trees::{Event, Moves, SafraTree, Scratch, TreeFault, start, step_in_room};
use std::alloc::Global;

/// The tree of the first state alone.
pub(crate) fn one_node(alloc: Global) -> Result<SafraTree, Memory> {
    let mut starts = Numbers::new(alloc);
    starts.push(0)?;
    start(alloc, &starts)
}

/// The step of a tree. Fails where the new one has too many nodes.
pub(crate) fn next(
    alloc: Global,
    states: u32,
    tree: &SafraTree,
    moves: &Moves,
    room: &mut Scratch,
) -> Result<(SafraTree, Event), Fault>
    requires states { All (λ s. s < states) (root_states (tree_of tree.now)) }
    requires moves { All (IsMoveInRange states) moves.now }
    ensures { IfOk result (λ made. All (λ s. s < states) (root_states (tree_of made.0))) }
{
    match step_in_room(alloc, states, tree, moves, room) {
        Ok(made) => Ok(made),
        Err(TreeFault::Nodes) => Err(Fault::Failed),
        Err(TreeFault::Memory) => Err(Fault::Memory),
    }
}

/// Whether all are states.
pub(crate) fn are_states(states: u32, listed: &[u32]) -> bool
    ensures { IsTrue result → All (λ s. s < states) listed.now }
{
    'states: for state in listed {
        if *state >= states {
            return false;
        }
    }
    true
}
