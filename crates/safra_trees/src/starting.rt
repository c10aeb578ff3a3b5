//! The tree before a word.

ghost use Rattle.std.specs.Prelude.{◌≡◌, ◌<◌, ℕ, All, IfOk};
ghost use Rattle.safra_trees.specs.Trees.{first_tree, root_states};
ghost use Rattle.safra_trees.specs.View.{tree_of};

use crate::SafraTree;
use aut_base::{Memory, Numbers, Text, in_order};
use std::alloc::Global;

/// The tree of an automaton before a word: one node with the starts, or none where there are none. It depends on the starts
/// alone, not on the number of states.
pub fn start(alloc: Global, starts: &Numbers) -> Result<SafraTree, Memory>
    ensures tree { IfOk result (λ tree. (n : ℕ) → All (λ s. s < n) starts.now → tree_of tree ≡ first_tree n starts.now) }
    ensures states { IfOk result (λ tree. (n : ℕ) → All (λ s. s < n) starts.now → All (λ s. s < n) (root_states (tree_of tree))) }
{
    let listed = Vec::from_slice(alloc, starts.as_slice())?;
    let states = in_order(Numbers::from_vec(listed));
    let parents = vec![in alloc; 0u8; states.len().min(1)]?;
    let places = vec![in alloc; 0u8; states.len()]?;
    Ok(SafraTree {
        parents: Text::from_vec(parents),
        states,
        places: Text::from_vec(places),
    })
}
