//! A stored tree that takes fewer bytes.

ghost use Rattle.std.proofs.Props.{props};
ghost use Rattle.std.specs.Prelude.{◌≡◌, ◌^◌, IfOk, filter};
ghost use Rattle.safra_trees.specs.Flat.{IsSplit, is_high, is_low};

use crate::SafraTree;
use crate::lists::TreeLists;
use crate::passes::list_state;
use aut_base::{Memory, Numbers, Seq, Text};
use std::alloc::{AllocError, Global};
use std::hash::{Hash, Hasher};

/// States below this one are stored as two bytes.
pub(crate) const NARROW: u32 = 1 << 16;

// Why so: 'A tree that is listed takes three bytes a state' in docs/DECISIONS.md.
/// A tree as `SafraTree` is one, in fewer bytes: for whoever keeps many. Contracts see it by `packed_tree` of `specs/View` as
/// the list of its nodes.
#[derive(Debug, Drop)]
pub struct PackedTree {
    pub(crate) lists: TreeLists,
    ghost split: { IsSplit (2 ^ 16) lists.low lists.rest } by { Prim.hlevel props },
}

impl PackedTree {
    ghost use Rattle.std.specs.Prelude.{◌≡◌, IfOk, length};
    ghost use Rattle.safra_trees.specs.Trees.{root_states};
    ghost use Rattle.safra_trees.specs.View.{packed_tree, tree_of};

    /// The same tree.
    pub fn of(alloc: Global, tree: &SafraTree) -> Result<PackedTree, Memory>
        ensures { IfOk result (λ packed. packed_tree packed ≡ tree_of tree.now) }
    {
        let parents = Vec::from_slice(alloc, tree.parents.as_slice())?;
        let (low, rest) = split(alloc, tree.states.as_slice())?;
        let places = Vec::from_slice(alloc, tree.places.as_slice())?;
        Ok(PackedTree {
            lists: TreeLists {
                parents: Text::from_vec(parents),
                low: Seq::from_vec(low),
                rest: Numbers::from_vec(rest),
                places: Text::from_vec(places),
            },
        })
    }

    /// The number of nodes.
    pub fn nodes(&self) -> u32
        ensures { result ≡ length (packed_tree self.now) }
    {
        self.lists.parents.len() as u32
    }

    /// The states of the root in their order: all that stand in the tree. They take the room of the list, whatever stood in it.
    pub fn root_states(&self, list: Numbers) -> Result<Numbers, Memory>
        ensures { IfOk result (λ states. states ≡ root_states (packed_tree self.now)) }
    {
        let low = self.lists.low.as_slice();
        let mut states = list.into_vec();
        states.clear();
        'states: for state in low {
            states.push(u32::from(*state))?;
        }
        states.extend_from_slice(self.lists.rest.as_slice())?;
        Ok(Numbers::from_vec(states))
    }
}

/// The states that are stored as two bytes, and the others.
fn split(alloc: Global, states: &[u32]) -> Result<(Vec<u16>, Vec<u32>), AllocError>
    ensures low { IfOk result (λ lists. lists.0.items ≡ filter (is_low (2 ^ 16)) states.now) }
    ensures rest { IfOk result (λ lists. lists.1.items ≡ filter (is_high (2 ^ 16)) states.now) }
{
    let mut low = Vec::with_capacity(alloc, states.len())?;
    let mut rest = Vec::new(alloc);
    'states: for state in states {
        list_state(&mut low, &mut rest, *state, NARROW)?;
    }
    Ok((low, rest))
}

impl PartialEq for PackedTree {
    ghost use Rattle.safra_trees.specs.Same.{same_laws, same_nodes};
    ghost use Rattle.safra_trees.specs.View.{packed_tree};
    ghost use Rattle.std.specs.Cmp.{on_per, partial_equiv_from_equiv};

    ghost eq = { λ a b. same_nodes (packed_tree a) (packed_tree b) };

    ghost laws = { on_per packed_tree (partial_equiv_from_equiv same_laws) };

    fn eq(&self, other: &PackedTree) -> bool {
        self.lists.same_states(&other.lists) && self.lists.same_shape(&other.lists)
    }
}

impl Eq for PackedTree {
    ghost use Rattle.safra_trees.specs.Same.{same_laws};
    ghost use Rattle.safra_trees.specs.View.{packed_tree};
    ghost use Rattle.std.proofs.lemmas.Cmp.{on_equiv};

    ghost laws = { on_equiv packed_tree same_laws };
}

impl Hash for PackedTree {
    ghost use Rattle.safra_trees.specs.Same.{packed_hashed, same_packed_hashed};
    ghost use Rattle.safra_trees.specs.View.{packed_tree};

    ghost hash_input = { λ t. packed_hashed (packed_tree t) };

    ghost respects_eq = { λ a b is. same_packed_hashed (packed_tree a) (packed_tree b) is };

    fn hash<H: Hasher>(&self, state: &mut H) {
        state.write(self.lists.parents.as_bytes());
        self.lists.low.hash(state);
        self.lists.rest.hash(state);
        state.write(self.lists.places.as_bytes());
    }
}
