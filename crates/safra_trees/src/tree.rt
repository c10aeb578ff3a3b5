//! A stored tree.

ghost use Rattle.std.proofs.Props.{props};
ghost use Rattle.safra_trees.specs.Flat.{IsStored};

use aut_base::{Numbers, Text};
use std::hash::{Hash, Hasher};

// Why so: 'Safra trees' in docs/DECISIONS.md.
/// A compact Safra tree, or the empty one. Contracts see it by `tree_of` of `specs/View` as the list of its nodes.
///
/// Each state is stored once, with the deepest node that holds it. So two trees are equal exactly where they are the same
/// list of nodes.
#[derive(Debug, Drop)]
pub struct SafraTree {
    /// For each name that of the parent; the root, whose name is 0, is its own.
    pub(crate) parents: Text,
    /// The states of the root in their order.
    pub(crate) states: Numbers,
    /// For each of these states the deepest node that holds it.
    pub(crate) places: Text,
    ghost stored: { IsStored parents states places } by { Prim.hlevel props },
}

impl SafraTree {
    ghost use Rattle.std.specs.Prelude.{◌≡◌, ◌↔◌, IsTrue, length};
    ghost use Rattle.safra_trees.specs.Trees.{root_states};
    ghost use Rattle.safra_trees.specs.View.{tree_of};

    /// Whether two trees are the same list of nodes, which `==` says too.
    pub fn is(&self, other: &SafraTree) -> bool
        ensures { IsTrue result ↔ (tree_of self.now ≡ tree_of other.now) }
    {
        self == other
    }

    /// The number of nodes.
    pub fn nodes(&self) -> u32
        ensures { result ≡ length (tree_of self.now) }
    {
        self.parents.len() as u32
    }

    /// The states of the root in their order, which are all states of the tree.
    pub fn root_states(&self) -> &[u32]
        ensures { result.now ≡ root_states (tree_of self.now) }
    {
        self.states.as_slice()
    }
}

impl PartialEq for SafraTree {
    ghost use Rattle.safra_trees.specs.Same.{same_laws, same_nodes};
    ghost use Rattle.safra_trees.specs.View.{tree_of};
    ghost use Rattle.std.specs.Cmp.{on_per, partial_equiv_from_equiv};

    ghost eq = { λ a b. same_nodes (tree_of a) (tree_of b) };

    ghost laws = { on_per tree_of (partial_equiv_from_equiv same_laws) };

    fn eq(&self, other: &SafraTree) -> bool {
        self.parents == other.parents && self.states == other.states && self.places == other.places
    }
}

impl Eq for SafraTree {
    ghost use Rattle.safra_trees.specs.Same.{same_laws};
    ghost use Rattle.safra_trees.specs.View.{tree_of};
    ghost use Rattle.std.proofs.lemmas.Cmp.{on_equiv};

    ghost laws = { on_equiv tree_of same_laws };
}

impl Hash for SafraTree {
    ghost use Rattle.safra_trees.specs.Same.{hashed, same_hashed};
    ghost use Rattle.safra_trees.specs.View.{tree_of};

    ghost hash_input = { λ t. hashed (tree_of t) };

    ghost respects_eq = { λ a b is. same_hashed (tree_of a) (tree_of b) is };

    fn hash<H: Hasher>(&self, state: &mut H) {
        self.parents.hash(state);
        self.states.hash(state);
        self.places.hash(state);
    }
}
