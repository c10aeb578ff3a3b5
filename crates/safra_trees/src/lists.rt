//! The lists as which a tree is stored.

ghost use Rattle.std.proofs.Props.{props};
ghost use Rattle.std.specs.Prelude.{◌≡◌, ◌++◌, ◌<◌, ◌≤◌, ◌&&◌, length, nat_eq};
ghost use Rattle.std.specs.Cmp.Lexicographic.{pointwise};
ghost use Rattle.aut_base.specs.declared.limit.TheConstants.{MOST_NODES};
ghost use Rattle.safra_trees.specs.Flat.{IsStored, at};

use aut_base::{Numbers, Seq, Text};

/// The lists of a tree, where its states are first those that lie in two bytes, and then the others.
#[derive(Debug, Drop)]
pub(crate) struct TreeLists {
    /// For each name that of the parent; the root, whose name is 0, is its own.
    pub(crate) parents: Text,
    /// The states of the root in their order, while they lie in two bytes.
    pub(crate) low: Seq<u16>,
    /// The states behind them.
    pub(crate) rest: Numbers,
    /// For each of these states the deepest node that holds it.
    pub(crate) places: Text,
    ghost stored: { IsStored parents (low ++ rest) places } by { Prim.hlevel props },
}

impl TreeLists {
    /// Whether the nodes are as many, with the same parents, and the states as many, at the same places.
    pub(crate) fn same_shape(&self, other: &TreeLists) -> bool
        ensures { result ≡ (pointwise nat_eq self.now.parents other.now.parents && pointwise nat_eq self.now.places other.now.places) }
    {
        self.parents == other.parents && self.places == other.places
    }

    /// Whether the states are the same.
    pub(crate) fn same_states(&self, other: &TreeLists) -> bool
        ensures { result ≡ (pointwise nat_eq self.now.low other.now.low && pointwise nat_eq self.now.rest other.now.rest) }
    {
        self.low == other.low && self.rest == other.rest
    }
}

/// The same lists, to be read.
#[derive(Clone, Copy)]
pub(crate) struct TreeSlices<'a> {
    pub(crate) parents: &'a [u8],
    pub(crate) low: &'a [u16],
    pub(crate) rest: &'a [u32],
    pub(crate) places: &'a [u8],
}

impl<'a> TreeSlices<'a> {
    /// The number of nodes.
    pub(crate) fn nodes(&self) -> u32
        requires { length self.now.parents.now ≤ MOST_NODES }
        ensures { result ≡ length self.now.parents.now }
    {
        self.parents.len() as u32
    }

    /// The state at a place.
    pub(crate) fn state(&self, place: usize) -> u32
        requires { place < length (self.now.low.now ++ self.now.rest.now) }
        ensures { result ≡ at (self.now.low.now ++ self.now.rest.now) place }
    {
        if place < self.low.len() {
            u32::from(self.low[place])
        } else {
            self.rest[place - self.low.len()]
        }
    }
}
