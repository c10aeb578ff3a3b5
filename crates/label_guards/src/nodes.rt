//! The nodes of reduced ordered binary decision diagrams (Bryant 1986), each kept once.

ghost use Rattle.std.specs.Prelude.{◌≡◌, ◌<◌, ◌≤◌, [], take, IfOk};
ghost use Rattle.aut_base.specs.declared.limit.TheConstants.{MOST_NAMES};
ghost use Rattle.label_guards.specs.Nodes.{AreSides, Grows, IsChoice, IsReducedDiagram, IsNodeAt, level};
ghost use Rattle.label_guards.specs.Store.{HasPlace, places};

use crate::node_list::NodeList;
use aut_base::Memory;
use std::alloc::Global;
use std::marker::Model;

/// Asks whether a proposition holds, and goes on at the place `high` if it does and at `low` if not.
#[derive(Clone, Copy, PartialEq, Eq, Hash)]
pub(crate) struct Node {
    pub(crate) prop: u32,
    pub(crate) low: usize,
    pub(crate) high: usize,
}

/// The nodes of a store. The first of them stands at place 2, behind `f` and `t`.
#[derive(Drop)]
pub(crate) struct Nodes {
    names: u32,
    list: NodeList,
}

impl Model for Nodes {
    ghost use Rattle.label_guards.specs.Store.{Store};
    ghost use Rattle.label_guards.specs.Nodes.{IsReducedDiagram};

    ghost Value = { Store };

    ghost view = { λ s. record { names = s.names; nodes = s.list } };

    ghost invariant = { λ s. IsReducedDiagram s.names s.list };
}

impl Nodes {
    /// No node yet.
    pub(crate) fn new(alloc: Global, names: u32) -> Nodes
        requires { names ≤ MOST_NAMES }
        ensures names { result.names ≡ names }
        ensures nodes { result.nodes ≡ [] }
    {
        Nodes {
            names,
            list: NodeList::new(alloc),
        }
    }

    /// The same nodes at the same places, held apart.
    pub(crate) fn copy(&self) -> Result<Nodes, Memory>
        ensures { IfOk result (λ copy. copy ≡ self.now) }
    {
        Ok(Nodes {
            names: self.names,
            list: self.list.copy()?,
        })
    }

    /// Tells a proof that the diagrams are reduced.
    pub(crate) fn reduced(&self)
        ensures { IsReducedDiagram self.now.names self.now.nodes }
    {
        let _ = &self.list;
    }

    /// The number of propositions.
    pub(crate) fn names(&self) -> u32
        ensures { result ≡ self.now.names }
    {
        self.names
    }

    /// The number of places.
    pub(crate) fn places(&self) -> usize
        ensures { result ≡ places self.now }
    {
        self.list.as_slice().len() + 2
    }

    /// The node at this place.
    #[inline]
    pub(crate) fn node_at(&self, place: usize) -> Node
        requires inner { 2 ≤ place }
        requires has { HasPlace self.now place }
        ensures { IsNodeAt self.now place result }
    {
        self.list.as_slice()[place - 2]
    }

    /// The proposition that is asked for first at this place, or the number of propositions at `f` and `t`.
    #[inline]
    pub(crate) fn level(&self, place: usize) -> u32
        requires { HasPlace self.now place }
        ensures level { result ≡ level self.now place }
        ensures most { result ≤ self.now.names }
        ensures asks { 2 ≤ place → result < self.now.names }
    {
        if place < 2 {
            return self.names;
        }
        self.node_at(place).prop
    }

    /// Where to go on if the proposition fails, and if it holds.
    #[inline]
    pub(crate) fn sides(&self, place: usize, prop: u32) -> (usize, usize)
        requires has { HasPlace self.now place }
        requires later { prop ≤ level self.now place }
        requires within { prop < self.now.names }
        ensures { AreSides self.now prop place result.0 result.1 }
    {
        if place < 2 {
            return (place, place);
        }
        let node = self.node_at(place);
        if node.prop == prop {
            return (node.low, node.high);
        }
        (place, place)
    }

    /// The place where the proposition decides between these two, as a new node or one that is there.
    pub(crate) fn make(&mut self, prop: u32, low: usize, high: usize) -> Result<usize, Memory>
        requires low { HasPlace self.old low }
        requires high { HasPlace self.old high }
        requires low_later { prop < level self.old low }
        requires high_later { prop < level self.old high }
        ensures grows { Grows self.old self.new }
        ensures kept { places self.old ≤ places self.new }
        ensures made { IfOk result (λ place. IsChoice self.new prop low high place) }
    {
        if low == high {
            return Ok(low);
        }
        let index = self.list.insert(Node { prop, low, high })?;
        match index.checked_add(2) {
            Some(place) => Ok(place),
            None => Err(Memory),
        }
    }

    /// Takes back the nodes behind the first ones.
    pub(crate) fn cut(&mut self, count: usize)
        ensures { self.new ≡ record self.old { nodes = take count self.old.nodes } }
    {
        self.list.truncate(count);
    }
}
