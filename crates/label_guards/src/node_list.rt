//! Nodes in the order in which they were added, each once.

ghost use Rattle.std.specs.Prelude.{◌≡◌, ◌-◌, ◌≤◌, [], length, slice_get, take, IfOk, Some};
ghost use Rattle.label_guards.specs.Nodes.{AddsNode};

use crate::nodes::Node;
use aut_base::Memory;
use std::alloc::Global;
use std::collections::HashMap;
use std::marker::Model;

/// Nodes in the order in which they were added, and the number of each.
#[derive(Drop)]
pub(crate) struct NodeList {
    nodes: Vec<Node>,
    numbers: HashMap<Node, usize>,
}

impl Model for NodeList {
    ghost use Rattle.std.specs.Prelude.{List};
    ghost use Rattle.std.specs.HashMap.{get};
    ghost use Rattle.label_guards.specs.declared.nodes.Node.{Node as Pair};
    ghost use Rattle.label_guards.specs.Nodes.{HasNumbers, equal_nodes};

    ghost Value = { List Pair };

    ghost view = { λ l. l.nodes.items };

    ghost invariant = { λ l. HasNumbers l.nodes.items (get equal_nodes l.numbers) };
}

impl NodeList {
    /// No node yet.
    pub(crate) fn new(alloc: Global) -> NodeList
        ensures { result ≡ [] }
    {
        NodeList {
            nodes: Vec::new(alloc),
            numbers: HashMap::new(alloc),
        }
    }

    /// The same nodes, held apart.
    pub(crate) fn copy(&self) -> Result<NodeList, Memory>
        ensures { IfOk result (λ copy. copy ≡ self.now) }
    {
        Ok(NodeList {
            nodes: self.nodes.clone()?,
            numbers: self.numbers.clone()?,
        })
    }

    /// The nodes.
    #[inline]
    pub(crate) fn as_slice(&self) -> &[Node]
        ensures keys { result.now ≡ self.now }
    {
        self.nodes.as_slice()
    }

    /// The number of the node, which is added if it isn't there.
    pub(crate) fn insert(&mut self, node: Node) -> Result<usize, Memory>
        ensures adds { AddsNode self.old self.new node }
        ensures stored { IfOk result (λ number. slice_get self.new number ≡ Some node) }
    {
        if let Some(number) = self.numbers.get(&node) {
            return Ok(*number);
        }
        let number = self.nodes.as_slice().len();
        self.nodes.push(node)?;
        match self.numbers.insert(node, number) {
            Ok(_) => Ok(number),
            Err(_) => {
                self.nodes.truncate(number);
                Err(Memory)
            }
        }
    }

    /// Takes back the nodes behind the first ones.
    pub(crate) fn truncate(&mut self, count: usize)
        ensures { self.new ≡ take count self.old }
    {
        while self.nodes.as_slice().len() > count {
            self.pop();
        }
    }

    /// Takes back the last node, if there is one.
    fn pop(&mut self)
        ensures { self.new ≡ take (length self.old - 1) self.old }
    {
        if let Some(node) = self.nodes.pop() {
            self.numbers.remove(&node);
        }
    }
}
