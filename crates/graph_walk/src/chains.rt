//! The arcs of a graph by their tails (adjacency lists).

ghost use Rattle.std.specs.Prelude.{IfOk, length};
ghost use Rattle.graph_walk.specs.Walk.{HasNodes};
ghost use Rattle.graph_walk.specs.inner.Chains.{AreChains};

use crate::Graph;
use std::alloc::{AllocError, Global};

/// For each node a linked list of the arcs that leave it, from the last to the first. An arc is given by its index plus one, and 0
/// says that there is none.
#[derive(Drop)]
pub(crate) struct Chains {
    /// For each node its last arc.
    pub(crate) last: Vec<usize>,
    /// For each arc the previous one with the same tail.
    pub(crate) before: Vec<usize>,
}

impl Chains {
    /// The lists of all nodes.
    pub(crate) fn new(alloc: Global, graph: &Graph) -> Result<Chains, AllocError>
        requires { HasNodes graph.now.nodes graph.now.arcs }
        ensures { IfOk result (λ chains. AreChains graph.now.nodes graph.now.arcs chains) }
    {
        let arcs = graph.arcs.as_slice();
        let mut last = vec![in alloc; 0usize; graph.nodes as usize]?;
        let mut before = Vec::with_capacity(alloc, arcs.len())?;
        'arcs: for place in 0..arcs.len() {
            let (tail, _) = arcs[place];
            before.push(last[tail as usize])?;
            last[tail as usize] = place + 1;
        }
        Ok(Chains { last, before })
    }
}
