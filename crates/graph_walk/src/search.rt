//! Breadth-first search.

ghost use Rattle.std.specs.Prelude.{◌≡◌, ℕ, ◌<◌, All, IfOk, OnOk, length};
ghost use Rattle.graph_walk.specs.Walk.{HasNodes};
ghost use Rattle.graph_walk.specs.inner.Chains.{AreChains};

use crate::Graph;
use crate::chains::Chains;
use std::alloc::{AllocError, Global};

/// The state of the search.
#[derive(Drop)]
pub(crate) struct Search {
    /// For each node whether it was seen.
    pub(crate) seen: Vec<bool>,
    /// The nodes that were seen, the nearest first.
    pub(crate) order: Vec<u32>,
    /// For each node that was seen and is no start, the index of the arc by which it was found.
    pub(crate) led: Vec<usize>,
}

impl Search {
    ghost use Rattle.graph_walk.specs.inner.Search.{AddsIfUnseen, HasStarts, IsSearched, IsSized, Searching};

    /// The completed search from the nodes of a list.
    pub(crate) fn new(alloc: Global, graph: &Graph, starts: &[u32]) -> Result<Search, AllocError>
        requires nodes { HasNodes graph.now.nodes graph.now.arcs }
        requires starts { All (λ p. p < graph.now.nodes) starts.now }
        ensures { IfOk result (λ search. IsSearched graph.now.nodes graph.now.arcs starts.now search) }
    {
        let chains = Chains::new(alloc, graph)?;
        let mut search = Search::begun(alloc, graph.nodes, starts)?;
        let mut done = 0;
        'nodes: while done < search.order.len() {
            search.spread(graph, &chains, starts, done)?;
            done += 1;
        }
        Ok(search)
    }

    /// The search at its beginning, which has seen the nodes of a list and no other.
    fn begun(alloc: Global, nodes: u32, starts: &[u32]) -> Result<Search, AllocError>
        requires { All (λ p. p < nodes) starts.now }
        ensures size { IfOk result (λ search. length search.seen.items ≡ nodes) }
        ensures sized { IfOk result IsSized }
        ensures starts { IfOk result (λ search. HasStarts starts.now (length starts.now) search) }
    {
        let mut search = Search {
            seen: vec![in alloc; false; nodes as usize]?,
            order: Vec::new(alloc),
            led: vec![in alloc; 0usize; nodes as usize]?,
        };
        'starts: for start in starts {
            search.add(*start, 0)?;
        }
        Ok(search)
    }

    /// Adds a node that was found by the arc at an index, unless it was seen before. For a start the index has no meaning.
    fn add(&mut self, node: u32, place: usize) -> Result<(), AllocError>
        requires sized { IsSized self.old }
        requires within { node < length self.old.seen.items }
        ensures size { OnOk result (length self.new.seen.items ≡ length self.old.seen.items) }
        ensures sized { OnOk result (IsSized self.new) }
        ensures adds { OnOk result (AddsIfUnseen self.old node place self.new) }
    {
        if self.seen[node as usize] {
            return Ok(());
        }
        self.order.push(node)?;
        self.seen[node as usize] = true;
        self.led[node as usize] = place;
        Ok(())
    }

    /// Follows the arcs of the node at the index `done` of the list. The starts are an argument for the contract's sake.
    fn spread(
        &mut self,
        graph: &Graph,
        chains: &Chains,
        starts: &[u32],
        done: usize,
    ) -> Result<(), AllocError>
        requires nodes { HasNodes graph.now.nodes graph.now.arcs }
        requires chains { AreChains graph.now.nodes graph.now.arcs chains.now }
        requires size { length self.old.seen.items ≡ graph.now.nodes }
        requires sized { IsSized self.old }
        requires searching { Searching graph.now.arcs starts.now done (length graph.now.arcs) self.old }
        requires within { done < length self.old.order.items }
        ensures size { OnOk result (length self.new.seen.items ≡ graph.now.nodes) }
        ensures sized { OnOk result (IsSized self.new) }
        ensures searching { OnOk result (Searching graph.now.arcs starts.now done 0 self.new) }
        ensures longer { OnOk result (done < length self.new.order.items) }
    {
        let arcs = graph.arcs.as_slice();
        let node = self.order[done];
        let mut end = chains.last[node as usize];
        'arcs: while end > 0 {
            let place = end - 1;
            let (_, head) = arcs[place];
            self.add(head, place)?;
            end = chains.before[place];
        }
        Ok(())
    }
}
