//! The depth-first search that finds the strongly connected components (Tarjan 1972), with a stack of its own.

ghost use Rattle.std.specs.Prelude.{◌≡◌, ℕ, ◌+◌, ◌^◌, ◌<◌, All, IfOk, OnOk, length};
ghost use Rattle.graph_walk.specs.Walk.{HasNodes};
ghost use Rattle.graph_walk.specs.inner.Chains.{AreChains};

use crate::Graph;
use crate::chains::Chains;
use std::alloc::{AllocError, Global};

/// The state of a node in the search.
#[derive(Clone, Copy)]
pub(crate) enum Mark {
    /// It was not entered.
    Fresh,
    /// It was entered, its component is not complete yet, and it is at this index of the open nodes (Tarjan's stack).
    Open(u32),
    /// Its component is complete, and has this number.
    Closed(u32),
}

impl Mark {
    ghost use Rattle.graph_walk.specs.inner.Marks.{component_number};

    /// The number of the node's component, and 0 where that is not complete.
    pub(crate) fn number(self) -> u32
        ensures { result ≡ component_number self }
    {
        match self {
            Mark::Closed(number) => number,
            Mark::Fresh | Mark::Open(_) => 0,
        }
    }
}

/// A frame of the search: an open node whose arcs are being followed, the last one first.
#[derive(Clone, Copy)]
pub(crate) struct Frame {
    /// The node's index in the open nodes.
    pub(crate) place: u32,
    /// The index of an open node that it reaches (Tarjan's low link).
    pub(crate) low: u32,
    /// The next of its arcs, given as in `Chains`.
    pub(crate) next: usize,
}

/// The state of the search.
#[derive(Drop)]
pub(crate) struct Pass {
    /// The state of each node.
    pub(crate) marks: Vec<Mark>,
    /// The open nodes, in the order in which they were entered.
    pub(crate) order: Vec<u32>,
    /// The frames of the search but the last one, which each function takes as an argument.
    pub(crate) below: Vec<Frame>,
    /// The number of complete components.
    pub(crate) count: u32,
}

impl Pass {
    ghost use Rattle.graph_walk.specs.inner.Marks.{node_mark};
    ghost use Rattle.graph_walk.specs.inner.Pass.{ClosesComponent, Enters, LeavesNode, IsIdle, IsVisiting, NoneFreshened, TakesStep};
    ghost use Rattle.graph_walk.specs.declared.pass.Mark.TheVariants.{Fresh};

    /// The search of the whole graph.
    pub(crate) fn new(alloc: Global, graph: &Graph) -> Result<Pass, AllocError>
        requires { HasNodes graph.now.nodes graph.now.arcs }
        ensures idle { IfOk result (λ pass. IsIdle graph.now.nodes graph.now.arcs pass) }
        ensures entered { IfOk result (λ pass. (x : ℕ) → x < graph.now.nodes → node_mark pass.marks.items x ≡ Fresh → ⊥) }
    {
        let chains = Chains::new(alloc, graph)?;
        let mut pass = Pass {
            marks: vec![in alloc; Mark::Fresh; graph.nodes as usize]?,
            order: Vec::new(alloc),
            below: Vec::new(alloc),
            count: 0,
        };
        'roots: for root in 0..graph.nodes {
            pass.visit(graph, &chains, root)?;
        }
        Ok(pass)
    }

    /// Searches from this node, unless it was entered before.
    fn visit(&mut self, graph: &Graph, chains: &Chains, root: u32) -> Result<(), AllocError>
        requires nodes { HasNodes graph.now.nodes graph.now.arcs }
        requires chains { AreChains graph.now.nodes graph.now.arcs chains.now }
        requires idle { IsIdle graph.now.nodes graph.now.arcs self.old }
        requires within { root < graph.now.nodes }
        ensures idle { OnOk result (IsIdle graph.now.nodes graph.now.arcs self.new) }
        ensures freshened { OnOk result (NoneFreshened self.old self.new) }
        ensures entered { OnOk result (node_mark self.new.marks.items root ≡ Fresh → ⊥) }
    {
        let Mark::Fresh = self.marks[root as usize] else {
            return Ok(());
        };
        let mut top = self.enter(chains, root)?;
        'walk: loop {
            if top.next > 0 {
                top = self.see(graph, chains, top)?;
            } else {
                match self.finish(graph, top) {
                    Some(under) => top = under,
                    None => return Ok(()),
                }
            }
        }
    }

    /// Enters a fresh node: it becomes the last open one.
    fn enter(&mut self, chains: &Chains, node: u32) -> Result<Frame, AllocError>
        requires marked { node < length self.old.marks.items }
        requires chained { node < length chains.now.last.items }
        requires room { length self.old.order.items < 2 ^ 32 }
        ensures { IfOk result (λ frame. Enters chains.now.last.items node self.old self.new frame) }
    {
        let place = self.order.len() as u32;
        self.order.push(node)?;
        self.marks[node as usize] = Mark::Open(place);
        Ok(Frame {
            place,
            low: place,
            next: chains.last[node as usize],
        })
    }

    /// Follows the next arc of the last frame, and answers the frame that is the last one afterwards.
    fn see(&mut self, graph: &Graph, chains: &Chains, top: Frame) -> Result<Frame, AllocError>
        requires nodes { HasNodes graph.now.nodes graph.now.arcs }
        requires chains { AreChains graph.now.nodes graph.now.arcs chains.now }
        requires midway { IsVisiting graph.now.nodes graph.now.arcs self.old top }
        requires next { 0 < top.next }
        ensures { IfOk result (λ next. TakesStep graph.now.nodes graph.now.arcs self.old top self.new next) }
    {
        let arcs = graph.arcs.as_slice();
        let place = top.next - 1;
        let (_, head) = arcs[place];
        let mut top = top;
        top.next = chains.before[place];
        match self.marks[head as usize] {
            Mark::Closed(_) => Ok(top),
            Mark::Open(at) => {
                top.low = top.low.min(at);
                Ok(top)
            }
            Mark::Fresh => {
                self.below.push(top)?;
                let entered = self.enter(chains, head)?;
                Ok(entered)
            }
        }
    }

    /// Leaves a node all of whose arcs were followed, and answers the frame from which it was entered, if there is one. The
    /// graph is an argument for the contract's sake.
    fn finish(&mut self, graph: &Graph, top: Frame) -> Option<Frame>
        requires midway { IsVisiting graph.now.nodes graph.now.arcs self.old top }
        requires done { top.next ≡ 0 }
        ensures { LeavesNode graph.now.nodes graph.now.arcs self.old top self.new result }
    {
        if top.low == top.place {
            self.close(top.place);
            self.below.pop()
        } else {
            let mut under = self.below.pop()?;
            under.low = under.low.min(top.low);
            Some(under)
        }
    }

    /// Makes the open nodes from an index on a component.
    fn close(&mut self, place: u32)
        requires marked { All (λ x. x < length self.old.marks.items) self.old.order.items }
        requires within { place < length self.old.order.items }
        requires room { self.old.count + 1 < 2 ^ 32 }
        ensures { ClosesComponent place self.old self.new }
    {
        'nodes: for at in place as usize..self.order.len() {
            let node = self.order[at];
            self.marks[node as usize] = Mark::Closed(self.count);
        }
        self.order.truncate(place as usize);
        self.count += 1;
    }
}
