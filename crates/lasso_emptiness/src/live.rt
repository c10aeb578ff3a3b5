//! The edges on which the search works, satisfiable and reached, and their graph.

ghost use Rattle.std.specs.Prelude.{◌≡◌, ◌<◌, ℕ, [], true, false, All, IfOk, length, map};
ghost use Rattle.std.specs.List.{slice_index_or};
ghost use Rattle.lasso_emptiness.specs.declared.live.EdgeRef.{EdgeRef};
ghost use Rattle.lasso_emptiness.specs.inner.Edges.{arc_of, back_arc_of, arc_in_direction};
ghost use Rattle.lasso_emptiness.specs.inner.Live.{ArePassable, AreReachedEdges};
ghost use Rattle.lasso_emptiness.specs.inner.Picked.{Picks};

use aut_base::{Arcs, Memory, Seq};
use aut_core::Automaton;
use graph_walk::{Graph, reach};
use std::alloc::Global;

/// An edge: its two states, and the index of its link in the automaton.
#[derive(Clone, Copy)]
pub(crate) struct EdgeRef {
    pub(crate) from: u32,
    pub(crate) to: u32,
    pub(crate) link: usize,
}

/// Edges, in order.
pub(crate) type LiveEdges = Seq<EdgeRef>;

/// The edges whose labels are satisfiable.
pub(crate) fn satisfiable_edges(alloc: Global, a: &Automaton) -> Result<LiveEdges, Memory>
    ensures { IfOk result (ArePassable a.now) }
{
    a.well_formedness();
    let mut edges = LiveEdges::from_vec(Vec::with_capacity(alloc, a.links().len())?);
    'links: for (place, link) in a.links().iter().enumerate() {
        if a.guards().is_false(link.guard) {
            continue;
        }
        edges.push(EdgeRef {
            from: link.from,
            to: link.to,
            link: place,
        })?;
    }
    Ok(edges)
}

/// Those of the edges that leave a state which is reached along them from a start.
pub(crate) fn reached_edges(
    alloc: Global,
    a: &Automaton,
    edges: &[EdgeRef],
) -> Result<LiveEdges, Memory>
    requires { All (λ e. (e.from < a.now.states) × (e.to < a.now.states)) edges.now }
    ensures { IfOk result (AreReachedEdges a.now.starts edges.now) }
{
    a.well_formedness();
    let graph = graph_of(alloc, a.states(), edges)?;
    let flags = reach(alloc, &graph, a.starts())?;
    flagged_edges(alloc, edges, flags.as_slice())
}

/// Those of the edges that leave a flagged state.
fn flagged_edges(alloc: Global, edges: &[EdgeRef], flags: &[bool]) -> Result<LiveEdges, Memory>
    requires { All (λ e. e.from < length flags.now) edges.now }
    ensures { IfOk result (Picks (λ e. slice_index_or flags.now e.from false ≡ true) edges.now []) }
{
    let mut flagged = LiveEdges::from_vec(Vec::with_capacity(alloc, edges.len())?);
    'edges: for edge in edges {
        if !flags[edge.from as usize] {
            continue;
        }
        flagged.push(*edge)?;
    }
    Ok(flagged)
}

/// The graph of these edges.
pub(crate) fn graph_of(alloc: Global, states: u32, edges: &[EdgeRef]) -> Result<Graph, Memory>
    ensures nodes { IfOk result (λ graph. graph.nodes ≡ states) }
    ensures arcs { IfOk result (λ graph. graph.arcs ≡ map arc_of edges.now) }
{
    graph_turned(alloc, states, edges, false)
}

/// The graph of these edges, each reversed.
pub(crate) fn backward_graph_of(
    alloc: Global,
    states: u32,
    edges: &[EdgeRef],
) -> Result<Graph, Memory>
    ensures nodes { IfOk result (λ graph. graph.nodes ≡ states) }
    ensures arcs { IfOk result (λ graph. graph.arcs ≡ map back_arc_of edges.now) }
{
    graph_turned(alloc, states, edges, true)
}

/// The graph of these edges, as they are or each reversed.
fn graph_turned(
    alloc: Global,
    states: u32,
    edges: &[EdgeRef],
    turned: bool,
) -> Result<Graph, Memory>
    ensures nodes { IfOk result (λ graph. graph.nodes ≡ states) }
    ensures arcs { IfOk result (λ graph. graph.arcs ≡ map (arc_in_direction turned) edges.now) }
{
    let mut arcs = Arcs::from_vec(Vec::with_capacity(alloc, edges.len())?);
    'edges: for edge in edges {
        arcs.push(turned_arc(edge, turned))?;
    }
    Ok(Graph {
        nodes: states,
        arcs,
    })
}

/// An edge as an arc, as it is or reversed.
fn turned_arc(edge: &EdgeRef, turned: bool) -> (u32, u32)
    ensures { result ≡ arc_in_direction turned edge.now }
{
    if turned {
        (edge.to, edge.from)
    } else {
        (edge.from, edge.to)
    }
}
