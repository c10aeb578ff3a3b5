//! Closed paths through given edges.

ghost use Rattle.std.specs.Prelude.{◌≡◌, ◌<◌, ◌++◌, ℕ, List, All, Contains, IfOk, OnOk, length, map};
ghost use Rattle.graph_walk.specs.Walk.{Reaches};
ghost use Rattle.lasso_emptiness.specs.declared.live.EdgeRef.{EdgeRef};
ghost use Rattle.lasso_emptiness.specs.inner.Edges.{IsEdgeInRange, arc_of};
ghost use Rattle.lasso_emptiness.specs.inner.Groups.{IsStronglyConnected};
ghost use Rattle.lasso_emptiness.specs.inner.Tours.{ExtendsPath, IsTour, listed_edge};

use crate::live::{EdgeRef, LiveEdges, graph_of};
use aut_base::Memory;
use graph_walk::{Graph, path};
use std::alloc::Global;

/// A closed path along the edges of a component that has all of the needed ones, of which there is at least one.
pub(crate) fn tour(
    alloc: Global,
    states: u32,
    edges: &[EdgeRef],
    needed: &[EdgeRef],
) -> Result<LiveEdges, Memory>
    requires ends { All (λ e. (e.from < states) × (e.to < states)) edges.now }
    requires joined { IsStronglyConnected edges.now }
    requires inside { All (Contains edges.now) needed.now }
    requires some { 0 < length needed.now }
    ensures { IfOk result (IsTour edges.now needed.now) }
{
    let graph = graph_of(alloc, states, edges)?;
    let first = needed[0];
    let mut cycle = LiveEdges::new(alloc);
    let mut at = first.from;
    'needed: for edge in needed {
        add_way(alloc, &graph, edges, at, edge.from, &mut cycle)?;
        cycle.push(*edge)?;
        at = edge.to;
    }
    add_way(alloc, &graph, edges, at, first.from, &mut cycle)?;
    Ok(cycle)
}

/// Adds a shortest path from one state to another.
pub(crate) fn add_way(
    alloc: Global,
    graph: &Graph,
    edges: &[EdgeRef],
    from: u32,
    to: u32,
    path_edges: &mut LiveEdges,
) -> Result<(), Memory>
    requires arcs { graph.now.arcs ≡ map arc_of edges.now }
    requires ends { All (λ e. (e.from < graph.now.nodes) × (e.to < graph.now.nodes)) edges.now }
    requires from { from < graph.now.nodes }
    requires to { to < graph.now.nodes }
    requires reaches { Reaches (map arc_of edges.now) from to }
    ensures { OnOk result (ExtendsPath (Contains edges.now) from to path_edges.old path_edges.new) }
{
    if from == to {
        return Ok(());
    }
    match path(alloc, graph, from, to)? {
        Some(places) => add_places(edges, places.as_slice(), path_edges),
        None => Ok(()),
    }
}

/// Adds the edges at these indices.
fn add_places(edges: &[EdgeRef], places: &[usize], path_edges: &mut LiveEdges) -> Result<(), Memory>
    requires { All (λ place. place < length edges.now) places.now }
    ensures { OnOk result (path_edges.new ≡ path_edges.old ++ map (listed_edge edges.now) places.now) }
{
    'places: for place in places {
        path_edges.push(edges[*place])?;
    }
    Ok(())
}
