//! Shortest walks.

ghost use Rattle.std.specs.Prelude.{ℕ, ◌<◌, IfOk, MatchOption};
ghost use Rattle.graph_walk.specs.Path.{IsShortest};
ghost use Rattle.graph_walk.specs.Walk.{HasNodes, Reaches};

use crate::Graph;
use crate::search::Search;
use aut_base::{Memory, Places};
use std::alloc::Global;

// Why so: 'Walks leave open what nobody asks' in docs/DECISIONS.md.
/// The indices of the arcs of a shortest walk from one node to another, in its order, or None where there is no walk.
pub fn path(alloc: Global, graph: &Graph, from: u32, to: u32) -> Result<Option<Places>, Memory>
    requires nodes { HasNodes graph.now.nodes graph.now.arcs }
    requires from { from < graph.now.nodes }
    requires to { to < graph.now.nodes }
    ensures { IfOk result (λ found. MatchOption found (¬ Reaches graph.now.arcs from to) (IsShortest graph.now.arcs from to)) }
{
    let search = Search::new(alloc, graph, &[from])?;
    if !search.seen[to as usize] {
        return Ok(None);
    }
    let arcs = graph.arcs.as_slice();
    let mut places = Vec::new(alloc);
    let mut at = to;
    'back: while at != from {
        let place = search.led[at as usize];
        places.push(place)?;
        let (tail, _) = arcs[place];
        at = tail;
    }
    places.reverse();
    Ok(Some(Places::from_vec(places)))
}
