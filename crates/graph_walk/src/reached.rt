//! Reachability.

ghost use Rattle.std.specs.Prelude.{ℕ, ◌<◌, All, IfOk};
ghost use Rattle.graph_walk.specs.Reach.{AreReachFlags};
ghost use Rattle.graph_walk.specs.Walk.{HasNodes};

use crate::Graph;
use crate::search::Search;
use aut_base::{Flags, Memory, Numbers};
use std::alloc::Global;

/// For each node whether some node of a list reaches it. Each node reaches itself.
pub fn reach(alloc: Global, graph: &Graph, from: &Numbers) -> Result<Flags, Memory>
    requires nodes { HasNodes graph.now.nodes graph.now.arcs }
    requires from { All (λ p. p < graph.now.nodes) from.now }
    ensures { IfOk result (λ flags. AreReachFlags graph.now.nodes graph.now.arcs from.now flags) }
{
    let search = Search::new(alloc, graph, from.as_slice())?;
    Ok(Flags::from_vec(search.seen))
}
