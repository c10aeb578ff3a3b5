//! The numbers of the strongly connected components.

ghost use Rattle.std.specs.Prelude.{IfOk};
ghost use Rattle.graph_walk.specs.Components.{AreComponents};
ghost use Rattle.graph_walk.specs.Walk.{HasNodes};

use crate::Graph;
use crate::pass::Pass;
use aut_base::{Memory, Numbers};
use std::alloc::Global;

// Why so: 'Walks leave open what nobody asks' in docs/DECISIONS.md.
/// For each node the number of its strongly connected component.
pub fn components(alloc: Global, graph: &Graph) -> Result<Numbers, Memory>
    requires { HasNodes graph.now.nodes graph.now.arcs }
    ensures { IfOk result (λ numbers. AreComponents graph.now.nodes graph.now.arcs numbers) }
{
    let marks = Pass::new(alloc, graph)?.marks;
    let numbers = marks.iter().map(|mark| mark.number()).collect(alloc)?;
    Ok(Numbers::from_vec(numbers))
}
