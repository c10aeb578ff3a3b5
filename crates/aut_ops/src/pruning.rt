//! Pruning of Büchi automata: states that are on no accepting run lose their edges.

ghost use Rattle.std.specs.Prelude.{◌≡◌, ◌<◌, ◌&&◌, IfOk, false, filter, length, map};
ghost use Rattle.std.specs.List.{slice_index_or};
ghost use Rattle.aut_base.specs.Formula.{Inf};
ghost use Rattle.aut_core.specs.SymbolicAutomata.{automaton_of};
ghost use Rattle.aut_core.specs.OtherNames.{AcceptTheSame};
ghost use Rattle.aut_ops.specs.Satisfiable.{between, is_flagged};
ghost use Rattle.aut_ops.specs.Pruning.{AreUseful, IsPruned};
ghost use Rattle.aut_ops.specs.inner.Renumbering.{both_flagged, link_closes, reversed_arc};
ghost use Rattle.label_guards.specs.Store.{Has};

use crate::passable::{flagged_starts, is_satisfiable, links_between, satisfiable_graph};
use aut_base::{Arcs, Flags, Memory, Numbers};
use aut_core::{Automaton, Link};
use graph_walk::{Graph, components, reach};
use std::alloc::Global;

/// The automaton with nothing but its useful starts and its edges with satisfiable labels between useful states. A state is
/// useful where it is reached, and a path leads from it to a cycle with an edge in the set. The states keep their numbers.
/// It accepts the same words.
pub fn prune(alloc: Global, b: &Automaton) -> Result<Automaton, Memory>
    requires sets { b.now.sets ≡ 1 }
    requires formula { b.now.formula ≡ Inf 0 false }
    ensures shape { IfOk result (λ made. IsPruned (automaton_of b.now) (automaton_of made)) }
    ensures accepts { IfOk result (λ made. AcceptTheSame (automaton_of made) (automaton_of b.now)) }
{
    b.well_formedness();
    let useful = useful_states(alloc, b)?;
    flagged_in_place(alloc, b, useful.as_slice())
}

/// The automaton with nothing but its flagged starts and its edges with satisfiable labels between flagged states.
fn flagged_in_place(alloc: Global, a: &Automaton, flags: &[bool]) -> Result<Automaton, Memory>
    requires { length flags.now ≡ a.now.states }
    ensures { IfOk result (λ made. automaton_of made ≡ between flags.now (automaton_of a.now)) }
{
    a.well_formedness();
    let links = links_between(alloc, a, flags)?;
    let starts = flagged_starts(alloc, a.starts().as_slice(), flags)?;
    a.with_states(alloc, a.states(), starts, links)
}

/// For each state whether it is useful.
fn useful_states(alloc: Global, b: &Automaton) -> Result<Flags, Memory>
    ensures { IfOk result (AreUseful (automaton_of b.now)) }
{
    b.well_formedness();
    let graph = satisfiable_graph(alloc, b)?;
    let reached = reach(alloc, &graph, b.starts())?;
    let numbers = components(alloc, &graph)?;
    let sources = closing_sources(alloc, b, &numbers)?;
    let leading = reach(alloc, &turned(alloc, &graph)?, &sources)?;
    both(alloc, reached.as_slice(), leading.as_slice())
}

/// The states that some link in the set leaves which is inside of a component, and so on a cycle.
fn closing_sources(alloc: Global, b: &Automaton, numbers: &Numbers) -> Result<Numbers, Memory>
    requires { length numbers.now ≡ b.now.states }
    ensures { IfOk result (λ sources. sources ≡ map (λ l. l.from) (filter (link_closes b.now numbers.now) b.now.links)) }
{
    b.well_formedness();
    let mut sources = Numbers::new(alloc);
    'links: for link in b.links() {
        if !closes(b, link, numbers) {
            continue;
        }
        sources.push(link.from)?;
    }
    Ok(sources)
}

/// Whether the link is in the set, its label is satisfiable, and both of its states are in one component.
fn closes(b: &Automaton, link: &Link, numbers: &Numbers) -> bool
    requires guard { Has b.now.store link.now.guard }
    requires from { link.now.from < length numbers.now }
    requires to { link.now.to < length numbers.now }
    ensures { result ≡ link_closes b.now numbers.now link.now }
{
    let from = *numbers.at(link.from as usize);
    let to = *numbers.at(link.to as usize);
    is_satisfiable(b, link) && link.marks.has(0) && from == to
}

/// The graph with each arc reversed.
fn turned(alloc: Global, graph: &Graph) -> Result<Graph, Memory>
    ensures nodes { IfOk result (λ made. made.nodes ≡ graph.now.nodes) }
    ensures arcs { IfOk result (λ made. made.arcs ≡ map reversed_arc graph.now.arcs) }
{
    let mut arcs = Arcs::new(alloc);
    'arcs: for arc in graph.arcs.as_slice() {
        let (tail, head) = *arc;
        arcs.push((head, tail))?;
    }
    Ok(Graph {
        nodes: graph.nodes,
        arcs,
    })
}

/// For each index whether both lists have a flag there.
fn both(alloc: Global, first: &[bool], second: &[bool]) -> Result<Flags, Memory>
    requires { length second.now ≡ length first.now }
    ensures { IfOk result (λ flags. flags ≡ both_flagged first.now second.now) }
{
    let mut flags = Flags::new(alloc);
    'places: for place in 0..first.len() {
        flags.push(are_both(first, second, place))?;
    }
    Ok(flags)
}

/// Whether both lists have a flag at the index.
fn are_both(first: &[bool], second: &[bool], place: usize) -> bool
    requires first { place < length first.now }
    requires second { place < length second.now }
    ensures { result ≡ (is_flagged first.now place && is_flagged second.now place) }
{
    first[place] && second[place]
}
