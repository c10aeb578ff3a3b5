//! Links with satisfiable labels, and those of them between flagged states.

ghost use Rattle.std.specs.Prelude.{◌≡◌, ◌<◌, All, IfOk, filter, length};
ghost use Rattle.aut_core.specs.SymbolicAutomata.{automaton_of};
ghost use Rattle.aut_ops.specs.Satisfiable.{is_flagged, passable_arcs};
ghost use Rattle.aut_ops.specs.inner.Renumbering.{link_passable, link_stays};
ghost use Rattle.label_guards.specs.Store.{Has};

use aut_base::{Arcs, Memory, Numbers};
use aut_core::{Automaton, Link, Links, copy_link};
use graph_walk::Graph;
use std::alloc::Global;

/// Whether the label of the link is satisfiable.
#[inline]
pub(crate) fn is_satisfiable(a: &Automaton, link: &Link) -> bool
    requires { Has a.now.store link.now.guard }
    ensures { result ≡ link_passable a.now link.now }
{
    a.well_formedness();
    !a.guards().is_false(link.guard)
}

/// The graph of the links with satisfiable labels.
pub(crate) fn satisfiable_graph(alloc: Global, a: &Automaton) -> Result<Graph, Memory>
    ensures nodes { IfOk result (λ graph. graph.nodes ≡ a.now.states) }
    ensures arcs { IfOk result (λ graph. graph.arcs ≡ passable_arcs (automaton_of a.now)) }
{
    a.well_formedness();
    let mut arcs = Arcs::from_vec(Vec::with_capacity(alloc, a.links().len())?);
    'links: for link in a.links() {
        if !is_satisfiable(a, link) {
            continue;
        }
        arcs.push((link.from, link.to))?;
    }
    Ok(Graph {
        nodes: a.states(),
        arcs,
    })
}

/// Copies of the links with satisfiable labels between flagged states.
pub(crate) fn links_between(alloc: Global, a: &Automaton, flags: &[bool]) -> Result<Links, Memory>
    requires { length flags.now ≡ a.now.states }
    ensures { IfOk result (λ links. links ≡ filter (link_stays a.now flags.now) a.now.links) }
{
    a.well_formedness();
    let mut links = Links::new(alloc);
    'links: for link in a.links() {
        if !stays(a, link, flags) {
            continue;
        }
        links.push(copy_link(link)?)?;
    }
    Ok(links)
}

/// Whether the label of the link is satisfiable and both of its states are flagged.
#[inline]
pub(crate) fn stays(a: &Automaton, link: &Link, flags: &[bool]) -> bool
    requires guard { Has a.now.store link.now.guard }
    requires from { link.now.from < length flags.now }
    requires to { link.now.to < length flags.now }
    ensures { result ≡ link_stays a.now flags.now link.now }
{
    is_satisfiable(a, link) && flags[link.from as usize] && flags[link.to as usize]
}

/// The starts that are flagged, in order.
pub(crate) fn flagged_starts(
    alloc: Global,
    starts: &[u32],
    flags: &[bool],
) -> Result<Numbers, Memory>
    requires { All (λ p. p < length flags.now) starts.now }
    ensures { IfOk result (λ new. new ≡ filter (is_flagged flags.now) starts.now) }
{
    let mut new = Numbers::new(alloc);
    'starts: for start in starts {
        if !flags[*start as usize] {
            continue;
        }
        new.push(*start)?;
    }
    Ok(new)
}
