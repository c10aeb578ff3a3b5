//! An accepting closed path of a component, and a lasso word that a run over it reads.

ghost use Rattle.std.specs.Prelude.{◌≡◌, ◌<◌, ◌↔◌, ℕ, true, false, IsTrue, List, All, Contains, IfOk, MatchOption, length, map};
ghost use Rattle.aut_core.specs.SymbolicAutomata.{automaton_of};
ghost use Rattle.aut_core.specs.declared.link.Link.{Link};
ghost use Rattle.graph_walk.specs.Reach.{ReachedFrom};
ghost use Rattle.aut_base.specs.Formula.{FormulaTree, formula_tree};
ghost use Rattle.graph_walk.specs.Walk.{Reaches};
ghost use Rattle.std.specs.List.{slice_index_or};
ghost use Rattle.lasso_emptiness.specs.declared.live.EdgeRef.{EdgeRef};
ghost use Rattle.lasso_emptiness.specs.inner.Edges.{IsEdgeInRange, arc_of, met_along};
ghost use Rattle.lasso_emptiness.specs.inner.Groups.{IsStronglyConnected};
ghost use Rattle.lasso_emptiness.specs.inner.Letters.{AreLettersOf, IsLetterOf, IsOwnWord};
ghost use Rattle.lasso_emptiness.specs.inner.Live.{ArePassable, IsPassable};
ghost use Rattle.lasso_emptiness.specs.inner.Trails.{IsAccepting};
ghost use Rattle.lasso_emptiness.specs.inner.Tours.{IsStem};

use crate::live::{EdgeRef, LiveEdges, backward_graph_of, graph_of};
use crate::needed::needed_edges;
use crate::tour::{add_way, tour};
use aut_base::{Flags, Formula, Lasso, Letter, Letters, Memory, Numbers};
use aut_core::{Automaton, Link};
use graph_walk::reach;
use std::alloc::Global;

/// An accepting closed path of a component whose edges together meet the condition.
pub(crate) fn accepting_cycle(
    alloc: Global,
    links: &[Link],
    states: u32,
    edges: &[EdgeRef],
    condition: &Formula,
) -> Result<LiveEdges, Memory>
    requires within { All (IsEdgeInRange (length links.now) states) edges.now }
    requires joined { IsStronglyConnected edges.now }
    requires some { 0 < length edges.now }
    requires met { met_along links.now edges.now (formula_tree condition.now) ≡ true }
    ensures { IfOk result (IsAccepting links.now (Contains edges.now) (formula_tree condition.now)) }
{
    let needed = needed_edges(alloc, links, edges, condition)?;
    tour(alloc, states, edges, needed.as_slice())
}

/// A lasso word whose stem leads from a start to the closed path, and whose cycle goes around it.
pub(crate) fn word_around(
    alloc: Global,
    a: &Automaton,
    passable: &[EdgeRef],
    cycle: &[EdgeRef],
) -> Result<Lasso, Memory>
    requires passable { ArePassable a.now passable.now }
    requires reached { (e : EdgeRef) → Contains cycle.now e → ReachedFrom (map arc_of passable.now) a.now.starts e.from }
    requires accepting { IsAccepting a.now.links (IsPassable a.now) a.now.formula cycle.now }
    ensures { IfOk result (IsOwnWord (automaton_of a.now)) }
{
    a.well_formedness();
    let stem = stem_to(alloc, a, passable, cycle[0].from)?;
    Ok(Lasso {
        stem: letters_along(alloc, a, stem.as_slice())?,
        cycle: letters_along(alloc, a, cycle)?,
    })
}

/// A path from a start to the state, which a start reaches.
fn stem_to(alloc: Global, a: &Automaton, edges: &[EdgeRef], state: u32) -> Result<LiveEdges, Memory>
    requires ends { All (λ e. (e.from < a.now.states) × (e.to < a.now.states)) edges.now }
    requires state { state < a.now.states }
    requires reached { ReachedFrom (map arc_of edges.now) a.now.starts state }
    ensures { IfOk result (IsStem a.now.starts edges.now state) }
{
    a.well_formedness();
    let flags = reaching(alloc, a.states(), edges, state)?;
    let mut stem = LiveEdges::new(alloc);
    match one_flagged(a.starts().as_slice(), flags.as_slice()) {
        Some(start) => {
            let graph = graph_of(alloc, a.states(), edges)?;
            add_way(alloc, &graph, edges, start, state, &mut stem)?;
            Ok(stem)
        }
        None => Ok(stem),
    }
}

/// One of these states that is flagged, or None where none is.
fn one_flagged(states: &[u32], flags: &[bool]) -> Option<u32>
    requires { All (λ p. p < length flags.now) states.now }
    ensures { MatchOption result (All (λ p. slice_index_or flags.now p false ≡ false) states.now) (λ p. Contains states.now p × (slice_index_or flags.now p false ≡ true)) }
{
    'states: for state in states {
        if flags[*state as usize] {
            return Some(*state);
        }
    }
    None
}

/// For each state whether it reaches this one.
fn reaching(alloc: Global, states: u32, edges: &[EdgeRef], state: u32) -> Result<Flags, Memory>
    requires ends { All (λ e. (e.from < states) × (e.to < states)) edges.now }
    requires state { state < states }
    ensures size { IfOk result (λ flags. length flags ≡ states) }
    ensures exact { IfOk result (λ flags. (p : ℕ) → p < states → IsTrue (slice_index_or flags p false) ↔ Reaches (map arc_of edges.now) p state) }
{
    let mut from = Numbers::new(alloc);
    from.push(state)?;
    reach(alloc, &backward_graph_of(alloc, states, edges)?, &from)
}

/// For each of the edges a letter that satisfies its label.
fn letters_along(alloc: Global, a: &Automaton, edges: &[EdgeRef]) -> Result<Letters, Memory>
    requires { All (IsPassable a.now) edges.now }
    ensures { IfOk result (AreLettersOf a.now edges.now) }
{
    let mut letters = Letters::new(alloc);
    'edges: for edge in edges {
        letters.push(letter_on(alloc, a, *edge)?)?;
    }
    Ok(letters)
}

/// A letter that satisfies the label of an edge.
fn letter_on(alloc: Global, a: &Automaton, edge: EdgeRef) -> Result<Letter, Memory>
    requires { IsPassable a.now edge }
    ensures { IfOk result (IsLetterOf a.now edge) }
{
    a.well_formedness();
    let guard = a.links()[edge.link].guard;
    match a.guards().pick(alloc, a.names(), guard)? {
        Some(letter) => Ok(letter),
        None => Ok(Letter::new(alloc)),
    }
}
