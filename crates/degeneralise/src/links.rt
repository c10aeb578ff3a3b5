//! The edges of the automaton with counters.

ghost use Rattle.std.specs.Prelude.{◌≡◌, ◌*◌, ◌+◌, ◌<◌, ◌≤◌, ◌^◌, All, IfOk, OnOk, flat_map, length, map};
ghost use Rattle.std.specs.List.{range_with_len};
ghost use Rattle.aut_base.specs.Automaton.{LabelledEdge};
ghost use Rattle.aut_core.specs.SymbolicAutomata.{IsLinkOf, edge_of};
ghost use Rattle.aut_core.specs.Surveys.{edges_from};
ghost use Rattle.label_guards.specs.Store.{Has};
ghost use Rattle.fin_removal.specs.inner.Links.{AddsLinks};
ghost use Rattle.degeneralise.specs.Buchi.{edge_at_level, level_after, level_edges, levels, marks_at_level, watch_of};
ghost use Rattle.degeneralise.specs.inner.Parts.{state_at};

use crate::levels::{level_after, levels, marks_at};
use crate::watches::{Watch, Watches, watch_of};
use aut_base::{Memory, Numbers};
use aut_core::{Automaton, Link, Links};
use std::alloc::Global;

/// The edges of the automaton with a counter of k levels at each state, where each copy has `states` states.
pub(crate) fn levelled_links(
    alloc: Global,
    a: &Automaton,
    states: u32,
    watches: &Watches,
    k: usize,
) -> Result<Links, Memory>
    requires copies { a.now.states ≤ states * length watches.now }
    requires room { All (λ watch. levels watch ≤ k) watches.now }
    requires fit { a.now.states * k < 2 ^ 32 }
    ensures has { IfOk result (All (λ l. Has a.now.store l.guard)) }
    ensures edges { IfOk result (λ links. map (edge_of a.now.store) links
        ≡ flat_map (λ state. level_edges k (edges_from state (map (edge_of a.now.store) a.now.links)) (watch_of states watches.now state)) (range_with_len 0 a.now.states)) }
{
    let mut links = Links::new(alloc);
    'states: for state in 0..a.states() {
        push_state(
            alloc,
            &mut links,
            a,
            watch_of(watches, states, state),
            k,
            state,
        )?;
    }
    Ok(links)
}

/// Adds the edges that leave the levels of one state.
fn push_state(
    alloc: Global,
    links: &mut Links,
    a: &Automaton,
    watch: &Watch,
    k: usize,
    state: u32,
) -> Result<(), Memory>
    requires state { state < a.now.states }
    requires room { levels watch.now ≤ k }
    requires fit { a.now.states * k < 2 ^ 32 }
    ensures { OnOk result (AddsLinks a.now.store links.old links.new (level_edges k (edges_from state (map (edge_of a.now.store) a.now.links)) watch.now)) }
{
    'levels: for level in 0..levels(watch) {
        push_level(alloc, links, a, watch, k, state, level)?;
    }
    Ok(())
}

/// Adds the edges that leave one level.
fn push_level(
    alloc: Global,
    links: &mut Links,
    a: &Automaton,
    watch: &Watch,
    k: usize,
    state: u32,
    level: usize,
) -> Result<(), Memory>
    requires state { state < a.now.states }
    requires room { levels watch.now ≤ k }
    requires level { level < levels watch.now }
    requires fit { a.now.states * k < 2 ^ 32 }
    ensures { OnOk result (AddsLinks a.now.store links.old links.new (map (edge_at_level k watch.now level) (edges_from state (map (edge_of a.now.store) a.now.links)))) }
{
    a.well_formedness();
    'links: for link in a.links_of(state) {
        let at_level = link_at(alloc, link, watch, k, level)?;
        links.push(at_level)?;
    }
    Ok(())
}

/// The edge from its source at this level.
fn link_at(
    alloc: Global,
    link: &Link,
    watch: &Watch,
    k: usize,
    level: usize,
) -> Result<Link, Memory>
    requires from { link.now.from * k + k < 2 ^ 32 }
    requires to { link.now.to * k + k < 2 ^ 32 }
    requires room { levels watch.now ≤ k }
    requires level { level < levels watch.now }
    ensures guard { IfOk result (λ made. made.guard ≡ link.now.guard) }
    ensures from { IfOk result (λ made. made.from ≡ state_at k link.now.from level) }
    ensures to { IfOk result (λ made. made.to ≡ state_at k link.now.to (level_after watch.now level link.now.marks)) }
    ensures marks { IfOk result (λ made. made.marks ≡ marks_at_level watch.now level link.now.marks) }
{
    let next = level_after(watch, level, &link.marks);
    Ok(Link {
        from: (link.from as usize * k + level) as u32,
        guard: link.guard,
        to: (link.to as usize * k + next) as u32,
        marks: marks_at(alloc, watch, level, &link.marks)?,
    })
}

/// The starts at level 0.
pub(crate) fn first_levels(alloc: Global, starts: &Numbers, k: usize) -> Result<Numbers, Memory>
    requires { All (λ start. start * k < 2 ^ 32) starts.now }
    ensures { IfOk result (λ found. found ≡ map (λ start. state_at k start 0) starts.now) }
{
    let mut found = Numbers::new(alloc);
    'starts: for start in starts.as_slice() {
        found.push((*start as usize * k) as u32)?;
    }
    Ok(found)
}
