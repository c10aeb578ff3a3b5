//! The edges of the described automaton, with guards in place of labels.

ghost use Rattle.std.specs.Prelude.{◌≡◌, ◌+◌, ◌<◌, ◌^◌, ◌==◌, All, true, flat_map, length, map, IfOk, OnOk};
ghost use Rattle.std.specs.List.{AllByRecursion, list_all};
ghost use Rattle.aut_base.specs.CanonicalLabel.{canonical_label};
ghost use Rattle.aut_base.specs.Label.{AllBelow};
ghost use Rattle.aut_core.specs.SymbolicAutomata.{edge_of};
ghost use Rattle.hoa_parser.specs.Raw.{WrittenState, written_edge, written_state};
ghost use Rattle.hoa_reader.specs.Validity.{all_differ, marks_below, numbers_below};
ghost use Rattle.hoa_reader.specs.inner.Links.{AreAdded, AreLinked, CanBeLinked};
ghost use Rattle.hoa_reader.specs.inner.PickedOut.{numbers};
ghost use Rattle.hoa_reader.specs.inner.Rising.{rises_from};
ghost use Rattle.hoa_reader.specs.inner.TreeEdges.{HasKnown, HasLabelsBelow, edges_for, label_for, settled, tree_edge_for, tree_edges_at, tree_edges_for};
ghost use Rattle.label_guards.specs.Store.{Has, Keeps, label_in};

use crate::elaborate::blocks::{BLOCK, Blocks};
use crate::elaborate::edges::{Shared, label_written, marks_of, places_of};
use crate::elaborate::starts::only_state;
use crate::elaborate::written::guard_written;
use aut_base::Memory;
use aut_core::{Link, Links};
use hoa_parser::{RawEdge, RawEdges, RawState, RawStates};
use label_guards::{Guard, Guards};
use std::alloc::Global;

/// The guard of the edge that stands at this place in its state. Where no label is written it is made from the letter's number.
fn guard_of(
    alloc: Global,
    guards: &mut Guards,
    shared: &Shared<'_>,
    state: &RawState,
    edge: &RawEdge,
    letter: u64,
) -> Result<Guard, Memory>
    requires known { HasKnown shared.now }
    requires names { guards.old.names ≡ shared.now.names }
    requires below { AllBelow guards.old.names (label_for shared.now (written_state state.now) letter (written_edge edge.now)) }
    ensures keeps { Keeps guards.old guards.new }
    ensures has { IfOk result (Has guards.new) }
    ensures label { IfOk result (λ new. label_in guards.new new ≡ canonical_label guards.old.names (label_for shared.now (written_state state.now) letter (written_edge edge.now))) }
{
    match label_written(state, edge) {
        Some(label) => guard_written(guards, shared, label),
        None => guards.of_letter(alloc, letter),
    }
}

/// The edge that stands at this place in its state, under its guard.
fn link_of(
    alloc: Global,
    guards: &mut Guards,
    shared: &Shared<'_>,
    state: &RawState,
    edge: &RawEdge,
    letter: u64,
) -> Result<Link, Memory>
    requires known { HasKnown shared.now }
    requires names { guards.old.names ≡ shared.now.names }
    requires below { AllBelow guards.old.names (label_for shared.now (written_state state.now) letter (written_edge edge.now)) }
    requires own { numbers_below shared.now.sets state.now.marks ≡ true }
    requires marks { numbers_below shared.now.sets edge.now.ends.marks ≡ true }
    ensures keeps { Keeps guards.old guards.new }
    ensures has { IfOk result (λ new. Has guards.new new.guard) }
    ensures edge { IfOk result (λ new. edge_of guards.new new ≡ settled guards.old.names (tree_edge_for shared.now (written_state state.now) letter (written_edge edge.now))) }
{
    Ok(Link {
        from: state.number,
        guard: guard_of(alloc, guards, shared, state, edge, letter)?,
        to: only_state(edge.ends.to()),
        marks: marks_of(alloc, shared.sets, state, edge)?,
    })
}

/// Adds some edges of the state. The first of them has this place in it.
fn add_some(
    alloc: Global,
    guards: &mut Guards,
    links: &mut Links,
    shared: &Shared<'_>,
    state: &RawState,
    edges: &[RawEdge],
    first: u64,
) -> Result<(), Memory>
    requires known { HasKnown shared.now }
    requires names { guards.old.names ≡ shared.now.names }
    requires few { first + length edges.now < 2 ^ 64 }
    requires own { numbers_below shared.now.sets state.now.marks ≡ true }
    requires marks { list_all (λ e. numbers_below shared.now.sets e.marks) (map written_edge edges.now) ≡ true }
    requires below { AllByRecursion (λ e. AllBelow guards.old.names e.label) (tree_edges_at shared.now (written_state state.now) first (map written_edge edges.now)) }
    requires has { All (λ l. Has guards.old l.guard) links.old }
    ensures names { guards.new.names ≡ guards.old.names }
    ensures stand { OnOk result (AreAdded (tree_edges_at shared.now (written_state state.now) first (map written_edge edges.now)) guards.old links.old guards.new links.new) }
{
    let mut letter = first;
    'written: for edge in edges {
        let new = link_of(alloc, guards, shared, state, edge, letter)?;
        links.push(new)?;
        letter += 1;
    }
    Ok(())
}

/// Adds the edges of the state.
fn add_links(
    alloc: Global,
    guards: &mut Guards,
    links: &mut Links,
    shared: &Shared<'_>,
    state: &RawState,
) -> Result<(), Memory>
    requires known { HasKnown shared.now }
    requires names { guards.old.names ≡ shared.now.names }
    requires marks { marks_below shared.now.sets (written_state state.now) ≡ true }
    requires below { HasLabelsBelow shared.now guards.old.names (written_state state.now) }
    requires has { All (λ l. Has guards.old l.guard) links.old }
    ensures names { guards.new.names ≡ guards.old.names }
    ensures stand { OnOk result (AreAdded (tree_edges_for shared.now (written_state state.now)) guards.old links.old guards.new links.new) }
{
    let edges = state.edges.as_slice();
    add_some(alloc, guards, links, shared, state, edges, 0)
}

/// The same, where they are many. Each block of them is let go once its links are made.
fn add_many(
    alloc: Global,
    guards: &mut Guards,
    links: &mut Links,
    shared: &Shared<'_>,
    state: RawState,
) -> Result<(), Memory>
    requires known { HasKnown shared.now }
    requires names { guards.old.names ≡ shared.now.names }
    requires marks { marks_below shared.now.sets (written_state state) ≡ true }
    requires below { HasLabelsBelow shared.now guards.old.names (written_state state) }
    requires has { All (λ l. Has guards.old l.guard) links.old }
    ensures names { guards.new.names ≡ guards.old.names }
    ensures stand { OnOk result (AreAdded (tree_edges_for shared.now (written_state state)) guards.old links.old guards.new links.new) }
{
    let head = RawState {
        label: state.label,
        number: state.number,
        marks: state.marks,
        edges: RawEdges::new(alloc),
    };
    // So that each letter is known to have a number.
    let _count = state.edges.len();
    let mut blocks = Blocks::new(alloc, state.edges.into_list()?)?;
    let mut first = 0;
    'left: while let Some(block) = blocks.next() {
        let edges = block.as_slice();
        add_some(alloc, guards, links, shared, &head, edges, first)?;
        first += edges.len() as u64;
    }
    Ok(())
}

/// Adds the edges of the states, in the order in which these stand.
fn add_all(
    alloc: Global,
    guards: &mut Guards,
    links: &mut Links,
    shared: &Shared<'_>,
    states: &[RawState],
) -> Result<(), Memory>
    requires linked { CanBeLinked shared.now guards.old.names (map written_state states.now) }
    requires has { All (λ l. Has guards.old l.guard) links.old }
    ensures names { guards.new.names ≡ guards.old.names }
    ensures stand { OnOk result (AreAdded (flat_map (tree_edges_for shared.now) (map written_state states.now)) guards.old links.old guards.new links.new) }
{
    'states: for state in states {
        add_links(alloc, guards, links, shared, state)?;
    }
    Ok(())
}

/// The edges of the states, in the order in which these stand. Each block of states is let go once its edges are made.
fn links_in_blocks(
    alloc: Global,
    guards: &mut Guards,
    shared: &Shared<'_>,
    states: RawStates,
) -> Result<Links, Memory>
    requires linked { CanBeLinked shared.now guards.old.names (map written_state states) }
    ensures names { guards.new.names ≡ guards.old.names }
    ensures stand { IfOk result (AreLinked guards.old.names (flat_map (tree_edges_for shared.now) (map written_state states)) guards.new) }
{
    let mut blocks = Blocks::new(alloc, states)?;
    let mut links = Links::from_vec(Vec::with_capacity(alloc, shared.edges)?);
    'left: while let Some(block) = blocks.next() {
        add_all(alloc, guards, &mut links, shared, block.as_slice())?;
    }
    Ok(links)
}

/// The same. Each state goes by itself, and of one with many edges each block of these.
fn links_one_by_one(
    alloc: Global,
    guards: &mut Guards,
    shared: &Shared<'_>,
    states: RawStates,
) -> Result<Links, Memory>
    requires linked { CanBeLinked shared.now guards.old.names (map written_state states) }
    ensures names { guards.new.names ≡ guards.old.names }
    ensures stand { IfOk result (AreLinked guards.old.names (flat_map (tree_edges_for shared.now) (map written_state states)) guards.new) }
{
    let mut links = Links::from_vec(Vec::with_capacity(alloc, shared.edges)?);
    'states: for state in states.into_vec() {
        add_many(alloc, guards, &mut links, shared, state)?;
    }
    Ok(links)
}

// Why so: 'What is written goes while edges grow' in docs/DECISIONS.md.
/// The edges of the states, in the order in which these stand. What is done with is let go.
fn links_in_turn(
    alloc: Global,
    guards: &mut Guards,
    shared: &Shared<'_>,
    states: RawStates,
) -> Result<Links, Memory>
    requires linked { CanBeLinked shared.now guards.old.names (map written_state states) }
    ensures names { guards.new.names ≡ guards.old.names }
    ensures stand { IfOk result (AreLinked guards.old.names (flat_map (tree_edges_for shared.now) (map written_state states)) guards.new) }
{
    if states.len() <= BLOCK && shared.edges > BLOCK {
        return links_one_by_one(alloc, guards, shared, states);
    }
    links_in_blocks(alloc, guards, shared, states)
}

/// The edges, in the order of the states that they leave. Numbers mostly rise, so that no place of a state is looked for.
pub(crate) fn links_of(
    alloc: Global,
    guards: &mut Guards,
    shared: &Shared<'_>,
    states: RawStates,
    count: u32,
    rising: bool,
) -> Result<Links, Memory>
    requires linked { CanBeLinked shared.now guards.old.names (map written_state states) }
    requires rising { rising ≡ rises_from 0 (numbers (map written_state states)) }
    requires differ { all_differ ◌==◌ (numbers (map written_state states)) ≡ true }
    requires within { AllByRecursion (λ (s : WrittenState). s.number < count) (map written_state states) }
    ensures names { guards.new.names ≡ guards.old.names }
    ensures stand { IfOk result (AreLinked guards.old.names (edges_for shared.now (map written_state states) count) guards.new) }
{
    if rising {
        return links_in_turn(alloc, guards, shared, states);
    }
    links_by_places(alloc, guards, shared, states.as_slice(), count)
}

/// The same, whatever order the states stand in.
fn links_by_places(
    alloc: Global,
    guards: &mut Guards,
    shared: &Shared<'_>,
    states: &[RawState],
    count: u32,
) -> Result<Links, Memory>
    requires linked { CanBeLinked shared.now guards.old.names (map written_state states.now) }
    requires differ { all_differ ◌==◌ (numbers (map written_state states.now)) ≡ true }
    ensures names { guards.new.names ≡ guards.old.names }
    ensures stand { IfOk result (AreLinked guards.old.names (edges_for shared.now (map written_state states.now) count) guards.new) }
{
    let places = places_of(alloc, states, count)?;
    let mut links = Links::from_vec(Vec::with_capacity(alloc, shared.edges)?);
    'numbers: for number in 0..places.len() {
        let Some(place) = places[number] else {
            continue;
        };
        add_links(alloc, guards, &mut links, shared, &states[place])?;
    }
    Ok(links)
}
