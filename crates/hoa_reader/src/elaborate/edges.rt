//! The edges of the described automaton.

ghost use Rattle.std.specs.Prelude.{◌≡◌, ◌<◌, ◌==◌, ◌++◌, ℕ, None, Some, true, get_or, length, map, slice_set, IfOk, OnOk};
ghost use Rattle.std.specs.List.{list_all};
ghost use Rattle.std.specs.Option.{option_map};
ghost use Rattle.aut_base.specs.Automaton.{labelled_edge};
ghost use Rattle.aut_base.specs.Label.{label_tree};
ghost use Rattle.hoa_reader.specs.inner.Numbers.{marks_in_order};
ghost use Rattle.hoa_reader.specs.inner.TreeEdges.{HasKnown, IsPlace, tree_edge_for, tree_edges_for, edges_for, label_for, label_written};
ghost use Rattle.hoa_reader.specs.inner.PickedOut.{label_refs, numbers};
ghost use Rattle.hoa_parser.specs.Raw.{written_edge, written_state};
ghost use Rattle.hoa_reader.specs.Validity.{all_differ, marks_below, numbers_below};

use crate::elaborate::aliases::Known;
use crate::elaborate::labels::{expand, letter_label};
use crate::elaborate::marks::marks_of_both;
use crate::elaborate::parts::AliasDef;
use crate::elaborate::places::Places;
use crate::elaborate::starts::only_state;
use aut_base::{Edge, Edges, Label, Marks, Memory};
use hoa_parser::{RawEdge, RawLabel, RawState};
use std::alloc::Global;

/// What all edges share: the numbers of names, of sets and of edges, and the aliases with what is known of each.
#[derive(Drop)]
pub(crate) struct Shared<'a> {
    pub(crate) names: u32,
    pub(crate) sets: u32,
    pub(crate) edges: usize,
    pub(crate) defs: Vec<AliasDef<'a>>,
    pub(crate) known: Places<'a, Known>,
}

/// The label that is written for an edge of this state: the state's if it has one, else the edge's own.
#[inline]
pub(crate) fn label_written<'a>(state: &'a RawState, edge: &'a RawEdge) -> Option<&'a RawLabel>
    ensures { option_map label_refs result ≡ label_written (written_state state.now) (written_edge edge.now) }
{
    match &state.label {
        Some(label) => Some(label),
        None => edge.label.as_ref(),
    }
}

/// The label of the edge that stands at this place in its state.
#[inline]
pub(crate) fn label_of<'a>(
    alloc: Global,
    shared: &Shared<'a>,
    state: &'a RawState,
    edge: &'a RawEdge,
    letter: u64,
) -> Result<Label, Memory>
    requires { HasKnown shared.now }
    ensures { IfOk result (λ new. label_tree new ≡ label_for shared.now (written_state state.now) letter (written_edge edge.now)) }
{
    match label_written(state, edge) {
        Some(label) => expand(alloc, label, &shared.defs, &shared.known),
        None => letter_label(alloc, shared.names, letter),
    }
}

/// The acceptance sets of an edge of this state: the state's and its own.
#[inline]
pub(crate) fn marks_of(
    alloc: Global,
    sets: u32,
    state: &RawState,
    edge: &RawEdge,
) -> Result<Marks, Memory>
    requires own { numbers_below sets state.now.marks ≡ true }
    requires marks { numbers_below sets edge.now.ends.marks ≡ true }
    ensures { IfOk result (λ all. all ≡ marks_in_order sets (state.now.marks ++ edge.now.ends.marks)) }
{
    let own = state.marks.as_slice();
    marks_of_both(alloc, sets, own, edge.ends.marks())
}

/// The edge that stands at this place in its state.
fn edge_of<'a>(
    alloc: Global,
    shared: &Shared<'a>,
    state: &'a RawState,
    edge: &'a RawEdge,
    letter: u64,
) -> Result<Edge, Memory>
    requires known { HasKnown shared.now }
    requires own { numbers_below shared.now.sets state.now.marks ≡ true }
    requires marks { numbers_below shared.now.sets edge.now.ends.marks ≡ true }
    ensures { IfOk result (λ new. labelled_edge new ≡ tree_edge_for shared.now (written_state state.now) letter (written_edge edge.now)) }
{
    Ok(Edge {
        from: state.number,
        label: label_of(alloc, shared, state, edge, letter)?,
        to: only_state(edge.ends.to()),
        marks: marks_of(alloc, shared.sets, state, edge)?,
    })
}

/// Adds the edges of the state.
fn add_edges<'a>(
    alloc: Global,
    edges: &mut Edges,
    shared: &Shared<'a>,
    state: &'a RawState,
) -> Result<(), Memory>
    requires known { HasKnown shared.now }
    requires marks { marks_below shared.now.sets (written_state state.now) ≡ true }
    ensures { OnOk result (map labelled_edge edges.new ≡ map labelled_edge edges.old ++ tree_edges_for shared.now (written_state state.now)) }
{
    let mut letter = 0;
    'written: for edge in state.edges.as_slice() {
        let new = edge_of(alloc, shared, state, edge, letter)?;
        edges.push(new)?;
        letter += 1;
    }
    Ok(())
}

/// Says that the state of this number is defined at this place. A number past the end is passed over.
fn put(places: &mut Vec<Option<usize>>, number: usize, place: usize)
    ensures { places.new.items ≡ slice_set places.old.items number (Some place) }
{
    if number < places.len() {
        places[number] = Some(place);
    }
}

/// Where each state is defined, if it is.
pub(crate) fn places_of(
    alloc: Global,
    states: &[RawState],
    count: u32,
) -> Result<Vec<Option<usize>>, Memory>
    requires { all_differ ◌==◌ (numbers (map written_state states.now)) ≡ true }
    ensures len { IfOk result (λ places. length places.items ≡ count) }
    ensures place { IfOk result (λ places. (q : ℕ) → q < count → IsPlace (map written_state states.now) q (get_or places.items q None)) }
{
    let mut places: Vec<Option<usize>> = vec![in alloc; None; count as usize]?;
    let mut place = 0;
    'states: for state in states {
        put(&mut places, state.number as usize, place);
        place += 1;
    }
    Ok(places)
}

/// The edges, in the order of the states that they leave.
pub(crate) fn edges_of<'a>(
    alloc: Global,
    shared: &Shared<'a>,
    states: &'a [RawState],
    count: u32,
) -> Result<Edges, Memory>
    requires known { HasKnown shared.now }
    requires differ { all_differ ◌==◌ (numbers (map written_state states.now)) ≡ true }
    requires marks { list_all (marks_below shared.now.sets) (map written_state states.now) ≡ true }
    ensures { IfOk result (λ edges. map labelled_edge edges ≡ edges_for shared.now (map written_state states.now) count) }
{
    let places = places_of(alloc, states, count)?;
    let mut edges = Edges::from_vec(Vec::with_capacity(alloc, shared.edges)?);
    'numbers: for number in 0..places.len() {
        let Some(place) = places[number] else {
            continue;
        };
        add_edges(alloc, &mut edges, shared, &states[place])?;
    }
    Ok(edges)
}
