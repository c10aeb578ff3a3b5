//! What one pass over the body tells: of this most of the rules and limits speak.

ghost use Rattle.std.specs.Prelude.{◌≡◌, ◌==◌, ◌^◌, ◌||◌, map, not};
ghost use Rattle.hoa_parser.specs.Raw.{written_edge, written_state};
ghost use Rattle.hoa_reader.specs.inner.Sums.{beside, body_sums, edge_sums, edges_sums, nothing, state_sums};

use crate::elaborate::rules::is_power;
use crate::elaborate::shape::shape_in;
use crate::elaborate::used::after_numbers;
use hoa_parser::{RawEdge, RawState};

/// What edges or states tell.
#[derive(Clone, Copy)]
pub(crate) struct Sums {
    /// Whether each edge leads to one state.
    pub(crate) single: bool,
    /// The least number that is above every state that is named.
    pub(crate) after: u64,
    /// The least number that is above every proposition of a label.
    pub(crate) props: u64,
    /// Whether no alias stands in a label.
    pub(crate) plain: bool,
    /// The least number that is above every acceptance set.
    pub(crate) marks: u64,
    /// Whether each edge has a label, where edges tell this.
    pub(crate) labelled: bool,
    /// Whether none has, where edges tell this.
    pub(crate) bare: bool,
    /// Whether each state is labelled one way.
    pub(crate) one_way: bool,
    /// Whether each state has a label, no edges, or one for each letter.
    pub(crate) letters: bool,
    /// The number of edges of the states, at most `usize::MAX`.
    pub(crate) edges: usize,
    /// The height of the tallest label, where an alias counts as one sign.
    pub(crate) height: u64,
    /// What the labels of states count for their edges, at most `u64::MAX`, where an alias counts as one sign.
    pub(crate) weight: u64,
}

/// What is told where there is nothing.
#[inline]
fn nothing() -> Sums
    ensures { result ≡ nothing }
{
    Sums {
        single: true,
        after: 0,
        props: 0,
        plain: true,
        marks: 0,
        labelled: true,
        bare: true,
        one_way: true,
        letters: true,
        edges: 0,
        height: 0,
        weight: 0,
    }
}

/// What two tell together.
#[inline]
fn beside(one: Sums, other: Sums) -> Sums
    ensures { result ≡ beside one other }
{
    Sums {
        single: one.single && other.single,
        after: one.after.max(other.after),
        props: one.props.max(other.props),
        plain: one.plain && other.plain,
        marks: one.marks.max(other.marks),
        labelled: one.labelled && other.labelled,
        bare: one.bare && other.bare,
        one_way: one.one_way && other.one_way,
        letters: one.letters && other.letters,
        edges: one.edges.saturating_add(other.edges),
        height: one.height.max(other.height),
        weight: one.weight.saturating_add(other.weight),
    }
}

/// What an edge tells.
#[inline]
fn edge_sums(edge: &RawEdge) -> Sums
    ensures { result ≡ edge_sums (written_edge edge.now) }
{
    let label = shape_in(&edge.label);
    Sums {
        single: edge.ends.to().len() == 1,
        after: after_numbers(edge.ends.to(), 0),
        props: label.props,
        plain: label.plain,
        marks: after_numbers(edge.ends.marks(), 0),
        labelled: edge.label.is_some(),
        bare: edge.label.is_none(),
        one_way: true,
        letters: true,
        edges: 0,
        height: label.height,
        weight: 0,
    }
}

/// What these edges tell.
fn edges_sums(edges: &[RawEdge]) -> Sums
    ensures { result ≡ edges_sums (map written_edge edges.now) }
{
    let mut all = nothing();
    'edges: for edge in edges {
        all = beside(all, edge_sums(edge));
    }
    all
}

/// Whether so many edges without a label are none, or one for each letter over this many names.
#[inline]
fn are_letters(edges: usize, names: usize, bare: bool) -> bool
    ensures { result ≡ ((edges == 0) || ((edges == 2 ^ names) || not bare)) }
{
    edges == 0 || (!bare || is_power(edges, names))
}

/// What a state tells over so many names.
fn state_sums(state: &RawState, names: usize) -> Sums
    ensures { result ≡ state_sums names (written_state state.now) }
{
    let edges = edges_sums(state.edges.as_slice());
    let label = shape_in(&state.label);
    let count = state.edges.len();
    let own = state.label.is_none();
    Sums {
        single: edges.single,
        after: (u64::from(state.number) + 1).max(edges.after),
        props: label.props.max(edges.props),
        plain: label.plain && edges.plain,
        marks: after_numbers(state.marks.as_slice(), edges.marks),
        labelled: true,
        bare: true,
        one_way: edges.bare || (own && edges.labelled),
        letters: are_letters(count, names, own && edges.bare),
        edges: count,
        height: label.height.max(edges.height),
        weight: label.size.saturating_mul(count as u64),
    }
}

/// What these states tell over so many names.
pub(crate) fn body_sums(states: &[RawState], names: usize) -> Sums
    ensures { result ≡ body_sums names (map written_state states.now) }
{
    let mut all = nothing();
    'states: for state in states {
        all = beside(all, state_sums(state, names));
    }
    all
}
