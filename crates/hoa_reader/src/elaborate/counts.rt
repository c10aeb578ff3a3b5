//! What the limits count.

ghost use Rattle.std.specs.Prelude.{◌≡◌, ◌<◌, ◌+◌, nat_lt, map, MatchOption};
ghost use Rattle.std.specs.Option.{option_map, option_map_or};
ghost use Rattle.hoa_reader.specs.inner.Growing.{capped_size, sizes_in};
ghost use Rattle.hoa_reader.specs.inner.PickedOut.{label_refs};
ghost use Rattle.hoa_parser.specs.Raw.{WrittenState, written_edge, written_state};
ghost use Rattle.hoa_reader.specs.inner.Weighing.{are_tall, states_counted, edge_counted, own_counted, state_counted};

use crate::elaborate::aliases::{Known, growth_of};
use crate::elaborate::leaves::has_no_alias;
use crate::elaborate::places::Places;
use aut_base::MOST_ALIASES;
use hoa_parser::{RawEdge, RawLabel, RawState};

/// Whether one of the labels is taller than may be once its aliases are replaced.
pub(crate) fn are_tall<'a>(labels: &[&'a RawLabel], known: &Places<'a, Known>) -> bool
    ensures { result ≡ are_tall known.now (map label_refs labels.now) }
{
    'labels: for label in labels {
        let growth = growth_of(label, known);
        if growth.height > u64::from(MOST_ALIASES) {
            return true;
        }
    }
    false
}

/// What the label of an edge counts, where its state has none.
#[inline]
fn own_count<'a>(edge: &'a RawEdge, known: &Places<'a, Known>) -> u64
    ensures { result ≡ option_map_or (own_counted known.now) (written_edge edge.now).label 0 }
{
    let Some(label) = &edge.label else {
        return 0;
    };
    if has_no_alias(label) {
        return 0;
    }
    growth_of(label, known).size
}

/// What the label of the state counts for each of its edges.
fn state_weight<'a>(state: &'a RawState, known: &Places<'a, Known>) -> Option<u64>
    ensures { result ≡ option_map (capped_size (sizes_in known.now)) (written_state state.now).label }
{
    match &state.label {
        Some(label) => Some(growth_of(label, known).size),
        None => None,
    }
}

/// What the edge counts, where its state counts this for each.
#[inline]
fn edge_count<'a>(own: Option<u64>, edge: &'a RawEdge, known: &Places<'a, Known>) -> u64
    ensures { (s : WrittenState) → own ≡ option_map (capped_size (sizes_in known.now)) s.label → result ≡ edge_counted known.now s (written_edge edge.now) }
{
    match own {
        Some(count) => count,
        None => own_count(edge, known),
    }
}

/// What is left once the edges of the state are counted, or `None` exactly where they count more than this.
fn left_after<'a>(state: &'a RawState, known: &Places<'a, Known>, most: u64) -> Option<u64>
    ensures { MatchOption result (most < state_counted known.now (written_state state.now)) (λ left. left + state_counted known.now (written_state state.now) ≡ most) }
{
    let own = state_weight(state, known);
    let mut left = most;
    'edges: for edge in state.edges.as_slice() {
        let count = edge_count(own, edge, known);
        if count > left {
            return None;
        }
        left -= count;
    }
    Some(left)
}

// Why so: 'The label of a state weighs once for each edge' in docs/DECISIONS.md.
/// Whether the edges of these states count more than this.
pub(crate) fn are_heavy<'a>(states: &'a [RawState], known: &Places<'a, Known>, most: u64) -> bool
    ensures { result ≡ nat_lt most (states_counted known.now (map written_state states.now)) }
{
    let mut left = most;
    'states: for state in states {
        match left_after(state, known, left) {
            None => return true,
            Some(rest) => left = rest,
        }
    }
    false
}
