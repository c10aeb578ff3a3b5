//! Whether labels are implicit at every state (HOA v1, implicit labels).

ghost use Rattle.std.specs.Prelude.{◌≡◌, IsTrue, is_none, map};
ghost use Rattle.std.specs.List.{list_all};
ghost use Rattle.hoa_parser.specs.Raw.{written_edge, written_state};
ghost use Rattle.hoa_reader.specs.inner.Implicit.{AreImplicit, each_implicit, is_implicit};

use crate::elaborate::rules::is_power;
use hoa_parser::{RawEdge, RawState};

/// Whether the states are as many, in order, and each has an edge for each letter over so many names, and no label.
pub(crate) fn are_implicit(states: &[RawState], count: u32, names: u32) -> bool
    ensures { IsTrue result → AreImplicit names count (map written_state states.now) }
{
    states.len() == count as usize && each_implicit(states, names as usize)
}

/// Whether each state stands at its number, and has an edge for each letter over so many names, and no label.
fn each_implicit(states: &[RawState], names: usize) -> bool
    ensures { result ≡ each_implicit names 0 (map written_state states.now) }
{
    let mut number = 0;
    'states: for state in states {
        if state.number as usize != number || !is_implicit(state, names) {
            return false;
        }
        number += 1;
    }
    true
}

/// Whether the state has an edge for each letter over so many names, and no label.
fn is_implicit(state: &RawState, names: usize) -> bool
    ensures { result ≡ is_implicit names (written_state state.now) }
{
    let edges = state.edges.as_slice();
    (state.label.is_none() && none_labelled(edges)) && is_power(edges.len(), names)
}

/// Whether none of these edges has a label.
fn none_labelled(edges: &[RawEdge]) -> bool
    ensures { result ≡ list_all (λ e. is_none e.label) (map written_edge edges.now) }
{
    'edges: for edge in edges {
        if edge.label.is_some() {
            return false;
        }
    }
    true
}
