//! Whether a description is well formed.

ghost use Rattle.std.specs.Prelude.{◌≢◌, ℕ, ◌<◌, ◌≤◌, ◌↔◌, IsTrue, All, AllPairs, length, map};
ghost use Rattle.std.specs.List.Sorted.{IsNonDecreasing};
ghost use Rattle.aut_base.specs.Automaton.{labelled_edge, automaton, IsEdgeOf, IsWellFormed};
ghost use Rattle.aut_base.specs.inner.Distinct.{DiffersFromEarlier};

use crate::{Description, Edge};

impl Description {
    // Why so: 'Well-formed is decided and not a rule of the type' in docs/DECISIONS.md.
    /// Whether starts are distinct, edges are in the order of the states that they leave, and every number is in
    /// range. That names differ and marks increase is ensured by their types. Takes time in proportion to the size of the description,
    /// and to the square of the number of starts.
    #[tactic(auto, using(crate::proofs::order::WellFormed::well_formed))]
    pub fn is_well_formed(&self) -> bool
        ensures { IsTrue result ↔ IsWellFormed (automaton self.now) }
    {
        let _names = self.names.as_slice();
        let starts = self.starts.as_slice();
        let edges = self.edges.as_slice();
        are_states(starts, self.states)
            && are_distinct(starts)
            && are_in_order(edges)
            && are_edges(self, edges)
            && self.formula.is_below(self.sets)
    }
}

fn are_states(starts: &[u32], states: u32) -> bool
    ensures { IsTrue result ↔ All (λ p. p < states) starts.now }
{
    starts.iter().all(|start| *start < states)
}

fn are_distinct(starts: &[u32]) -> bool
    ensures { IsTrue result ↔ AllPairs (λ p q. p ≢ q) starts.now }
{
    'starts: for i in 0..starts.len() {
        if !is_new(starts, i) {
            return false;
        }
    }
    true
}

/// Whether the start at this index differs from those before it.
fn is_new(starts: &[u32], i: usize) -> bool
    requires { i < length starts.now }
    ensures { IsTrue result ↔ DiffersFromEarlier starts.now i }
{
    'starts: for k in 0..i {
        if starts[k] == starts[i] {
            return false;
        }
    }
    true
}

fn are_in_order(edges: &[Edge]) -> bool
    ensures { IsTrue result ↔ IsNonDecreasing (map (λ e. e.from) (map labelled_edge edges.now)) }
{
    'edges: for i in 1..edges.len() {
        if edges[i].from < edges[i - 1].from {
            return false;
        }
    }
    true
}

fn are_edges(description: &Description, edges: &[Edge]) -> bool
    ensures { IsTrue result ↔ All (IsEdgeOf (automaton description.now)) (map labelled_edge edges.now) }
{
    'edges: for edge in edges {
        if !is_edge(description, edge) {
            return false;
        }
    }
    true
}

fn is_edge(description: &Description, edge: &Edge) -> bool
    ensures { IsTrue result ↔ IsEdgeOf (automaton description.now) (labelled_edge edge.now) }
{
    edge.from < description.states
        && edge.to < description.states
        && edge.label.is_below(description.names.len())
        && edge.marks.are_below(description.sets)
}
