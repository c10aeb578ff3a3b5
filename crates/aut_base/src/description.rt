//! The automaton that a text describes.

use crate::{Formula, Label, Marks, Names, Numbers, Seq};

/// Edges, in order.
pub type Edges = Seq<Edge>;

/// An edge under a label, with the acceptance sets that it belongs to.
#[derive(Debug, Drop)]
pub struct Edge {
    pub from: u32,
    pub label: Label,
    pub to: u32,
    pub marks: Marks,
}

/// A transition-based omega-automaton with an Emerson-Lei condition.
#[derive(Debug, Drop)]
pub struct Description {
    /// The names of the atomic propositions; a label refers to a proposition by its index in this list.
    pub names: Names,
    pub starts: Numbers,
    /// The number of states, which are the numbers below it.
    pub states: u32,
    pub edges: Edges,
    /// The number of acceptance sets, which are the numbers below it.
    pub sets: u32,
    pub formula: Formula,
}
