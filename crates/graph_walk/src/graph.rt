//! Directed graphs.

use aut_base::Arcs;

/// A directed graph. Its nodes are the numbers below `nodes`; an arc is its tail and its head, and may occur more than once.
#[derive(Debug, Drop)]
pub struct Graph {
    pub nodes: u32,
    pub arcs: Arcs,
}
