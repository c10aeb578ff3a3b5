//! Graphs by their arcs.

ghost use Rattle.std.specs.Prelude.{◌≡◌, IfOk};
ghost use Rattle.graph_walk.specs.Walk.{HasNodes};

use crate::words::digit;
use aut_base::{Arcs, Memory};
use graph_walk::Graph;
use std::alloc::Global;

/// What the arcs of a graph are.
#[derive(Clone, Copy)]
pub(crate) enum Source<'a> {
    /// Words with a space between any two: each arc is its tail, a digit, `>` and its head, and `-` is none.
    Written(&'a str),
    /// Bits: the bit 3 p + q says whether there is an arc from p to q, of three nodes.
    Bits(u16),
    /// Each node but the first has an arc from the one before it.
    Line,
    /// The same, and the first has one from the last.
    Ring,
    /// Each even node has one from the even node before it, and each odd one from the node before it.
    Comb,
}

/// In place of an arc, where there is none.
const NO_ARC: (u32, u32) = (u32::MAX, u32::MAX);

/// The graph of these arcs. An arc with an end that is no node is left out.
pub(crate) fn graph(alloc: Global, nodes: u32, source: Source) -> Result<Graph, Memory>
    ensures nodes { IfOk result (λ graph. graph.nodes ≡ nodes) }
    ensures arcs { IfOk result (λ graph. HasNodes nodes graph.arcs) }
{
    let mut arcs = Arcs::new(alloc);
    'arcs: for place in 0..source.places(nodes) {
        let (tail, head) = source.arc(nodes, place);
        if tail < nodes && head < nodes {
            arcs.push((tail, head))?;
        }
    }
    Ok(Graph { nodes, arcs })
}

impl Source<'_> {
    /// A number which all places of arcs are below.
    fn places(self, nodes: u32) -> u32 {
        match self {
            Source::Written(words) => words.len().min(1000) as u32,
            Source::Bits(_) => 9,
            Source::Line | Source::Ring | Source::Comb => nodes,
        }
    }

    /// The arc at a place.
    fn arc(self, nodes: u32, place: u32) -> (u32, u32) {
        match self {
            Source::Written(words) => written(words.as_bytes(), place),
            Source::Bits(bits) if bits.wrapping_shr(place) % 2 == 1 => (place / 3, place % 3),
            Source::Bits(_) => NO_ARC,
            Source::Ring if place == 0 => (nodes.wrapping_sub(1), 0),
            Source::Line | Source::Ring => (place.wrapping_sub(1), place),
            Source::Comb => (place.wrapping_sub(2 - place % 2), place),
        }
    }
}

/// The arc at a place, where each one and the space after it are four bytes.
fn written(words: &[u8], place: u32) -> (u32, u32) {
    let first = (place as usize).saturating_mul(4);
    (node(words, first), node(words, first.saturating_add(2)))
}

/// The node that is the digit at an index, or else a number that is no node.
fn node(words: &[u8], index: usize) -> u32 {
    match words.get(index) {
        Some(byte) => digit(*byte).unwrap_or(u32::MAX),
        None => u32::MAX,
    }
}
