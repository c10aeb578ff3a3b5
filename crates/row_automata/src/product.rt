//! Acceptance of lasso words, decided by an accepting cycle in the product of the automaton and the word.

use crate::words::Word;
use aut_base::{Formula, Marks, Memory, Names};
use aut_core::{Automaton, Link};
use std::alloc::Global;

/// The most nodes of a product: their sets are bits of a word.
const MOST_NODES: usize = 128;

/// An edge of the product: its nodes, and the bits of its sets, of which there are at most two.
#[derive(Clone, Copy)]
struct Arc {
    from: usize,
    to: usize,
    sets: u32,
}

/// Whether the automaton, over some of the names `a` and `b`, accepts the word. Refused where it has more than two sets, or the
/// product is too large.
pub fn accepts(alloc: Global, a: &Automaton, word: &Word) -> Result<bool, Memory> {
    if a.sets() > 2 || node(a.states() as usize, word.len(), 0) > MOST_NODES {
        return Err(Memory);
    }
    let mut arcs = Vec::new(alloc);
    add_arcs(&mut arcs, a, word)?;
    has_cycle(alloc, a, word, &arcs)
}

/// Whether some cycle of the product that is reached meets the condition.
fn has_cycle(alloc: Global, a: &Automaton, word: &Word, arcs: &[Arc]) -> Result<bool, Memory> {
    let reached = reached(a, word.len(), arcs);
    // Each cycle of the product has a node at the position where the word's cycle begins.
    for state in 0..a.states() as usize {
        let node = node(state, word.len(), word.stem.len());
        if has(reached, node) && closes(alloc, a.formula(), arcs, node)? {
            return Ok(true);
        }
    }
    Ok(false)
}

/// The node of a state and a position in a word of this length.
fn node(state: usize, length: usize, place: usize) -> usize {
    state.saturating_mul(length).saturating_add(place)
}

/// The set of this node alone.
fn only(node: usize) -> u128 {
    1u128 << node.min(127) as u32
}

fn has(nodes: u128, node: usize) -> bool {
    nodes & only(node) != 0
}

/// The nodes that are reached from those of the starts at the first position.
fn reached(a: &Automaton, length: usize, arcs: &[Arc]) -> u128 {
    let mut starts = 0;
    for start in a.starts().as_slice() {
        starts |= only(node(*start as usize, length, 0));
    }
    spread(starts, arcs, u32::MAX, true)
}

/// Whether a cycle through the node meets the condition. It depends on the kinds of the cycle's edges alone, and all edges of such
/// kinds between nodes that are on cycles of them through the node make one cycle too.
fn closes(alloc: Global, formula: &Formula, arcs: &[Arc], node: usize) -> Result<bool, Memory> {
    for kinds in 1..16u32 {
        if is_met(alloc, formula, cycle(arcs, node, kinds))? {
            return Ok(true);
        }
    }
    Ok(false)
}

/// Which sets the edges of these kinds have that are on cycles of such edges through the node: a bit for each set of sets.
fn cycle(arcs: &[Arc], node: usize, kinds: u32) -> u32 {
    let ahead = spread(only(node), arcs, kinds, true);
    let behind = spread(only(node), arcs, kinds, false);
    let mut found = 0;
    for arc in arcs {
        if arc.is_within(kinds) && has(ahead, arc.from) && has(behind, arc.to) {
            found |= 1u32 << arc.sets.min(3);
        }
    }
    found
}

/// Whether a cycle of edges that have these sets of sets meets the condition. Where there are none, there is no cycle.
fn is_met(alloc: Global, formula: &Formula, found: u32) -> Result<bool, Memory> {
    let mut cycle = Vec::new(alloc);
    for sets in 0..4u32 {
        if found >> sets & 1 == 1 {
            cycle.push(listed(alloc, sets)?)?;
        }
    }
    Ok(!cycle.is_empty() && formula.met_by(&cycle))
}

/// The marks of at most two sets.
fn listed(alloc: Global, sets: u32) -> Result<Marks, Memory> {
    let mut marks = Marks::new(alloc);
    if sets & 1 == 0 {
        if sets & 2 != 0 {
            marks.push(1)?;
        }
        return Ok(marks);
    }
    marks.push(0)?;
    if sets & 2 != 0 {
        marks.push(1)?;
    }
    Ok(marks)
}

impl Arc {
    /// Whether each set that the edge is in is among these kinds, and, two bits further, each set that it isn't in.
    fn is_within(&self, kinds: u32) -> bool {
        (self.sets | (3 - self.sets.min(3)) << 2) & !kinds == 0
    }
}

/// All nodes that are reached from these by edges of these kinds, or, backwards, all that reach these.
fn spread(nodes: u128, arcs: &[Arc], kinds: u32, is_ahead: bool) -> u128 {
    let mut all = nodes;
    for _ in 0..MOST_NODES {
        let more = grown(all, arcs, kinds, is_ahead);
        if more == all {
            break;
        }
        all = more;
    }
    all
}

/// These nodes and those that edges lead to from them, some of which may follow each other.
fn grown(nodes: u128, arcs: &[Arc], kinds: u32, is_ahead: bool) -> u128 {
    let mut all = nodes;
    for arc in arcs {
        let (begin, end) = if is_ahead {
            (arc.from, arc.to)
        } else {
            (arc.to, arc.from)
        };
        if arc.is_within(kinds) && has(all, begin) {
            all |= only(end);
        }
    }
    all
}

/// Adds the edges of the product. Its nodes are pairs of a state and a position in the word.
fn add_arcs(arcs: &mut Vec<Arc>, a: &Automaton, word: &Word) -> Result<(), Memory> {
    for place in 0..word.len() {
        for link in a.links() {
            if is_open(a, link, word.at(place)) {
                arcs.push(arc_at(link, word, place))?;
            }
        }
    }
    Ok(())
}

/// Whether the label of an edge holds at one of the letters whose bits are set.
fn is_open(a: &Automaton, link: &Link, letters: u32) -> bool {
    for letter in 0..4u32 {
        if letters >> letter & 1 == 1 && holds(a, link, letter) {
            return true;
        }
    }
    false
}

/// Whether the label of an edge holds at the letter of a number, whose bits are of `a` and of `b`.
fn holds(a: &Automaton, link: &Link, letter: u32) -> bool {
    a.guards().has(link.guard) && a.guards().holds_at(link.guard, truths(a.names(), letter))
}

/// The truths of the names, as bits in their order.
fn truths(names: &Names, letter: u32) -> u64 {
    let mut truths = 0u64;
    let mut bit = 1u64;
    for name in names.as_slice() {
        let names = match name.as_bytes() {
            b"a" => 1,
            b"b" => 2,
            _ => 0,
        };
        if letter & names != 0 {
            truths |= bit;
        }
        bit = bit.wrapping_mul(2);
    }
    truths
}

/// The edge of the product from this position.
fn arc_at(link: &Link, word: &Word, place: usize) -> Arc {
    let length = word.len();
    let after = place.saturating_add(1);
    let next = if after < length {
        after
    } else {
        word.stem.len()
    };
    Arc {
        from: node(link.from as usize, length, place),
        to: node(link.to as usize, length, next),
        sets: u32::from(link.marks.has(0)) | u32::from(link.marks.has(1)) << 1,
    }
}
