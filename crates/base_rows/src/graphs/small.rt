//! All graphs of three nodes, as numbers of nine bits: the bit 3 p + q says whether there is an arc from p to q.

ghost use Rattle.std.specs.Prelude.{◌≡◌, ◌<◌};
ghost use Rattle.graph_walk.specs.Walk.{HasNodes};

use crate::graphs::arcs::{Source, graph};
use crate::graphs::{length, reached};
use crate::words::take;
use aut_base::Memory;
use graph_walk::{Graph, components};
use row_files::{Count, Fault};
use std::alloc::Global;

/// For each pair of nodes, by the bits, whether the second is reached from the first.
type Matrix = u16;

/// Counts all graphs, and those on which the calls and the matrix differ.
pub(crate) fn count_all(rt: &HostRuntime, count: &mut Count) -> Result<(), Fault> {
    for bits in 0..512u16 {
        let is_right = agrees(rt.alloc(), bits)?;
        take(rt, count, is_right, "graph", (bits, bits))?;
    }
    Ok(())
}

/// Whether the calls agree with the powers of the graph's matrix.
fn agrees(alloc: Global, bits: u16) -> Result<bool, Memory> {
    let graph = graph(alloc, 3, Source::Bits(bits))?;
    // The matrix of the paths of at most one arc.
    let once = bits | 0b100_010_001;
    let twice = squared(once);
    let all = squared(twice);
    Ok(
        are_lengths(alloc, &graph, once, twice)?
            && are_reached(alloc, &graph, all)?
            && are_numbered(components(alloc, &graph)?.as_slice(), all),
    )
}

/// Whether the shortest path between any two nodes has the length that the matrices of at most one arc and of at most two say.
fn are_lengths(alloc: Global, graph: &Graph, once: Matrix, twice: Matrix) -> Result<bool, Memory>
    requires { HasNodes graph.now.nodes graph.now.arcs }
{
    for pair in 0..9u16 {
        let (p, q) = (u32::from(pair / 3), u32::from(pair % 3));
        if length(alloc, graph, p, q)? != wanted(once, twice, pair) {
            return Ok(false);
        }
    }
    Ok(true)
}

fn wanted(once: Matrix, twice: Matrix, pair: u16) -> Option<u64> {
    if pair % 4 == 0 {
        return Some(0);
    }
    if has(once, pair) {
        return Some(1);
    }
    has(twice, pair).then_some(2)
}

/// Whether each node reaches those that the matrix says.
fn are_reached(alloc: Global, graph: &Graph, matrix: Matrix) -> Result<bool, Memory>
    requires nodes { graph.now.nodes ≡ 3 }
    requires arcs { HasNodes 3 graph.now.arcs }
{
    'nodes: for p in 0..3u32 {
        if bits_of(reached(alloc, graph, p)?.as_slice()) != row(matrix, p) {
            return Ok(false);
        }
    }
    Ok(true)
}

/// Three truths as bits.
fn bits_of(flags: &[bool]) -> Matrix {
    let mut bits = 0;
    let mut weight = 1u16;
    for flag in flags {
        if *flag {
            bits |= weight;
        }
        weight = weight.wrapping_mul(2);
    }
    bits
}

/// Whether two nodes have one number exactly where each reaches the other.
fn are_numbered(numbers: &[u32], matrix: Matrix) -> bool {
    'pairs: for pair in 0..9u16 {
        let (p, q) = (pair / 3, pair % 3);
        let together = numbers.get(usize::from(p)) == numbers.get(usize::from(q));
        if together != (has(matrix, pair) && has(matrix, 3 * q + p)) {
            return false;
        }
    }
    numbers.len() == 3
}

/// Whether the matrix has a pair.
fn has(matrix: Matrix, pair: u16) -> bool {
    matrix.wrapping_shr(u32::from(pair)) % 2 == 1
}

/// The three bits of a node.
fn row(matrix: Matrix, p: u32) -> Matrix {
    matrix.wrapping_shr(p.wrapping_mul(3)) % 8
}

/// The matrix of the paths of at most twice as many arcs.
fn squared(matrix: Matrix) -> Matrix {
    let mut square = matrix;
    for pair in 0..9u16 {
        let (p, middle) = (u32::from(pair / 3), u32::from(pair % 3));
        if has(matrix, pair) {
            square |= row(matrix, middle).wrapping_shl(p.wrapping_mul(3));
        }
    }
    square
}
