//! Large automata over `a`: rings, at the limit of pairs, and lines, in which a recursion over the states would go deep.

use aut_base::Memory;
use aut_core::Automaton;
use row_automata::{Plain, standing};
use row_files::Fault;
use std::alloc::Global;

/// The number of states of a line.
const STATES: u32 = 100_000;

/// A ring under this condition whose first states are starts, with an edge from each state to the next where `a` holds. The edge
/// back is in set 0, or isn't.
pub(crate) fn ring(
    alloc: Global,
    states: u32,
    starts: u32,
    is_marked: bool,
    condition: &str,
) -> Result<Automaton, Fault> {
    let mut edges = Vec::new(alloc);
    add_ring(&mut edges, states, u32::from(is_marked))?;
    standing(alloc, states, starts, &edges, condition)
}

/// Adds the edges of a ring, where `a` holds. The last is in these sets.
fn add_ring(edges: &mut Vec<Plain>, states: u32, sets: u32) -> Result<(), Memory> {
    for from in 1..states {
        edges.push(edge(from - 1, true, from, 0))?;
    }
    edges.push(edge(states.saturating_sub(1), true, 0, sets))?;
    Ok(())
}

/// An edge where `a` holds, or where it doesn't, in the sets whose bits are set.
fn edge(from: u32, holds: bool, to: u32, sets: u32) -> Plain {
    let letters = if holds { 2 } else { 1 };
    Plain {
        from,
        letters,
        to,
        sets,
    }
}

/// A line of states under `Inf(0) & Fin(1)`, with an edge from each to the next where `a` holds. Where `a` doesn't hold,
/// - `marked`: the last has a loop in set 0;
/// - `unmarked`: it has one in no set;
/// - `ring`: the last leads back to the first, in set 0;
/// - `loops`: each has a loop, the last in set 0 and the others in both sets.
pub(crate) fn line(alloc: Global, shape: &str) -> Result<Automaton, Fault> {
    let (to, sets) = last_edge(shape)?;
    let mut edges = Vec::new(alloc);
    add_line(
        &mut edges,
        shape == "loops",
        edge(STATES - 1, false, to, sets),
    )?;
    standing(alloc, STATES, 1, &edges, "I0,F1,&")
}

/// Adds the edges from each state to the next, each after a loop where these are wanted, and the last edge.
fn add_line(edges: &mut Vec<Plain>, has_loops: bool, last: Plain) -> Result<(), Memory> {
    for state in 1..STATES {
        if has_loops {
            edges.push(edge(state - 1, false, state - 1, 3))?;
        }
        edges.push(edge(state - 1, true, state, 0))?;
    }
    edges.push(last)?;
    Ok(())
}

/// Where the last edge leads, and the bits of its sets.
fn last_edge(shape: &str) -> Result<(u32, u32), Fault> {
    match shape {
        "marked" | "loops" => Ok((STATES - 1, 1)),
        "unmarked" => Ok((STATES - 1, 0)),
        "ring" => Ok((0, 1)),
        _ => Err(Fault::UnknownKind),
    }
}
