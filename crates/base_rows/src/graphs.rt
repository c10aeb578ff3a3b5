//! Calls of `graph_walk` on graphs of rows.

pub(crate) mod arcs;
pub(crate) mod small;

ghost use Rattle.std.specs.Prelude.{◌<◌, All, IfOk};
ghost use Rattle.graph_walk.specs.Walk.{HasNodes};

use crate::words::{add_number, count, digit, part, two_counts};
use arcs::{Source, graph};
use aut_base::{Flags, Memory, Numbers, Places};
use graph_walk::{Graph, components, path, reach};
use row_files::Answer;
use std::alloc::Global;

/// What a call answers of a graph, from `NODES; ARCS`, and a third part: for `reach` the starts, and for both calls of paths
/// their ends.
pub(crate) fn add_walk(
    alloc: Global,
    answer: &mut Answer,
    call: &str,
    line: &str,
) -> Result<(), Memory> {
    let graph = graph(alloc, count(part(line, 0)), Source::Written(part(line, 1)))?;
    match call {
        "reach" => add_reached(alloc, answer, &graph, part(line, 2)),
        "components" => add_components(alloc, answer, &graph),
        _ => add_path(alloc, answer, &graph, part(line, 2), call == "path"),
    }
}

/// Adds the nodes that are reached from these.
fn add_reached(alloc: Global, answer: &mut Answer, graph: &Graph, from: &str) -> Result<(), Memory>
    requires { HasNodes graph.now.nodes graph.now.arcs }
{
    let from = starts(alloc, graph.nodes, from.as_bytes())?;
    add_places(answer, reach(alloc, graph, &from)?.as_slice());
    Ok(())
}

/// The nodes that are digits among these bytes.
fn starts(alloc: Global, nodes: u32, bytes: &[u8]) -> Result<Numbers, Memory>
    ensures { IfOk result (All (λ p. p < nodes)) }
{
    let mut starts = Numbers::new(alloc);
    'nodes: for byte in bytes {
        match digit(*byte) {
            Some(node) if node < nodes => starts.push(node)?,
            _ => {}
        }
    }
    Ok(starts)
}

/// Adds the places of a list that are true.
fn add_places(answer: &mut Answer, flags: &[bool]) {
    let mut place = 0u64;
    for flag in flags {
        if *flag {
            add_number(answer, place);
        }
        place = place.saturating_add(1);
    }
}

/// Adds the number of each node's component.
fn add_components(alloc: Global, answer: &mut Answer, graph: &Graph) -> Result<(), Memory>
    requires { HasNodes graph.now.nodes graph.now.arcs }
{
    let numbers = components(alloc, graph)?;
    for number in numbers.as_slice() {
        add_number(answer, u64::from(*number));
    }
    Ok(())
}

/// Adds the indices of the arcs of a shortest path between two nodes, or how many there are; or `none`.
fn add_path(
    alloc: Global,
    answer: &mut Answer,
    graph: &Graph,
    ends: &str,
    is_whole: bool,
) -> Result<(), Memory>
    requires { HasNodes graph.now.nodes graph.now.arcs }
{
    let (from, to) = two_counts(ends);
    match shortest(alloc, graph, from, to)? {
        Some(places) if is_whole => add_each(answer, places.as_slice()),
        Some(places) => answer.add_number(places.len() as u64),
        None => answer.add(b"none"),
    }
    Ok(())
}

fn add_each(answer: &mut Answer, places: &[usize]) {
    for place in places {
        add_number(answer, *place as u64);
    }
}

/// A shortest path between two nodes, if there are these.
fn shortest(alloc: Global, graph: &Graph, from: u32, to: u32) -> Result<Option<Places>, Memory>
    requires { HasNodes graph.now.nodes graph.now.arcs }
{
    if from < graph.nodes && to < graph.nodes {
        return path(alloc, graph, from, to);
    }
    Ok(None)
}

/// The number of arcs of a shortest path.
fn length(alloc: Global, graph: &Graph, from: u32, to: u32) -> Result<Option<u64>, Memory>
    requires { HasNodes graph.now.nodes graph.now.arcs }
{
    match shortest(alloc, graph, from, to)? {
        Some(places) => Ok(Some(places.len() as u64)),
        None => Ok(None),
    }
}

/// The nodes that are reached from this one.
fn reached(alloc: Global, graph: &Graph, from: u32) -> Result<Flags, Memory>
    requires nodes { HasNodes graph.now.nodes graph.now.arcs }
    requires from { from < graph.now.nodes }
{
    let mut starts = Numbers::new(alloc);
    starts.push(from)?;
    reach(alloc, graph, &starts)
}

/// What the three calls answer of a large graph with so many nodes, from its first node. The path is the one to the last node. A
/// recursion would go as deep as there are nodes.
pub(crate) fn add_large(
    alloc: Global,
    answer: &mut Answer,
    source: Source,
    line: &str,
) -> Result<(), Memory> {
    let graph = graph(alloc, count(line), source)?;
    if graph.nodes > 0 {
        add_counts(alloc, answer, &graph)?;
    }
    Ok(())
}

fn add_counts(alloc: Global, answer: &mut Answer, graph: &Graph) -> Result<(), Memory>
    requires nodes { HasNodes graph.now.nodes graph.now.arcs }
    requires first { 0 < graph.now.nodes }
{
    answer.add(b"reached ");
    answer.add_number(count_true(reached(alloc, graph, 0)?.as_slice()));
    answer.add(b", components ");
    answer.add_number(above_all(components(alloc, graph)?.as_slice()));
    answer.add(b", arcs ");
    answer.add_number(length(alloc, graph, 0, graph.nodes - 1)?.unwrap_or(0));
    Ok(())
}

fn count_true(flags: &[bool]) -> u64 {
    let mut count = 0u64;
    for flag in flags {
        count = count.saturating_add(u64::from(*flag));
    }
    count
}

/// The number after the greatest, or 0 where there is none.
fn above_all(numbers: &[u32]) -> u64 {
    let mut above = 0u64;
    for number in numbers {
        above = above.max(u64::from(*number) + 1);
    }
    above
}
