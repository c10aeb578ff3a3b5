//! Edges grouped by strongly connected components.

ghost use Rattle.std.specs.Prelude.{◌≡◌, ◌<◌, ◌≤◌, ◌++◌, ◌∷◌, [], ℕ, List, All, IfOk, OnOk, length, nat_eq, if◌then◌else◌};
ghost use Rattle.std.specs.List.{filter, slice_index_or};
ghost use Rattle.lasso_emptiness.specs.declared.live.EdgeRef.{EdgeRef};
ghost use Rattle.lasso_emptiness.specs.inner.Groups.{AreGroups, is_inside};

use crate::live::{EdgeRef, LiveEdges, graph_of};
use aut_base::Memory;
use graph_walk::components;
use std::alloc::Global;

/// Edges in groups.
pub(crate) type Groups = Vec<LiveEdges>;

/// For each component the edges inside of it. A group may be empty.
pub(crate) fn component_groups(
    alloc: Global,
    states: u32,
    edges: &[EdgeRef],
) -> Result<Groups, Memory>
    requires { All (λ e. (e.from < states) × (e.to < states)) edges.now }
    ensures { IfOk result (λ groups. AreGroups edges.now groups.items) }
{
    let graph = graph_of(alloc, states, edges)?;
    let numbers = components(alloc, &graph)?;
    groups_by_number(alloc, edges, numbers.as_slice())
}

/// For each number the edges both of whose states have it.
fn groups_by_number(alloc: Global, edges: &[EdgeRef], numbers: &[u32]) -> Result<Groups, Memory>
    requires { All (λ e. (e.from < length numbers.now) × (e.to < length numbers.now)) edges.now }
    ensures { IfOk result (λ groups. (k : ℕ) → slice_index_or groups.items k [] ≡ filter (is_inside numbers.now k) edges.now) }
{
    let mut groups = Groups::new(alloc);
    'edges: for edge in edges {
        let number = numbers[edge.from as usize];
        if number != numbers[edge.to as usize] {
            continue;
        }
        add_to_group(alloc, &mut groups, number as usize, *edge)?;
    }
    Ok(groups)
}

/// Adds an edge to the group of this number, and before that empty groups where there is none.
fn add_to_group(
    alloc: Global,
    groups: &mut Groups,
    number: usize,
    edge: EdgeRef,
) -> Result<(), Memory>
    requires { number < 4294967296 }
    ensures { OnOk result ((k : ℕ) → slice_index_or groups.new.items k []
        ≡ (if nat_eq k number then slice_index_or groups.old.items k [] ++ edge ∷ [] else slice_index_or groups.old.items k [])) }
{
    make_groups(alloc, groups, number)?;
    groups[number].push(edge)?;
    Ok(())
}

/// Adds empty groups until there is one of this number.
fn make_groups(alloc: Global, groups: &mut Groups, number: usize) -> Result<(), Memory>
    requires { number < 4294967296 }
    ensures there { OnOk result (number < length groups.new.items) }
    ensures same { OnOk result ((k : ℕ) → slice_index_or groups.new.items k [] ≡ slice_index_or groups.old.items k []) }
{
    'numbers: while groups.len() <= number {
        groups.push(LiveEdges::new(alloc))?;
    }
    Ok(())
}
