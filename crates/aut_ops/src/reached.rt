//! The size of the reached part of an automaton.

ghost use Rattle.std.specs.Prelude.{◌≡◌, ◌<◌, ◌^◌, IfOk, filter, length};
ghost use Rattle.aut_core.specs.SymbolicAutomata.{automaton_of};
ghost use Rattle.aut_ops.specs.Trimming.{IsReachedSize, flagged_before};
ghost use Rattle.aut_ops.specs.inner.Renumbering.{link_stays};

use crate::passable::{satisfiable_graph, stays};
use aut_base::Memory;
use aut_core::Automaton;
use graph_walk::reach;
use std::alloc::Global;

/// The number of reached states of an automaton, and of the edges with satisfiable labels that leave them.
#[derive(Clone, Copy, Debug)]
pub struct ReachedSize {
    pub states: u32,
    pub edges: usize,
}

// Why so: 'Figures are counted and not made' in docs/DECISIONS.md.
/// The number of states and edges of the trimmed automaton, which isn't made.
pub fn reached_size(alloc: Global, a: &Automaton) -> Result<ReachedSize, Memory>
    ensures { IfOk result (IsReachedSize (automaton_of a.now)) }
{
    a.well_formedness();
    let graph = satisfiable_graph(alloc, a)?;
    let reached = reach(alloc, &graph, a.starts())?;
    let flags = reached.as_slice();
    Ok(ReachedSize {
        states: flagged_count(flags),
        edges: staying_count(a, flags),
    })
}

/// The number of flags that are set.
fn flagged_count(flags: &[bool]) -> u32
    requires { length flags.now < 2 ^ 32 }
    ensures { result ≡ flagged_before flags.now (length flags.now) }
{
    let mut count = 0;
    'flags: for flag in flags {
        if !*flag {
            continue;
        }
        count += 1;
    }
    count
}

/// The number of links with satisfiable labels between flagged states.
fn staying_count(a: &Automaton, flags: &[bool]) -> usize
    requires { length flags.now ≡ a.now.states }
    ensures { result ≡ length (filter (link_stays a.now flags.now) a.now.links) }
{
    a.well_formedness();
    let mut count = 0;
    'links: for link in a.links() {
        if !stays(a, link, flags) {
            continue;
        }
        count += 1;
    }
    count
}
