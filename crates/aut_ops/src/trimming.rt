//! Trimming: removal of the states that aren't reached.

ghost use Rattle.std.specs.Prelude.{◌≡◌, IfOk, length};
ghost use Rattle.aut_core.specs.SymbolicAutomata.{automaton_of};
ghost use Rattle.aut_core.specs.OtherNames.{AcceptTheSame};
ghost use Rattle.aut_ops.specs.Satisfiable.{between};
ghost use Rattle.aut_ops.specs.Trimming.{IsTrimmed, renumbered};

use crate::passable::{flagged_starts, links_between, satisfiable_graph};
use crate::renumbering::{number_flagged, renumbered, renumbered_links};
use aut_base::Memory;
use aut_core::Automaton;
use graph_walk::reach;
use std::alloc::Global;

/// The automaton without the states that aren't reached by edges with satisfiable labels, and without the edges whose
/// labels aren't satisfiable. The states stay in order, and are numbered from 0. It accepts the same words.
pub fn trim(alloc: Global, a: &Automaton) -> Result<Automaton, Memory>
    ensures shape { IfOk result (λ made. IsTrimmed (automaton_of a.now) (automaton_of made)) }
    ensures accepts { IfOk result (λ made. AcceptTheSame (automaton_of made) (automaton_of a.now)) }
{
    a.well_formedness();
    let graph = satisfiable_graph(alloc, a)?;
    let reached = reach(alloc, &graph, a.starts())?;
    flagged_alone(alloc, a, reached.as_slice())
}

/// The automaton of the flagged states, numbered from 0 in their order.
fn flagged_alone(alloc: Global, a: &Automaton, flags: &[bool]) -> Result<Automaton, Memory>
    requires { length flags.now ≡ a.now.states }
    ensures { IfOk result (λ made. automaton_of made ≡ renumbered flags.now (between flags.now (automaton_of a.now))) }
{
    a.well_formedness();
    let new = number_flagged(alloc, a.states(), flags)?;
    let staying = links_between(alloc, a, flags)?;
    let links = renumbered_links(alloc, &new.ranks, staying.as_slice())?;
    let flagged = flagged_starts(alloc, a.starts().as_slice(), flags)?;
    let starts = renumbered(alloc, &new.ranks, flagged.as_slice())?;
    a.with_states(alloc, new.count, starts, links)
}
