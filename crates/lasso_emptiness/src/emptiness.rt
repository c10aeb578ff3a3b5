//! The emptiness test, and the search for an accepted word.

ghost use Rattle.std.specs.Prelude.{◌↔◌, IsTrue, IfOk, MatchOption};
ghost use Rattle.aut_core.specs.SymbolicAutomata.{automaton_of};
ghost use Rattle.lasso_emptiness.specs.Emptiness.{AcceptsNothing, AcceptsSome, IsAcceptedWord};
ghost use Rattle.lasso_emptiness.specs.inner.AcceptingComponents.{IsAcceptingComponent};
ghost use Rattle.lasso_emptiness.specs.inner.Live.{ArePassable, IsReachedEdge};

use crate::live::{EdgeRef, LiveEdges, reached_edges, satisfiable_edges};
use crate::search::search;
use crate::word::{accepting_cycle, word_around};
use aut_base::{Lasso, Memory};
use aut_core::Automaton;
use std::alloc::Global;
use word_syntax::reduce;

/// Whether the automaton accepts some lasso word. It makes no word.
pub fn accepts_some(alloc: Global, a: &Automaton) -> Result<bool, Memory>
    ensures { IfOk result (λ some. IsTrue some ↔ AcceptsSome (automaton_of a.now)) }
{
    a.well_formedness();
    let passable = satisfiable_edges(alloc, a)?;
    let found = accepting_component(alloc, a, passable.as_slice())?;
    Ok(found.is_some())
}

/// A lasso word that the automaton accepts, or None where it accepts none.
pub fn accepted_word(alloc: Global, a: &Automaton) -> Result<Option<Lasso>, Memory>
    ensures { IfOk result (λ found. MatchOption found (AcceptsNothing (automaton_of a.now)) (IsAcceptedWord (automaton_of a.now))) }
{
    a.well_formedness();
    let passable = satisfiable_edges(alloc, a)?;
    match accepting_component(alloc, a, passable.as_slice())? {
        Some(component) => {
            let cycle = accepting_cycle(
                alloc,
                a.links(),
                a.states(),
                component.as_slice(),
                a.formula(),
            )?;
            let word = word_around(alloc, a, passable.as_slice(), cycle.as_slice())?;
            Ok(Some(reduce(alloc, &word)?))
        }
        None => Ok(None),
    }
}

/// The edges of an accepting component: they are reached, strongly connected, and together meet the condition. None where the automaton
/// accepts nothing.
fn accepting_component(
    alloc: Global,
    a: &Automaton,
    passable: &[EdgeRef],
) -> Result<Option<LiveEdges>, Memory>
    requires { ArePassable a.now passable.now }
    ensures { IfOk result (λ found. MatchOption found (AcceptsNothing (automaton_of a.now)) (IsAcceptingComponent a.now.links (IsReachedEdge a.now passable.now) a.now.formula)) }
{
    a.well_formedness();
    let reached = reached_edges(alloc, a, passable)?;
    search(
        alloc,
        a.links(),
        a.states(),
        reached.as_slice(),
        a.formula(),
    )
}
