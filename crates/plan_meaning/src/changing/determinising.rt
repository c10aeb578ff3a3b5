//! What needs determinism: complements, deterministic automata and parity automata.

ghost use Rattle.std.specs.Prelude.{[], ◌∷◌, IfOk};
ghost use Rattle.aut_core.specs.SymbolicAutomata.{automaton_of};
ghost use Rattle.aut_core.specs.Deterministic.{IsDeterministic};
ghost use Rattle.filter_plan.specs.declared.plan.Form.{Form};
ghost use Rattle.plan_meaning.specs.Changes.{Bring, Complement};
ghost use Rattle.plan_meaning.specs.inner.Stepping.{HasRoom, IsOfComplementSize, IsOfSumSize, StepsChanges};

use crate::fault::PlanFault;
use aut_core::Automaton;
use parity_det::{complement, parity};
use std::alloc::Global;

pub(crate) fn complemented(alloc: Global, a: &Automaton) -> Result<Automaton, PlanFault>
    requires size { IsOfSumSize (automaton_of a.now) }
    ensures steps { StepsChanges (Complement ∷ []) (automaton_of a.now) result }
    ensures size { IfOk result (λ made. IsOfComplementSize (automaton_of made)) }
{
    Ok(complement(alloc, a)?)
}

/// An automaton that is deterministic is returned as it is.
pub(crate) fn deterministic(alloc: Global, a: Automaton) -> Result<Automaton, PlanFault>
    requires size { IsOfComplementSize (automaton_of a) }
    ensures steps { StepsChanges (Bring Form.Deterministic ∷ []) (automaton_of a) result }
    ensures size { IfOk result (λ made. HasRoom (automaton_of made)) }
{
    if a.is_deterministic() {
        return Ok(a);
    }
    determinised(alloc, &a)
}

fn determinised(alloc: Global, a: &Automaton) -> Result<Automaton, PlanFault>
    requires other { IsDeterministic (automaton_of a.now) → ⊥ }
    ensures steps { StepsChanges (Bring Form.Deterministic ∷ []) (automaton_of a.now) result }
    ensures size { IfOk result (λ made. HasRoom (automaton_of made)) }
{
    Ok(parity(alloc, a)?)
}

pub(crate) fn parity_of(alloc: Global, a: &Automaton) -> Result<Automaton, PlanFault>
    ensures steps { StepsChanges (Bring Form.Parity ∷ []) (automaton_of a.now) result }
    ensures size { IfOk result (λ made. HasRoom (automaton_of made)) }
{
    Ok(parity(alloc, a)?)
}
