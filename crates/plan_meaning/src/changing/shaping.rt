//! What a plan makes of an automaton alone: the automaton with a proposition hidden, its reached states, its form, and its
//! completion.
//!
//! The removal of Fin, determinisation and completion return an automaton as it is that is without Fin, deterministic or
//! complete already.

ghost use Rattle.std.specs.Prelude.{◌≡◌, ◌≢◌, [], ◌∷◌, IfOk, true};
ghost use Rattle.acc_forms.specs.Atoms.{has_fin};
ghost use Rattle.aut_core.specs.SymbolicAutomata.{automaton_of};
ghost use Rattle.filter_plan.specs.declared.plan.Form.{Form};
ghost use Rattle.plan_meaning.specs.Changes.{Bring, Complete, RemoveAp, Trim};
ghost use Rattle.plan_meaning.specs.inner.Stepping.{HasRoom, IsOfComplementSize, IsOfLastSize, IsOfSumSize, StepsChanges};

use super::determinising::{deterministic, parity_of};
use super::disjunctive::with_disjuncts;
use crate::fault::PlanFault;
use acc_forms::has_fin;
use ap_project::remove_ap;
use aut_core::Automaton;
use aut_ops::trim;
use degeneralise::to_buchi;
use filter_plan::{Form, Hidden};
use fin_removal::copies;
use monitor_form::monitor;
use std::alloc::Global;

/// The automaton with this proposition hidden.
pub(crate) fn hide(alloc: Global, a: &Automaton, hidden: &Hidden) -> Result<Automaton, PlanFault>
    requires size { IsOfSumSize (automaton_of a.now) }
    ensures steps { StepsChanges (RemoveAp hidden.now ∷ []) (automaton_of a.now) result }
    ensures size { IfOk result (λ made. IsOfSumSize (automaton_of made)) }
{
    Ok(remove_ap(alloc, a, &hidden.name, hidden.how)?)
}

pub(crate) fn trimmed(alloc: Global, a: &Automaton) -> Result<Automaton, PlanFault>
    requires size { IsOfSumSize (automaton_of a.now) }
    ensures steps { StepsChanges (Trim ∷ []) (automaton_of a.now) result }
    ensures size { IfOk result (λ made. IsOfSumSize (automaton_of made)) }
{
    Ok(trim(alloc, a)?)
}

/// The automaton in this form.
pub(crate) fn bring(alloc: Global, form: Form, a: Automaton) -> Result<Automaton, PlanFault>
    requires size { IsOfComplementSize (automaton_of a) }
    requires asked { form ≢ Form.AsIs }
    ensures steps { StepsChanges (Bring form ∷ []) (automaton_of a) result }
    ensures size { IfOk result (λ made. HasRoom (automaton_of made)) }
{
    match form {
        Form::AsIs => unreachable!(),
        Form::Buchi => buchi(alloc, &a),
        Form::RemoveFin => without_fin(alloc, a),
        Form::Dnf => disjunctive(alloc, a),
        Form::Deterministic => deterministic(alloc, a),
        Form::Parity => parity_of(alloc, &a),
        Form::Monitor => monitored(alloc, &a),
    }
}

fn buchi(alloc: Global, a: &Automaton) -> Result<Automaton, PlanFault>
    ensures steps { StepsChanges (Bring Form.Buchi ∷ []) (automaton_of a.now) result }
    ensures size { IfOk result (λ made. HasRoom (automaton_of made)) }
{
    Ok(to_buchi(alloc, a)?)
}

fn monitored(alloc: Global, a: &Automaton) -> Result<Automaton, PlanFault>
    ensures steps { StepsChanges (Bring Form.Monitor ∷ []) (automaton_of a.now) result }
    ensures size { IfOk result (λ made. HasRoom (automaton_of made)) }
{
    Ok(monitor(alloc, a)?)
}

/// An automaton without Fin is returned as it is.
fn without_fin(alloc: Global, a: Automaton) -> Result<Automaton, PlanFault>
    requires size { IsOfComplementSize (automaton_of a) }
    ensures steps { StepsChanges (Bring Form.RemoveFin ∷ []) (automaton_of a) result }
    ensures size { IfOk result (λ made. HasRoom (automaton_of made)) }
{
    if !has_fin(a.formula()) {
        return Ok(a);
    }
    with_copies(alloc, &a)
}

fn with_copies(alloc: Global, a: &Automaton) -> Result<Automaton, PlanFault>
    requires size { IsOfComplementSize (automaton_of a.now) }
    requires fin { has_fin a.now.formula ≡ true }
    ensures steps { StepsChanges (Bring Form.RemoveFin ∷ []) (automaton_of a.now) result }
    ensures size { IfOk result (λ made. HasRoom (automaton_of made)) }
{
    Ok(copies(alloc, a)?)
}

fn disjunctive(alloc: Global, a: Automaton) -> Result<Automaton, PlanFault>
    requires size { IsOfComplementSize (automaton_of a) }
    ensures steps { StepsChanges (Bring Form.Dnf ∷ []) (automaton_of a) result }
    ensures size { IfOk result (λ made. HasRoom (automaton_of made)) }
{
    Ok(with_disjuncts(alloc, a)?)
}

/// An automaton that is complete is returned as it is.
pub(crate) fn complete(alloc: Global, a: Automaton) -> Result<Automaton, PlanFault>
    requires size { HasRoom (automaton_of a) }
    ensures steps { StepsChanges (Complete ∷ []) (automaton_of a) result }
    ensures size { IfOk result (λ made. IsOfLastSize (automaton_of made)) }
{
    a.well_formedness();
    if a.is_complete() {
        return Ok(a);
    }
    completed(alloc, &a)
}

fn completed(alloc: Global, a: &Automaton) -> Result<Automaton, PlanFault>
    requires size { HasRoom (automaton_of a.now) }
    ensures steps { StepsChanges (Complete ∷ []) (automaton_of a.now) result }
    ensures size { IfOk result (λ made. IsOfLastSize (automaton_of made)) }
{
    a.well_formedness();
    Ok(aut_ops::complete(alloc, a)?)
}
