//! Complements.

ghost use Rattle.std.specs.Prelude.{◌≡◌, ◌⊎◌, ◌+◌, ◌*◌, ◌<◌, ◌≤◌, ◌^◌, Err, IfErr, IfOk, OnOk};
ghost use Rattle.aut_base.specs.declared.limit.TheConstants.{MOST_NODES, MOST_TREES};
ghost use Rattle.aut_core.specs.SymbolicAutomata.{automaton_of};
ghost use Rattle.aut_core.specs.Deterministic.{IsComplete, IsDeterministic};
ghost use Rattle.aut_core.specs.OtherNames.{AcceptTheSame};
ghost use Rattle.aut_ops.specs.Completion.{completed};
ghost use Rattle.parity_det.specs.Complements.{IsComplementAutomaton, IsRefusal, IsWithinParity};
ghost use Rattle.parity_det.specs.Determinisation.{IsDeterminisation};
ghost use Rattle.degeneralise.specs.Buchi.{NeedsTooManyTerms, buchi};
ghost use Rattle.parity_det.specs.declared.fault.CompFault.{CompFault};
ghost use Rattle.parity_laws.specs.Complement.{AreComplementLanguages};

use crate::fault::CompFault;
use crate::form::parity;
use acc_forms::dual;
use aut_core::Automaton;
use aut_ops::complete;
use std::alloc::Global;

/// The complement: an automaton that accepts just the words that this one doesn't. A deterministic automaton is completed,
/// and its condition dualised. For any other it is the parity automaton with the dual condition, and refused where `parity`
/// refuses.
pub fn complement(alloc: Global, a: &Automaton) -> Result<Automaton, CompFault>
    requires states { IsDeterministic (automaton_of a.now) → (completed (automaton_of a.now)).states < 2 ^ 32 }
    requires sets { IsDeterministic (automaton_of a.now) → (completed (automaton_of a.now)).sets < 2 ^ 32 }
    ensures complements { IfOk result (λ made. AreComplementLanguages (automaton_of a.now) (automaton_of made)) }
    ensures shape { IfOk result (λ made. IsComplementAutomaton (automaton_of a.now) (automaton_of made)) }
    ensures names { IfOk result (λ made. made.names ≡ a.now.names) }
    ensures size { IfOk result (λ made. (made.states ≤ a.now.states + MOST_TREES) × (made.sets ≤ a.now.sets + (2 * MOST_NODES + 1))) }
    ensures refused { IfErr result (IsRefusal (automaton_of a.now)) }
    ensures within { (IsDeterministic (automaton_of a.now) → ⊥) → OnOk result (IsWithinParity (automaton_of a.now)) }
    ensures passed_terms { (IsDeterministic (automaton_of a.now) → ⊥) → NeedsTooManyTerms a.now.formula → result ≡ Err CompFault.Terms }
{
    a.well_formedness();
    let own = deterministic_form(alloc, a)?;
    own.well_formedness();
    let formula = dual(alloc, own.formula())?;
    Ok(own.with_formula(formula))
}

/// A complete deterministic automaton with the same language: of a deterministic automaton its completion, else its parity
/// automaton.
fn deterministic_form(alloc: Global, a: &Automaton) -> Result<Automaton, CompFault>
    requires states { IsDeterministic (automaton_of a.now) → (completed (automaton_of a.now)).states < 2 ^ 32 }
    requires sets { IsDeterministic (automaton_of a.now) → (completed (automaton_of a.now)).sets < 2 ^ 32 }
    ensures accepts { IfOk result (λ made. AcceptTheSame (automaton_of made) (automaton_of a.now)) }
    ensures deterministic { IfOk result (λ made. IsDeterministic (automaton_of made)) }
    ensures complete { IfOk result (λ made. IsComplete (automaton_of made)) }
    ensures shape { IfOk result (λ made. (IsDeterministic (automaton_of a.now) × (automaton_of made ≡ completed (automaton_of a.now)))
        ⊎ ((IsDeterministic (automaton_of a.now) → ⊥) × IsDeterminisation (buchi (automaton_of a.now)) (automaton_of made))) }
    ensures names { IfOk result (λ made. made.names ≡ a.now.names) }
    ensures size { IfOk result (λ made. (made.states ≤ a.now.states + MOST_TREES) × (made.sets ≤ a.now.sets + (2 * MOST_NODES + 1))) }
    ensures refused { IfErr result (IsRefusal (automaton_of a.now)) }
    ensures within { (IsDeterministic (automaton_of a.now) → ⊥) → OnOk result (IsWithinParity (automaton_of a.now)) }
    ensures passed_terms { (IsDeterministic (automaton_of a.now) → ⊥) → NeedsTooManyTerms a.now.formula → result ≡ Err CompFault.Terms }
{
    a.well_formedness();
    if a.is_deterministic() {
        return Ok(complete(alloc, a)?);
    }
    parity(alloc, a)
}
