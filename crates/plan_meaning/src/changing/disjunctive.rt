//! An automaton with its condition in disjunctive normal form.

ghost use Rattle.std.specs.Prelude.{◌≡◌, Err, IfOk};
ghost use Rattle.acc_forms.specs.Terms as disjunctive;
ghost use Rattle.acc_forms.specs.declared.fault.FormFault.{FormFault};
ghost use Rattle.aut_core.specs.SymbolicAutomata.{automaton_of};
ghost use Rattle.aut_core.specs.OtherNames.{AcceptTheSame};
ghost use Rattle.fin_removal.specs.Copies.{HasTooManyTerms};

use acc_forms::{FormFault, disjuncts, of_terms};
use aut_core::Automaton;
use std::alloc::Global;

/// The automaton with its condition in disjunctive normal form.
pub(crate) fn with_disjuncts(alloc: Global, a: Automaton) -> Result<Automaton, FormFault>
    ensures accepts { IfOk result (λ made. AcceptTheSame (automaton_of made) (automaton_of a)) }
    ensures shape { IfOk result (λ made. automaton_of made ≡ record (automaton_of a) { formula = disjunctive.of_terms (disjunctive.terms a.formula) }) }
    ensures passed { HasTooManyTerms (automaton_of a) → result ≡ Err FormFault.Terms }
    ensures only_passed { result ≡ Err FormFault.Terms → HasTooManyTerms (automaton_of a) }
{
    a.well_formedness();
    let terms = disjuncts(alloc, a.formula())?;
    let formula = of_terms(alloc, &terms)?;
    Ok(a.with_formula(formula))
}
