//! The automaton with its copies.

ghost use Rattle.std.specs.Prelude.{◌≡◌, ◌+◌, ◌*◌, ◌<◌, ◌≤◌, IfOk, Err, length, true, false};
ghost use Rattle.acc_forms.specs.Atoms.{has_fin};
ghost use Rattle.acc_forms.specs.Terms.{count, terms};
ghost use Rattle.acc_forms.specs.declared.fault.FormFault.{FormFault};
ghost use Rattle.aut_base.specs.declared.limit.TheConstants.{MOST_TERMS};
ghost use Rattle.aut_core.specs.SymbolicAutomata.{automaton_of};
ghost use Rattle.aut_core.specs.OtherNames.{AcceptTheSame};
ghost use Rattle.fin_removal.specs.Copies.{CopiesFit, HasTooManyTerms, copied, without_fin};

use crate::links::copied_links;
use crate::term_copy::{all_sets, sets_owned, term_copies};
use acc_forms::{FormFault, Terms, disjuncts, has_fin, of_terms};
use aut_base::Memory;
use aut_core::{Automaton, copy_names, copy_numbers};
use std::alloc::Global;

/// The automaton without Fin: the main copy, which holds the starts, and a copy for each term of the condition, held to
/// the term's Fin literals. A run moves into a copy at any edge. Refused as `Terms` where the terms count more than
/// `MOST_TERMS` (`acc_forms::terms_count`).
pub fn copies(alloc: Global, a: &Automaton) -> Result<Automaton, FormFault>
    requires { CopiesFit (automaton_of a.now) }
    ensures accepts { IfOk result (λ made. AcceptTheSame (automaton_of made) (automaton_of a.now)) }
    ensures shape { IfOk result (λ made. automaton_of made ≡ copied (automaton_of a.now)) }
    ensures no_fin { IfOk result (λ made. has_fin made.formula ≡ false) }
    ensures states { IfOk result (λ made. made.states ≡ (1 + length (terms a.now.formula)) * a.now.states) }
    ensures passed { HasTooManyTerms (automaton_of a.now) → result ≡ Err FormFault.Terms }
    ensures only_passed { result ≡ Err FormFault.Terms → HasTooManyTerms (automaton_of a.now) }
{
    a.well_formedness();
    let terms = disjuncts(alloc, a.formula())?;
    Ok(make_copies(alloc, a, &terms)?)
}

// Why so: 'A copy without `Fin` is one copy for each term' in docs/DECISIONS.md.
/// The automaton itself where its condition has no Fin, else with its copies. Refused as `Terms` where it needs copies and
/// the terms count more than `MOST_TERMS`.
pub fn remove_fin(alloc: Global, a: &Automaton) -> Result<Automaton, FormFault>
    requires { has_fin a.now.formula ≡ true → CopiesFit (automaton_of a.now) }
    ensures accepts { IfOk result (λ made. AcceptTheSame (automaton_of made) (automaton_of a.now)) }
    ensures shape { IfOk result (λ made. automaton_of made ≡ without_fin (automaton_of a.now)) }
    ensures itself { has_fin a.now.formula ≡ false → IfOk result (λ made. made ≡ a.now) }
    ensures no_fin { IfOk result (λ made. has_fin made.formula ≡ false) }
    ensures passed { has_fin a.now.formula ≡ true → HasTooManyTerms (automaton_of a.now) → result ≡ Err FormFault.Terms }
    ensures only_with_fin { result ≡ Err FormFault.Terms → has_fin a.now.formula ≡ true }
    ensures only_passed { result ≡ Err FormFault.Terms → HasTooManyTerms (automaton_of a.now) }
{
    if !has_fin(a.formula()) {
        return Ok(a.copy(alloc)?);
    }
    copies(alloc, a)
}

/// As `copies`, given the terms of the condition.
fn make_copies(alloc: Global, a: &Automaton, listed: &Terms) -> Result<Automaton, Memory>
    requires terms { listed.now ≡ terms a.now.formula }
    requires few { count listed.now ≤ MOST_TERMS }
    requires fit { CopiesFit (automaton_of a.now) }
    ensures { IfOk result (λ made. automaton_of made ≡ copied (automaton_of a.now)) }
{
    a.well_formedness();
    let copies = term_copies(alloc, listed)?;
    let links = copied_links(alloc, a, &copies)?;
    let owned = sets_owned(alloc, &copies)?;
    let formula = of_terms(alloc, &owned)?;
    Automaton::from_parts(
        alloc,
        copy_names(a.names())?,
        a.guards().copy(alloc)?,
        (1 + listed.len() as u32) * a.states(),
        copy_numbers(a.starts())?,
        links,
        all_sets(&copies),
        formula,
    )
}
