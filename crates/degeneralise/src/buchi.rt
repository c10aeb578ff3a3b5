//! The Büchi form.

ghost use Rattle.std.specs.Prelude.{◌≡◌, ◌*◌, ◌<◌, ◌≤◌, ◌^◌, ◌↔◌, All, Err, IfOk, IsTrue, OnOk, false, length};
ghost use Rattle.aut_base.specs.Formula.{FormulaTree};
ghost use Rattle.aut_core.specs.SymbolicAutomata.{automaton_of};
ghost use Rattle.aut_core.specs.OtherNames.{AcceptTheSame};
ghost use Rattle.degeneralise.specs.Buchi.{NeedsTooManyTerms, buchi, buchi_states, with_counters, levels, most_levels, watch_of, watches};
ghost use Rattle.aut_base.specs.declared.limit.TheConstants.{MOST_BUCHI_STATES};
ghost use Rattle.degeneralise.specs.declared.fault.BuchiFault.{BuchiFault};

use crate::fault::BuchiFault;
use crate::generalised::is_generalised_buchi;
use crate::links::{first_levels, levelled_links};
use crate::watches::{Watches, most_levels, watches};
use aut_base::{Formula, MOST_BUCHI_STATES, Memory};
use aut_core::{Automaton, copy_names};
use fin_removal::copies;
use std::alloc::Global;

/// The Büchi form: one set, and the condition that a run is in it again and again. Under a generalised Büchi condition it
/// is made of the automaton, else of the automaton with its copies (`fin_removal::copies`). A state has a level for each
/// literal that it waits for. Refused as `Terms` where copies are needed and the terms count more than
/// `aut_base::MOST_TERMS`, and then as `BuchiStates` where there would be more than
/// `aut_base::MOST_BUCHI_STATES` states.
pub fn to_buchi(alloc: Global, a: &Automaton) -> Result<Automaton, BuchiFault>
    ensures accepts { IfOk result (λ made. AcceptTheSame (automaton_of made) (automaton_of a.now)) }
    ensures shape { IfOk result (λ made. automaton_of made ≡ buchi (automaton_of a.now)) }
    ensures sets { IfOk result (λ made. made.sets ≡ 1) }
    ensures formula { IfOk result (λ made. made.formula ≡ FormulaTree.Inf 0 false) }
    ensures states { IfOk result (λ made. made.states ≡ buchi_states (automaton_of a.now)) }
    ensures passed_terms { NeedsTooManyTerms a.now.formula → result ≡ Err BuchiFault.Terms }
    ensures only_terms { result ≡ Err BuchiFault.Terms → NeedsTooManyTerms a.now.formula }
    ensures within { OnOk result (buchi_states (automaton_of a.now) ≤ MOST_BUCHI_STATES) }
    ensures only_states { result ≡ Err BuchiFault.BuchiStates → MOST_BUCHI_STATES < buchi_states (automaton_of a.now) }
{
    a.well_formedness();
    let watches = watches(alloc, a.formula())?;
    let k = most_levels(&watches);
    if !are_few(a.states(), watches.len(), k) {
        return Err(BuchiFault::BuchiStates);
    }
    let made = buchi_by(alloc, a, &watches, k)?;
    Ok(made)
}

/// As `to_buchi`, given what each copy waits for and the greatest number of levels, within the limit on states.
fn buchi_by(
    alloc: Global,
    a: &Automaton,
    listed: &Watches,
    k: usize,
) -> Result<Automaton, BuchiFault>
    requires watches { listed.now ≡ watches a.now.formula }
    requires levels { k ≡ most_levels listed.now }
    requires few { a.now.states * length listed.now * k ≤ MOST_BUCHI_STATES }
    ensures made { IfOk result (λ made. automaton_of made ≡ buchi (automaton_of a.now)) }
    ensures only_terms { result ≡ Err BuchiFault.Terms → NeedsTooManyTerms a.now.formula }
    ensures no_states { result ≡ Err BuchiFault.BuchiStates → ⊥ }
{
    if is_generalised_buchi(a.formula()) {
        return Ok(put_on_levels(alloc, a, a.states(), listed, k)?);
    }
    let copied = copies(alloc, a)?;
    Ok(put_on_levels(alloc, &copied, a.states(), listed, k)?)
}

/// Whether so many copies of so many states, with so many levels each, have at most `MOST_BUCHI_STATES` states.
fn are_few(states: u32, copies: usize, levels: usize) -> bool
    ensures { IsTrue result ↔ (states * copies * levels ≤ MOST_BUCHI_STATES) }
{
    u128::from(states)
        .saturating_mul(copies as u128)
        .saturating_mul(levels as u128)
        <= u128::from(MOST_BUCHI_STATES)
}

/// The automaton with a counter of k levels at each state, where each copy has `states` states.
fn put_on_levels(
    alloc: Global,
    a: &Automaton,
    states: u32,
    watches: &Watches,
    k: usize,
) -> Result<Automaton, Memory>
    requires copies { a.now.states ≤ states * length watches.now }
    requires room { All (λ watch. levels watch ≤ k) watches.now }
    requires some { 0 < k }
    requires fit { a.now.states * k < 2 ^ 32 }
    ensures { IfOk result (λ made. automaton_of made ≡ with_counters k (watch_of states watches.now) (automaton_of a.now)) }
{
    a.well_formedness();
    let links = levelled_links(alloc, a, states, watches, k)?;
    let starts = first_levels(alloc, a.starts(), k)?;
    Automaton::from_parts(
        alloc,
        copy_names(a.names())?,
        a.guards().copy(alloc)?,
        (a.states() as usize * k) as u32,
        starts,
        links,
        1,
        Formula::Inf { set: 0, neg: false },
    )
}
