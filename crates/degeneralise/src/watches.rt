//! What the states of each copy wait for.

ghost use Rattle.std.specs.Prelude.{◌≡◌, ◌*◌, ◌<◌, [], ◌∷◌, Err, IfOk, None, Some, length, map};
ghost use Rattle.aut_base.specs.Formula.{formula_tree};
ghost use Rattle.degeneralise.specs.Buchi.{NeedsTooManyTerms, most_levels, watch_of, watches};
ghost use Rattle.degeneralise.specs.declared.fault.BuchiFault.{BuchiFault};

use crate::fault::BuchiFault;
use crate::generalised::{inf_literals, is_generalised_buchi};
use crate::levels::levels;
use acc_forms::{Literals, Terms, disjuncts};
use aut_base::{Formula, Memory, Seq};
use fin_removal::owned_sets;
use std::alloc::Global;

/// The literals that a state waits for in turn, or `None` where it waits for nothing.
pub(crate) type Watch = Option<Literals>;

/// What the states of each copy wait for.
pub(crate) type Watches = Seq<Watch>;

/// Lists what the states of each copy of an automaton with this condition wait for. Refused as `Terms` where copies are
/// needed and the terms are too many.
pub(crate) fn watches(alloc: Global, formula: &Formula) -> Result<Watches, BuchiFault>
    ensures made { IfOk result (λ found. found ≡ watches (formula_tree formula.now)) }
    ensures passed { NeedsTooManyTerms (formula_tree formula.now) → result ≡ Err BuchiFault.Terms }
    ensures only_passed { result ≡ Err BuchiFault.Terms → NeedsTooManyTerms (formula_tree formula.now) }
    ensures no_states { result ≡ Err BuchiFault.BuchiStates → ⊥ }
{
    if is_generalised_buchi(formula) {
        let literals = inf_literals(alloc, formula)?;
        return Ok(one_watch(alloc, literals)?);
    }
    let terms = disjuncts(alloc, formula)?;
    let owned = owned_sets(alloc, &terms)?;
    Ok(copy_watches(alloc, owned)?)
}

/// The list for an automaton that needs no copies.
fn one_watch(alloc: Global, literals: Literals) -> Result<Watches, Memory>
    ensures { IfOk result (λ found. found ≡ Some literals ∷ []) }
{
    let mut found = Watches::new(alloc);
    found.push(Some(literals))?;
    Ok(found)
}

/// The list for an automaton with copies: the main copy waits for nothing, each other one for its sets.
fn copy_watches(alloc: Global, owned: Terms) -> Result<Watches, Memory>
    ensures { IfOk result (λ found. found ≡ None ∷ map (λ sets. Some sets) owned) }
{
    let mut found = Watches::new(alloc);
    found.push(None)?;
    'copies: for sets in owned.into_vec() {
        found.push(Some(sets))?;
    }
    Ok(found)
}

/// The greatest number of levels.
pub(crate) fn most_levels(watches: &Watches) -> usize
    ensures { result ≡ most_levels watches.now }
{
    let mut most = 1;
    'watches: for watch in watches.as_slice() {
        most = most.max(levels(watch));
    }
    most
}

/// What the state waits for, where each copy has this many states.
pub(crate) fn watch_of(watches: &Watches, states: u32, state: u32) -> &Watch
    requires { state < states * length watches.now }
    ensures { result.now ≡ watch_of states watches.now state }
{
    watches.at((state / states) as usize)
}
