//! The monitor of an automaton.

ghost use Rattle.std.specs.Prelude.{◌≡◌, ◌<◌, ◌≤◌, ⊤, [], Err, IfOk, OnOk, length, map, nat_eq};
ghost use Rattle.std.specs.Cmp.Lexicographic.{pointwise};
ghost use Rattle.aut_base.specs.Formula.{FormulaTree};
ghost use Rattle.aut_base.specs.declared.limit.TheConstants.{MOST_BUCHI_STATES, MOST_SUBSETS};
ghost use Rattle.aut_core.specs.SymbolicAutomata.{automaton_of};
ghost use Rattle.aut_core.specs.Deterministic.{IsDeterministic};
ghost use Rattle.degeneralise.specs.Buchi.{NeedsTooManyTerms, buchi_states};
ghost use Rattle.exploration.specs.Explorations.{IsSound, transition_of};
ghost use Rattle.exploration.specs.Reached.{IsExplored};
ghost use Rattle.exploration.specs.declared.fault.Fault.{Fault};
ghost use Rattle.label_guards.specs.Store.{Keeps};
ghost use Rattle.letter_classes.specs.SetClasses.{FitsStore, IsClassGuard};
ghost use Rattle.monitor_form.specs.Prefixes.{AcceptsPrefixes};
ghost use Rattle.monitor_form.specs.Subsets.{IsMonitorAutomaton, IsSubsetForm, MeetsLimit, MeetsSubsetLimit, monitor_on, start_set, subset_moves};
ghost use Rattle.monitor_form.specs.declared.fault.MonFault.{MonFault};

use crate::fault::{MonFault, limit_met};
use crate::goals::start_set;
use crate::subsets::Subsets;
use aut_base::{Formula, MOST_CLASSES, MOST_SUBSETS, Marks, Memory, Numbers};
use aut_core::{Automaton, Links, copy_names};
use aut_ops::prune;
use degeneralise::to_buchi;
use exploration::{Explored, Limits, explore};
use label_guards::{Guard, Guards};
use letter_classes::{ClassStore, Marking, class_form};
use std::alloc::Global;

/// The monitor: a deterministic automaton without acceptance sets, which accepts just the words whose first n letters, for
/// every n, are those of some word that `a` accepts. Its states are the sets of states that the Büchi form, pruned, can be
/// in, in the order in which they are met; an automaton without starts has none. The letters that the edges from a set
/// don't tell apart have one edge, which is left out where it would lead to the empty set.
///
/// Refused as `Terms` or `BuchiStates` where `degeneralise::to_buchi` refuses. Then as `Classes` where the sets that are
/// expanded have more than `aut_base::MOST_CLASSES` classes of letters together, or as `Subsets` where a set is new and
/// `aut_base::MOST_SUBSETS` are listed, whichever is met first.
pub fn monitor(alloc: Global, a: &Automaton) -> Result<Automaton, MonFault>
    ensures accepts { IfOk result (λ made. AcceptsPrefixes (automaton_of made) (automaton_of a.now)) }
    ensures shape { IfOk result (λ made. IsMonitorAutomaton (automaton_of a.now) (automaton_of made)) }
    ensures deterministic { IfOk result (λ made. IsDeterministic (automaton_of made)) }
    ensures names { IfOk result (λ made. made.names ≡ a.now.names) }
    ensures sets { IfOk result (λ made. made.sets ≡ 0) }
    ensures formula { IfOk result (λ made. made.formula ≡ FormulaTree.True) }
    ensures states { IfOk result (λ made. made.states ≤ MOST_SUBSETS) }
    ensures passed_terms { NeedsTooManyTerms a.now.formula → result ≡ Err MonFault.Terms }
    ensures only_terms { result ≡ Err MonFault.Terms → NeedsTooManyTerms a.now.formula }
    ensures within_states { OnOk result (buchi_states (automaton_of a.now) ≤ MOST_BUCHI_STATES) }
    ensures only_states { result ≡ Err MonFault.BuchiStates → MOST_BUCHI_STATES < buchi_states (automaton_of a.now) }
    ensures within { OnOk result ((f : Fault) → MeetsLimit (automaton_of a.now) f → ⊥) }
    ensures only_classes { result ≡ Err MonFault.Classes → MeetsLimit (automaton_of a.now) Fault.Classes }
    ensures only_subsets { result ≡ Err MonFault.Subsets → MeetsLimit (automaton_of a.now) Fault.States }
{
    let buchi = to_buchi(alloc, a)?;
    buchi.well_formedness();
    let pruned = prune(alloc, &buchi)?;
    pruned.well_formedness();
    subset_form(alloc, &pruned)
}

/// The subset construction of the automaton.
fn subset_form(alloc: Global, b: &Automaton) -> Result<Automaton, MonFault>
    ensures shape { IfOk result (λ made. IsSubsetForm (automaton_of b.now) (automaton_of made)) }
    ensures states { IfOk result (λ made. made.states ≤ MOST_SUBSETS) }
    ensures classes { result ≡ Err MonFault.Classes → MeetsSubsetLimit (automaton_of b.now) Fault.Classes }
    ensures subsets { result ≡ Err MonFault.Subsets → MeetsSubsetLimit (automaton_of b.now) Fault.States }
    ensures terms { result ≡ Err MonFault.Terms → ⊥ }
    ensures buchi_states { result ≡ Err MonFault.BuchiStates → ⊥ }
{
    b.well_formedness();
    if b.starts().is_empty() {
        return Ok(without_states(alloc, b)?);
    }
    let start = start_set(b)?;
    let store = ClassStore::new(alloc, b.guards().copy(alloc)?);
    let mut system = Subsets {
        automaton: b,
        guards: store,
    };
    let limits = Limits {
        states: MOST_SUBSETS,
        classes: MOST_CLASSES,
    };
    match explore(alloc, &mut system, start, limits) {
        Ok(found) => Ok(built(alloc, b, system.guards.into_guards(), &found)?),
        Err(fault) => Err(limit_met(fault)),
    }
}

/// The automaton over the same names that has no state.
fn without_states(alloc: Global, b: &Automaton) -> Result<Automaton, Memory>
    requires { length b.now.starts ≡ 0 }
    ensures { IfOk result (λ made. automaton_of made ≡ monitor_on [] [] (automaton_of b.now)) }
{
    b.well_formedness();
    Automaton::from_parts(
        alloc,
        copy_names(b.names())?,
        b.guards().copy(alloc)?,
        0,
        Numbers::new(alloc),
        Links::new(alloc),
        0,
        Formula::True,
    )
}

/// The automaton whose states are the sets that were found, with the edges that were found.
fn built(
    alloc: Global,
    b: &Automaton,
    guards: Guards,
    found: &Explored<Numbers, Guard, ()>,
) -> Result<Automaton, Memory>
    requires some { 0 < length b.now.starts }
    requires keeps { Keeps b.now.store guards }
    requires explored { IsExplored (pointwise nat_eq) (subset_moves (automaton_of b.now)) (start_set (automaton_of b.now)) found.now.states.items (map transition_of found.now.edges.items) }
    requires sound { IsSound (FitsStore b.now guards) (IsClassGuard b.now guards) (λ _ _ _. ⊤) MOST_SUBSETS found.now.states.items found.now.edges.items }
    ensures { IfOk result (λ made. automaton_of made ≡ monitor_on found.now.states.items (map transition_of found.now.edges.items) (automaton_of b.now)) }
{
    b.well_formedness();
    class_form(alloc, b, guards, found, &WithoutMarks, 0, Formula::True)
}

/// Edges without marks.
struct WithoutMarks;

impl Marking for WithoutMarks {
    ghost use Rattle.std.specs.Prelude.{[], ⊤};

    type Output = ();

    ghost fits = { λ _ _. ⊤ };

    ghost marked = { λ _ _. [] };

    fn marks(&self, alloc: Global, _output: ()) -> Result<Marks, Memory> {
        Ok(Marks::new(alloc))
    }
}
