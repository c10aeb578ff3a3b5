//! The deterministic parity automaton of an automaton.

ghost use Rattle.std.specs.Prelude.{◌≡◌, ◌+◌, ◌*◌, ◌≤◌, Err, IfErr, IfOk, OnOk, false, map};
ghost use Rattle.aut_base.specs.Formula.{Inf};
ghost use Rattle.aut_base.specs.declared.limit.TheConstants.{MOST_NODES, MOST_TREES};
ghost use Rattle.aut_core.specs.SymbolicAutomata.{automaton_of};
ghost use Rattle.aut_core.specs.OtherNames.{AcceptTheSame};
ghost use Rattle.degeneralise.specs.Buchi.{NeedsTooManyTerms, buchi};
ghost use Rattle.exploration.specs.Explorations.{IsSound, transition_of};
ghost use Rattle.exploration.specs.Reached.{IsExplored};
ghost use Rattle.exploration.specs.declared.fault.Fault.{Fault};
ghost use Rattle.label_guards.specs.Store.{Keeps};
ghost use Rattle.letter_classes.specs.SetClasses.{FitsStore, IsClassGuard};
ghost use Rattle.parity_det.specs.Complements.{IsParityRefusal, IsWithinParity};
ghost use Rattle.parity_det.specs.Determinisation.{IsDeterminisation, IsTreeForm, MeetsTreeLimit, parity_on, tree_moves};
ghost use Rattle.safra_trees.specs.Same.{same_nodes};
ghost use Rattle.parity_det.specs.Promises.{HasFewSets, IsParityMinOdd};
ghost use Rattle.parity_det.specs.inner.Systems.{IsClassEvent, MeetsFirst};
ghost use Rattle.parity_det.specs.declared.fault.CompFault.{CompFault};
ghost use Rattle.parity_det.specs.declared.fault.DetFault.{DetFault};
ghost use Rattle.safra_trees.specs.Trees.{first_tree, root_states};
ghost use Rattle.safra_trees.specs.View.{packed_tree};

use crate::fault::{CompFault, DetFault};
use crate::marks::{EventMarks, width};
use crate::trees::Trees;
use acc_forms::parity_min_odd;
use aut_base::{MOST_CLASSES, MOST_TREES, Memory, Numbers};
use aut_core::Automaton;
use aut_ops::prune;
use degeneralise::to_buchi;
use exploration::{Explored, Limits, explore};
use label_guards::{Guard, Guards};
use letter_classes::{ClassStore, class_form};
use safra_trees::{Event, Moves, PackedTree, Scratch, start};
use std::alloc::Global;

/// Determinises a Büchi automaton. The states are the compact Safra trees that are reached from the starts of the
/// automaton, pruned, in the order in which they are met. The letters that the edges from the root's states don't tell
/// apart have one edge, whose one mark is the priority of the step: the least of 2f for the red names f, whose nodes are
/// removed, and 2g + 1 for the green names g, whose children are merged into them, or 2N without either. There are 2N + 1
/// sets, where N is the greatest number of nodes, at least 1, and the condition is parity min odd: the least set that a run
/// is in again and again has to be odd.
///
/// Refused as the first of these that is met: `Classes` where the trees that are expanded have more than
/// `aut_base::MOST_CLASSES` classes of letters together, `Nodes` where a step's tree has more than `aut_base::MOST_NODES`
/// nodes, `Trees` where a step's tree is new and `aut_base::MOST_TREES` are listed.
pub fn determinise(alloc: Global, b: &Automaton) -> Result<Automaton, DetFault>
    requires sets { b.now.sets ≡ 1 }
    requires formula { b.now.formula ≡ Inf 0 false }
    ensures accepts { IfOk result (λ made. AcceptTheSame (automaton_of made) (automaton_of b.now)) }
    ensures shape { IfOk result (λ made. IsDeterminisation (automaton_of b.now) (automaton_of made)) }
    ensures parity { IfOk result (λ made. IsParityMinOdd (automaton_of made)) }
    ensures few { IfOk result (λ made. HasFewSets (automaton_of b.now) (automaton_of made)) }
    ensures names { IfOk result (λ made. made.names ≡ b.now.names) }
    ensures states { IfOk result (λ made. made.states ≤ MOST_TREES) }
    ensures sets { IfOk result (λ made. made.sets ≤ 2 * MOST_NODES + 1) }
    ensures within { OnOk result ((f : Fault) → MeetsTreeLimit (automaton_of b.now) f → ⊥) }
    ensures only_trees { result ≡ Err DetFault.Trees → MeetsTreeLimit (automaton_of b.now) Fault.States }
    ensures only_nodes { result ≡ Err DetFault.Nodes → MeetsTreeLimit (automaton_of b.now) Fault.StepFailed }
    ensures only_classes { result ≡ Err DetFault.Classes → MeetsTreeLimit (automaton_of b.now) Fault.Classes }
{
    let pruned = prune(alloc, b)?;
    b.well_formedness();
    pruned.well_formedness();
    tree_form(alloc, &pruned)
}

/// The deterministic parity automaton of an automaton: its Büchi form, determinised. Refused as `Terms` or `BuchiStates`
/// where `degeneralise::to_buchi` refuses, and then as `determinise`.
pub fn parity(alloc: Global, a: &Automaton) -> Result<Automaton, CompFault>
    ensures accepts { IfOk result (λ made. AcceptTheSame (automaton_of made) (automaton_of a.now)) }
    ensures shape { IfOk result (λ made. IsDeterminisation (buchi (automaton_of a.now)) (automaton_of made)) }
    ensures parity { IfOk result (λ made. IsParityMinOdd (automaton_of made)) }
    ensures few { IfOk result (λ made. HasFewSets (buchi (automaton_of a.now)) (automaton_of made)) }
    ensures names { IfOk result (λ made. made.names ≡ a.now.names) }
    ensures states { IfOk result (λ made. made.states ≤ MOST_TREES) }
    ensures sets { IfOk result (λ made. made.sets ≤ 2 * MOST_NODES + 1) }
    ensures within { OnOk result (IsWithinParity (automaton_of a.now)) }
    ensures refused { IfErr result (IsParityRefusal (automaton_of a.now)) }
    ensures passed_terms { NeedsTooManyTerms a.now.formula → result ≡ Err CompFault.Terms }
{
    let buchi = to_buchi(alloc, a)?;
    buchi.well_formedness();
    Ok(determinise(alloc, &buchi)?)
}

/// The automaton whose states are the trees that are reached from the tree of the starts.
fn tree_form(alloc: Global, b: &Automaton) -> Result<Automaton, DetFault>
    ensures shape { IfOk result (λ made. IsTreeForm (automaton_of b.now) (automaton_of made)) }
    ensures names { IfOk result (λ made. made.names ≡ b.now.names) }
    ensures states { IfOk result (λ made. made.states ≤ MOST_TREES) }
    ensures sets { IfOk result (λ made. made.sets ≤ 2 * MOST_NODES + 1) }
    ensures trees { result ≡ Err DetFault.Trees → MeetsFirst (automaton_of b.now) Fault.States }
    ensures nodes { result ≡ Err DetFault.Nodes → MeetsFirst (automaton_of b.now) Fault.StepFailed }
    ensures classes { result ≡ Err DetFault.Classes → MeetsFirst (automaton_of b.now) Fault.Classes }
{
    b.well_formedness();
    let begun = start(alloc, b.starts())?;
    let first = PackedTree::of(alloc, &begun)?;
    let store = ClassStore::new(alloc, b.guards().copy(alloc)?);
    let mut system = Trees {
        automaton: b,
        guards: store,
        moves: Moves::new(alloc),
        set: Numbers::new(alloc),
        room: Scratch::new(alloc),
    };
    let limits = Limits {
        states: MOST_TREES,
        classes: MOST_CLASSES,
    };
    let found = explore(alloc, &mut system, first, limits)?;
    Ok(built(alloc, b, system.guards.into_guards(), &found)?)
}

/// The automaton whose states are the trees that were found, with the edges that were found.
fn built(
    alloc: Global,
    b: &Automaton,
    guards: Guards,
    found: &Explored<PackedTree, Guard, Event>,
) -> Result<Automaton, Memory>
    requires keeps { Keeps b.now.store guards }
    requires explored { IsExplored same_nodes (tree_moves (automaton_of b.now)) (first_tree b.now.states b.now.starts) (map packed_tree found.now.states.items) (map transition_of found.now.edges.items) }
    requires sound { IsSound (λ t. FitsStore b.now guards (root_states t)) (λ t k g. IsClassGuard b.now guards (root_states t) k g)
        (λ t k event. IsClassEvent b.now t k event) MOST_TREES (map packed_tree found.now.states.items) found.now.edges.items }
    ensures few { IfOk result (λ made. made.sets ≤ 2 * MOST_NODES + 1) }
    ensures is { IfOk result (λ made. automaton_of made ≡ parity_on (map packed_tree found.now.states.items) (map transition_of found.now.edges.items) (automaton_of b.now)) }
{
    b.well_formedness();
    let most = width(found.states.as_slice());
    let sets = most + most + 1;
    let formula = parity_min_odd(alloc, sets)?;
    class_form(alloc, b, guards, found, &EventMarks { most }, sets, formula)
}
