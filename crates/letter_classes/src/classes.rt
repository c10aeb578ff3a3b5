//! The classes of letters for a set of states.

ghost use Rattle.std.specs.Prelude.{◌<◌, ◌≤◌, All, IfOk, MatchOption, length};
ghost use Rattle.aut_core.specs.SymbolicAutomata.{automaton_of};
ghost use Rattle.exploration.specs.TransitionFunctions.{AreClassHandles};
ghost use Rattle.label_guards.specs.Store.{Keeps};
ghost use Rattle.letter_classes.specs.SetClasses.{IsClassGuard, set_classes};

use crate::guards::set_guards;
use crate::store::ClassStore;
use aut_base::Memory;
use aut_core::Automaton;
use label_guards::Guard;
use std::alloc::Global;

/// One guard for each class of letters: letters that satisfy the labels of the same edges from the states of the set are in one class.
/// The classes are in the order of their least valuations. Answers None exactly where there are more than `most`. The guards are of the
/// given store, which has those of the automaton. For an empty set the one guard is `t`.
pub fn classes_of_set(
    alloc: Global,
    a: &Automaton,
    guards: &mut ClassStore,
    set: &[u32],
    most: u32,
) -> Result<Option<Vec<Guard>>, Memory>
    requires states { All (λ q. q < a.now.states) set.now }
    requires store { Keeps a.now.store guards.old }
    ensures keeps { Keeps guards.old guards.new }
    ensures classes { IfOk result (λ found. MatchOption found (most < length (set_classes (automaton_of a.now) set.now))
        (λ cs. AreClassHandles (IsClassGuard a.now guards.new set.now) (length (set_classes (automaton_of a.now) set.now)) cs.items)) }
    ensures few { IfOk result (λ found. MatchOption found (Unit {0}) (λ cs. length (set_classes (automaton_of a.now) set.now) ≤ most)) }
{
    a.well_formedness();
    let list = set_guards(alloc, a, set)?;
    guards.classes(alloc, list, most)
}
