//! The subset construction as a transition system that is explored.

ghost use Rattle.std.specs.Prelude.{◌≡◌};

use crate::goals::goals;
use aut_base::{Memory, Numbers};
use aut_core::Automaton;
use exploration::{StepFault, TransitionSystem};
use label_guards::Guard;
use letter_classes::{ClassStore, classes_of_set};
use std::alloc::Global;

/// The transition system: its states are the sets of states of an automaton, as lists of numbers in rising order. The store
/// has the guards of the automaton and of the classes that were computed.
#[derive(Drop)]
pub(crate) struct Subsets<'a> {
    pub(crate) automaton: &'a Automaton,
    pub(crate) guards: ClassStore,
}

impl<'a> TransitionSystem for Subsets<'a> {
    ghost use Rattle.std.specs.Prelude.{ℕ, List, nat_eq, ⊤};
    ghost use Rattle.std.specs.Cmp.Lexicographic.{bytes_decides, pointwise};
    ghost use Rattle.aut_core.specs.SymbolicAutomata.{SymbolicAutomaton, automaton_of};
    ghost use Rattle.letter_classes.specs.SetClasses.{FitsStore, IsClassGuard};
    ghost use Rattle.monitor_form.specs.Subsets.{subset_moves};

    type State = Numbers;

    type Class = Guard;

    type Output = ();

    ghost Seen = { List ℕ };

    ghost seen = { λ set. set };

    ghost same = { pointwise nat_eq };

    ghost Frame = { SymbolicAutomaton };

    ghost frame = { λ s. s.automaton.now };

    ghost moves = { λ s. subset_moves (automaton_of s.automaton.now) };

    ghost fits = { λ s set. FitsStore s.automaton.now s.guards set };

    ghost is_class = { λ s set k g. IsClassGuard s.automaton.now s.guards set k g };

    ghost is_output = { λ _ _ _ _. ⊤ };

    ghost tells = { bytes_decides };

    ghost same_tells = { bytes_decides };

    fn classes(
        &mut self,
        alloc: Global,
        state: &Numbers,
        most: u32,
    ) -> Result<Option<Vec<Guard>>, Memory> {
        classes_of_set(
            alloc,
            self.automaton,
            &mut self.guards,
            state.as_slice(),
            most,
        )
    }

    fn step(
        &mut self,
        alloc: Global,
        state: &Numbers,
        _number: u32,
        class: Guard,
    ) -> Result<Option<(Numbers, ())>, StepFault> {
        self.automaton.well_formedness();
        let Some(number) = self.guards.guards().meeting(class) else {
            unreachable!()
        };
        let goals = goals(alloc, self.automaton, state.as_slice(), number)?;
        if goals.is_empty() {
            return Ok(None);
        }
        Ok(Some((goals, ())))
    }
}
