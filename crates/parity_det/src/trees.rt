//! The trees of an automaton, as a system that is explored.

ghost use Rattle.std.specs.Prelude.{◌≡◌};

use crate::fault::step_fault;
use crate::moves::moves_at;
use aut_base::{Memory, Numbers};
use aut_core::Automaton;
use exploration::{StepFault, TransitionSystem};
use label_guards::Guard;
use letter_classes::{ClassStore, classes_of_set};
use safra_trees::{Event, Moves, PackedTree, Scratch, step_packed};
use std::alloc::Global;
use std::mem;

/// The trees of an automaton, and a store that has its guards and those of the classes that were asked for.
#[derive(Drop)]
pub(crate) struct Trees<'a> {
    pub(crate) automaton: &'a Automaton,
    pub(crate) guards: ClassStore,
    /// A list for the moves of a step, which the next one uses again.
    pub(crate) moves: Moves,
    /// A list for the states of a tree's root, which the next tree uses again.
    pub(crate) set: Numbers,
    /// What each step fills.
    pub(crate) room: Scratch,
}

impl<'a> TransitionSystem for Trees<'a> {
    ghost use Rattle.aut_core.specs.SymbolicAutomata.{SymbolicAutomaton, automaton_of};
    ghost use Rattle.letter_classes.specs.SetClasses.{FitsStore, IsClassGuard};
    ghost use Rattle.parity_det.specs.Determinisation.{tree_moves};
    ghost use Rattle.parity_det.specs.inner.Systems.{IsClassEvent};
    ghost use Rattle.safra_trees.specs.Same as lists;
    ghost use Rattle.safra_trees.specs.Trees.{Node, root_states};
    ghost use Rattle.safra_trees.specs.View.{packed_tree};
    ghost use Rattle.std.specs.Prelude.{List};

    type State = PackedTree;

    type Class = Guard;

    /// The least names that were red and green.
    type Output = Event;

    ghost Seen = { List Node };

    ghost seen = { packed_tree };

    ghost same = { lists.same_nodes };

    ghost Frame = { SymbolicAutomaton };

    ghost frame = { λ s. s.automaton.now };

    ghost moves = { λ s. tree_moves (automaton_of s.automaton.now) };

    ghost fits = { λ s t. FitsStore s.automaton.now s.guards (root_states t) };

    ghost is_class = { λ s t k g. IsClassGuard s.automaton.now s.guards (root_states t) k g };

    ghost is_output = { λ c t k event. IsClassEvent c t k event };

    ghost tells = { λ a b. lists.same_tells (packed_tree a) (packed_tree b) };

    ghost same_tells = { lists.same_tells };

    fn classes(
        &mut self,
        alloc: Global,
        state: &PackedTree,
        most: u32,
    ) -> Result<Option<Vec<Guard>>, Memory> {
        let list = mem::replace(&mut self.set, Numbers::new(alloc));
        self.set = state.root_states(list)?;
        let set = self.set.as_slice();
        classes_of_set(alloc, self.automaton, &mut self.guards, set, most)
    }

    fn step(
        &mut self,
        alloc: Global,
        state: &PackedTree,
        _number: u32,
        class: Guard,
    ) -> Result<Option<(PackedTree, Event)>, StepFault> {
        self.automaton.well_formedness();
        let Some(number) = self.guards.guards().meeting(class) else {
            unreachable!()
        };
        let list = mem::replace(&mut self.set, Numbers::new(alloc));
        self.set = state.root_states(list)?;
        let list = mem::replace(&mut self.moves, Moves::new(alloc));
        let moves = moves_at(list, self.automaton, self.set.as_slice(), number)?;
        let states = self.automaton.states();
        match step_packed(alloc, states, state, &moves, &mut self.room) {
            Ok(made) => {
                self.moves = moves;
                Ok(Some(made))
            }
            Err(fault) => Err(step_fault(fault)),
        }
    }
}
