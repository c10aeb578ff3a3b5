//! The transition systems that can be explored.

ghost use Rattle.std.specs.Prelude.{◌≡◌, ◌<◌, ◌≤◌, ◌↔◌, ℕ, Bool, true, IfOk, MatchOption};
ghost use Rattle.exploration.specs.TransitionFunctions.{AreClassHandles, IsStepAnswer, KeepsSystem, TransitionFunction};

use crate::fault::StepFault;
use aut_base::Memory;
use std::alloc::Global;
use std::hash::Hash;

/// A deterministic transition system. Each state has numbered classes (such as classes of letters), and the step for each class leads
/// to at most one state, with an output. Contracts see a state as the value `seen`. The transition function (`moves`) never changes,
/// though the system may grow, for example by a store of labels.
pub trait TransitionSystem {
    // Why so: 'States are seen as values' in docs/DECISIONS.md.
    /// The states.
    type State: Eq + Hash + Drop;

    /// The handle of a class, such as a guard in a store of labels.
    type Class: Copy;

    // Why so: 'The mark of an edge is told by the step' in docs/DECISIONS.md.
    /// What a step yields besides its successor, such as the mark of an edge.
    type Output: Copy;

    // what contracts see of states
    ghost Seen: { Type 0 };

    ghost seen: { Self.State → Seen };

    // equality of what is seen, as a test
    ghost same: { Seen → Seen → Bool };

    // the part of the system that never changes, such as the automaton that it is made from
    ghost Frame: { Type 0 };

    ghost frame: { Self → Frame };

    // the transition function: how many classes a state has, and the outcome of the step for each of them
    ghost moves: { Self → TransitionFunction Seen };

    // the states for which the system may be asked
    ghost fits: { Self → Seen → Type 0 };

    // the handle is that of the class of this number
    ghost is_class: { Self → Seen → ℕ → Self.Class → Type 0 };

    // the output is one of the step for the class of this number
    ghost is_output: { Frame → Seen → ℕ → Self.Output → Type 0 };

    /// The handles of a state's classes, in order, or None exactly where there are more than `most`.
    fn classes(
        &mut self,
        alloc: Global,
        state: &Self::State,
        most: u32,
    ) -> Result<Option<Vec<Self::Class>>, Memory>
        requires { fits self.old (seen state.now) }
        ensures frame { frame self.new ≡ frame self.old }
        ensures keeps { KeepsSystem (moves self.old) (moves self.new) (fits self.old) (fits self.new) (is_class self.old) (is_class self.new) }
        ensures classes { IfOk result (λ found. MatchOption found (most < (moves self.old).count (seen state.now))
            (λ cs. AreClassHandles (is_class self.new (seen state.now)) ((moves self.old).count (seen state.now)) cs.items)) }
        ensures few { IfOk result (λ found. MatchOption found (Unit {0}) (λ cs. (moves self.old).count (seen state.now) ≤ most)) };

    /// The successor of a state for this class, with the step's output, or None where there is none.
    fn step(
        &mut self,
        alloc: Global,
        state: &Self::State,
        number: u32,
        class: Self::Class,
    ) -> Result<Option<(Self::State, Self::Output)>, StepFault>
        requires fits { fits self.old (seen state.now) }
        requires number { number < (moves self.old).count (seen state.now) }
        requires class { is_class self.old (seen state.now) number class }
        ensures frame { frame self.new ≡ frame self.old }
        ensures keeps { KeepsSystem (moves self.old) (moves self.new) (fits self.old) (fits self.new) (is_class self.old) (is_class self.new) }
        ensures step { IsStepAnswer seen ((moves self.old).step (seen state.now) number) result }
        ensures gives { IfOk result (λ found. MatchOption found (Unit {0}) (λ gift. fits self.new (seen gift.0))) }
        ensures output { IfOk result (λ found. MatchOption found (Unit {0}) (λ gift. is_output (frame self.old) (seen state.now) number gift.1)) };

    // states compare as equal exactly where contracts see the same of them
    ghost tells: { (a b : Self.State) → (Self.State.eq a b ≡ true) ↔ (seen a ≡ seen b) };

    ghost same_tells: { (x y : Seen) → (same x y ≡ true) ↔ (x ≡ y) };
}
