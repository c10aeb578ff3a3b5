//! A transition system on numbers that are doubled.

use aut_base::{Memory, Numbers};
use exploration::{StepFault, TransitionSystem};
use std::alloc::Global;

/// A number.
#[derive(Clone, Copy, Debug, PartialEq, Eq, Hash)]
pub(crate) struct Number {
    pub(crate) n: u32,
}

/// Numbers below 7, with edges to the double and to the double plus one, modulo 7; the output of an edge is whether 7 was
/// taken off. A step above the bound fails. Classes are indices of a list that grows, as guards are of a store.
#[derive(Drop)]
pub(crate) struct Doubling {
    pub(crate) bound: u32,
    pub(crate) made: Numbers,
}

impl TransitionSystem for Doubling {
    ghost use Rattle.std.specs.Prelude.{◌≡◌, ◌+◌, ◌*◌, ◌<◌, ℕ, Some, leb, nat_eq, slice_get};
    ghost use Rattle.base_rows.specs.inner.Systems.{doubling_moves, number_tells, same_numbers};

    type State = Number;

    type Class = usize;

    type Output = bool;

    ghost Seen = { ℕ };

    ghost seen = { λ x. x.n };

    ghost same = { nat_eq };

    ghost Frame = { ℕ };

    ghost frame = { λ s. s.bound };

    ghost moves = { λ s. doubling_moves s.bound };

    ghost fits = { λ s n. n < 7 };

    ghost is_class = { λ s n k c. slice_get s.made c ≡ Some k };

    ghost is_output = { λ _ n k taken. taken ≡ leb 7 (2 * n + k) };

    ghost tells = { number_tells };

    ghost same_tells = { same_numbers };

    fn classes(
        &mut self,
        alloc: Global,
        _state: &Number,
        most: u32,
    ) -> Result<Option<Vec<usize>>, Memory> {
        if most < 2 {
            return Ok(None);
        }
        let first = self.made.len();
        self.made.push(0)?;
        let second = self.made.len();
        self.made.push(1)?;
        let classes = Vec::from_slice(alloc, &[first, second])?;
        Ok(Some(classes))
    }

    fn step(
        &mut self,
        _alloc: Global,
        state: &Number,
        _number: u32,
        class: usize,
    ) -> Result<Option<(Number, bool)>, StepFault> {
        let sum = 2 * state.n + *self.made.at(class);
        let n = sum % 7;
        if n > self.bound {
            return Err(StepFault::Failed);
        }
        Ok(Some((Number { n }, sum >= 7)))
    }
}
