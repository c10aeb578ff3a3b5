//! A transition system on lists that lose their least items.

ghost use Rattle.std.specs.Prelude.{◌≡◌, IfOk, filter, ltb};

use aut_base::{Memory, Numbers};
use exploration::{StepFault, TransitionSystem};
use std::alloc::Global;

/// Lists, with an edge for each class to the items above it, and none where no item is above it.
#[derive(Drop)]
pub(crate) struct Rising {
    pub(crate) steps: u32,
}

impl TransitionSystem for Rising {
    ghost use Rattle.std.specs.Prelude.{◌≡◌, ℕ, List, nat_eq, ⊤};
    ghost use Rattle.std.specs.Cmp.Lexicographic.{bytes_decides, pointwise};
    ghost use Rattle.base_rows.specs.inner.Systems.{rising_moves};

    type State = Numbers;

    type Class = u32;

    type Output = ();

    ghost Seen = { List ℕ };

    ghost seen = { λ xs. xs };

    ghost same = { pointwise nat_eq };

    ghost Frame = { ⊤ };

    ghost frame = { λ _. tt };

    ghost moves = { λ _. rising_moves };

    ghost fits = { λ _ _. ⊤ };

    ghost is_class = { λ _ _ k c. c ≡ k };

    ghost is_output = { λ _ _ _ _. ⊤ };

    ghost tells = { bytes_decides };

    ghost same_tells = { bytes_decides };

    fn classes(
        &mut self,
        alloc: Global,
        _state: &Numbers,
        most: u32,
    ) -> Result<Option<Vec<u32>>, Memory> {
        if most < 3 {
            return Ok(None);
        }
        Ok(Some(Vec::from_slice(alloc, &[0, 1, 2])?))
    }

    fn step(
        &mut self,
        alloc: Global,
        state: &Numbers,
        _number: u32,
        class: u32,
    ) -> Result<Option<(Numbers, ())>, StepFault> {
        self.steps = self.steps.saturating_add(1);
        match above(alloc, state.as_slice(), class) {
            Ok(left) if left.is_empty() => Ok(None),
            Ok(left) => Ok(Some((left, ()))),
            Err(Memory) => Err(StepFault::Memory),
        }
    }
}

/// The numbers above this one.
fn above(alloc: Global, items: &[u32], class: u32) -> Result<Numbers, Memory>
    ensures { IfOk result (λ left. left ≡ filter (λ x. ltb class x) items.now) }
{
    let mut left = Numbers::new(alloc);
    'items: for item in items {
        if *item > class {
            left.push(*item)?;
        }
    }
    Ok(left)
}
