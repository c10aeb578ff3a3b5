//! The marks of steps.

ghost use Rattle.std.specs.Prelude.{◌≡◌, ◌+◌, ◌<◌, ◌^◌, map};
ghost use Rattle.parity_det.specs.Determinisation.{width};
ghost use Rattle.parity_det.specs.inner.Systems.{mark_of};
ghost use Rattle.safra_trees.specs.View.{packed_tree};

use aut_base::{Marks, Memory};
use letter_classes::Marking;
use safra_trees::{Event, PackedTree};
use std::alloc::Global;

/// The greatest number of nodes of these trees, and at least 1.
pub(crate) fn width(trees: &[PackedTree]) -> u32
    ensures { result ≡ width (map packed_tree trees.now) }
{
    let mut most = 1;
    'trees: for tree in trees {
        most = tree.nodes().max(most);
    }
    most
}

/// Marks from the events of steps, where trees have at most `most` nodes.
#[derive(Drop)]
pub(crate) struct EventMarks {
    pub(crate) most: u32,
}

impl Marking for EventMarks {
    ghost use Rattle.std.specs.Prelude.{[], ◌∷◌, ◌<◌, ◌^◌};
    ghost use Rattle.parity_det.specs.inner.Systems.{mark_of};

    type Output = Event;

    ghost fits = { λ s event. mark_of s.most event < 2 ^ 32 };

    ghost marked = { λ s event. mark_of s.most event ∷ [] };

    fn marks(&self, alloc: Global, event: Event) -> Result<Marks, Memory> {
        let mut marks = Marks::new(alloc);
        marks.push(mark(event, self.most) as u32)?;
        Ok(marks)
    }
}

/// The least of 2f for the least red f and 2g + 1 for the least green g, or twice `most` where there is neither.
fn mark(event: Event, most: u32) -> u64
    ensures { result ≡ mark_of most event }
{
    let most = u64::from(most);
    match (event.red, event.green) {
        (None, None) => most + most,
        (Some(red), None) => twice(red),
        (None, Some(green)) => twice(green) + 1,
        (Some(red), Some(green)) => twice(red).min(twice(green) + 1),
    }
}

fn twice(name: u32) -> u64
    ensures is { result ≡ name + name }
    ensures few { result < 2 ^ 33 }
{
    u64::from(name) + u64::from(name)
}
