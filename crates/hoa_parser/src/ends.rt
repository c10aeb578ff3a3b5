//! Where an edge leads, and its acceptance sets, as they are written.

ghost use Rattle.std.specs.Prelude.{◌≡◌, [], ◌∷◌, IfOk};

use aut_base::{FewNumbers, Memory};
use std::alloc::Global;
use std::marker::Model;

// Why so: 'What is short lies in the value itself' in docs/DECISIONS.md.
/// The states to which an edge leads, and the acceptance sets that it is in. One state and up to two sets are stored in the value
/// itself, without an allocation: in most automata no edge has more. Contracts see both lists.
#[derive(Debug)]
pub struct EdgeEnds {
    held: HeldEnds,
}

// Written down, so that it is proved here alone.
impl Drop for EdgeEnds {
    fn drop(self) {
        let EdgeEnds { held: _ } = self;
    }
}

/// How they are stored: one state with the sets behind it, or two lists.
#[derive(Debug, Drop)]
pub(crate) enum HeldEnds {
    One([u32; 1]),
    Two([u32; 2]),
    Three([u32; 3]),
    More(Box<EndLists>),
}

/// Both lists, of any length.
#[derive(Debug, Drop)]
pub(crate) struct EndLists {
    pub(crate) to: FewNumbers,
    pub(crate) marks: FewNumbers,
}

impl Model for EdgeEnds {
    ghost use Rattle.hoa_parser.specs.Ends.{WrittenEnds};
    ghost use Rattle.hoa_parser.specs.inner.HeldEnds.{held_ends};

    ghost Value = { WrittenEnds };

    ghost view = { λ ends. held_ends ends.held };
}

impl EdgeEnds {
    /// These states and these sets.
    pub fn new(alloc: Global, to: FewNumbers, marks: FewNumbers) -> Result<EdgeEnds, Memory>
        ensures { IfOk result (λ ends. ends ≡ record { to = to; marks = marks }) }
    {
        match to.as_slice() {
            [state] => EdgeEnds::at_state(alloc, *state, marks),
            _ => EdgeEnds::listed(alloc, to, marks),
        }
    }

    /// This state alone, and these sets.
    #[inline]
    pub(crate) fn at_state(alloc: Global, state: u32, marks: FewNumbers) -> Result<EdgeEnds, Memory>
        ensures { IfOk result (λ ends. ends ≡ record { to = state ∷ []; marks = marks }) }
    {
        let held = match marks.as_slice() {
            [] => HeldEnds::One([state]),
            [set] => HeldEnds::Two([state, *set]),
            [set, other] => HeldEnds::Three([state, *set, *other]),
            _ => return EdgeEnds::with_many(alloc, state, marks),
        };
        Ok(EdgeEnds { held })
    }

    /// The same, where the sets are many.
    #[cold]
    fn with_many(alloc: Global, state: u32, marks: FewNumbers) -> Result<EdgeEnds, Memory>
        ensures { IfOk result (λ ends. ends ≡ record { to = state ∷ []; marks = marks }) }
    {
        let mut to = FewNumbers::new(alloc);
        to.push(state)?;
        EdgeEnds::listed(alloc, to, marks)
    }

    /// These states and these sets as two lists.
    fn listed(alloc: Global, to: FewNumbers, marks: FewNumbers) -> Result<EdgeEnds, Memory>
        ensures { IfOk result (λ ends. ends ≡ record { to = to; marks = marks }) }
    {
        let held = HeldEnds::More(Box::new(alloc, EndLists { to, marks })?);
        Ok(EdgeEnds { held })
    }

    /// The states, joined by `&`.
    #[inline]
    pub fn to(&self) -> &[u32]
        ensures { result.now ≡ self.now.to }
    {
        match &self.held {
            HeldEnds::One(numbers) => &numbers[..1],
            HeldEnds::Two(numbers) => &numbers[..1],
            HeldEnds::Three(numbers) => &numbers[..1],
            HeldEnds::More(lists) => lists.to.as_slice(),
        }
    }

    /// The acceptance sets.
    #[inline]
    pub fn marks(&self) -> &[u32]
        ensures { result.now ≡ self.now.marks }
    {
        match &self.held {
            HeldEnds::One(numbers) => &numbers[1..],
            HeldEnds::Two(numbers) => &numbers[1..],
            HeldEnds::Three(numbers) => &numbers[1..],
            HeldEnds::More(lists) => lists.marks.as_slice(),
        }
    }
}
