//! Links: the edges of an automaton, with guards for labels.

ghost use Rattle.std.specs.Prelude.{◌+◌, ◌<◌, ◌≤◌, All, AllPairs, IfOk, map};
ghost use Rattle.std.specs.List.Sorted.{IsNonDecreasing};
ghost use Rattle.aut_core.specs.Index.{IsRowStart, IsIndex};

use aut_base::{Marks, Memory, Places, Seq};
use label_guards::Guard;
use std::alloc::Global;

/// Links, in order.
pub type Links = Seq<Link>;

/// An edge whose label is a guard of the automaton's store, with the acceptance sets that it belongs to.
#[derive(Clone, Debug)]
pub struct Link {
    pub from: u32,
    pub to: u32,
    pub guard: Guard,
    pub marks: Marks,
}

// Written down, so that it is proved here alone.
impl Drop for Link {
    fn drop(self) {
        let Link {
            from: _,
            to: _,
            guard: _,
            marks: _,
        } = self;
    }
}

/// The index of each state's first link, and at the end the number of links. A state without links has that of the next state.
pub(crate) fn rows_of(alloc: Global, links: &[Link], states: u32) -> Result<Places, Memory>
    requires { IsNonDecreasing (map (λ l. l.from) links.now) }
    ensures { IfOk result (IsIndex links.now states) }
{
    let mut rows = Vec::with_capacity(alloc, states as usize + 1)?;
    let mut start = 0usize;
    rows.push(start)?;
    'states: for state in 0..states {
        let end = row_end(links, start, state);
        rows.push(end)?;
        start = end;
    }
    Ok(Places::from_vec(rows))
}

/// The index after the links that leave this state, which begin at the index `start`.
#[inline]
pub(crate) fn row_end(links: &[Link], start: usize, state: u32) -> usize
    requires in_order { IsNonDecreasing (map (λ l. l.from) links.now) }
    requires begins { IsRowStart links.now state start }
    ensures later { start ≤ result }
    ensures begins { IsRowStart links.now (state + 1) result }
{
    let mut end = start;
    'links: while end < links.len() && links[end].from == state {
        end += 1;
    }
    end
}

/// Gives proofs that the marks of each link increase.
pub(crate) fn marks_rise(links: &[Link])
    ensures { All (λ l. AllPairs (λ m n. m < n) l.marks) links.now }
{
    'links: for link in links {
        let _count = link.marks.len();
    }
}
