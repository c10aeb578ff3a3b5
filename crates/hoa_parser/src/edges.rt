//! The edges of a state as they are written.

ghost use Rattle.std.specs.Prelude.{◌≡◌, ◌∷◌, ◌++◌, [], length, IfOk, OnOk};
ghost use Rattle.hoa_parser.specs.inner.HeldEdges.{held_edges};

use crate::RawEdge;
use aut_base::{Memory, Seq};
use std::alloc::Global;
use std::marker::Model;
use std::{mem, slice};

/// The edges of a state, in order. One alone lies in the state itself: in a great automaton most states have one. Contracts see the
/// list.
#[derive(Debug)]
pub struct RawEdges {
    alloc: Global,
    held: HeldEdges,
}

// Written down, so that it is proved here alone.
impl Drop for RawEdges {
    fn drop(self) {
        let RawEdges { alloc: _, held: _ } = self;
    }
}

/// How they are stored.
#[derive(Debug, Drop)]
pub(crate) enum HeldEdges {
    None,
    One(RawEdge),
    More(Seq<RawEdge>),
}

impl Model for RawEdges {
    ghost use Rattle.std.specs.Coded.{codes};
    ghost use Rattle.std.specs.Prelude.{List};
    ghost use Rattle.hoa_parser.specs.contracts.raw.RawLabel as label;
    ghost use Rattle.hoa_parser.specs.declared.raw.RawEdge.{RawEdge};
    ghost use Rattle.hoa_parser.specs.inner.HeldEdges.{held_edges};

    ghost Value = { List RawEdge };

    ghost coded = { Prim.hlevel (codes, label.the_row.coded) };

    ghost view = { λ edges. held_edges edges.held };
}

impl RawEdges {
    /// No edge yet.
    pub fn new(alloc: Global) -> RawEdges
        ensures { result ≡ [] }
    {
        RawEdges {
            alloc,
            held: HeldEdges::None,
        }
    }

    /// The edges as a slice.
    #[inline]
    pub fn as_slice(&self) -> &[RawEdge]
        ensures { result.now ≡ self.now }
    {
        match &self.held {
            HeldEdges::None => &[],
            HeldEdges::One(edge) => slice::from_ref(edge),
            HeldEdges::More(edges) => edges.as_slice(),
        }
    }

    /// The number of edges.
    #[inline]
    pub fn len(&self) -> usize
        ensures { result ≡ length self.now }
    {
        self.as_slice().len()
    }

    /// Adds an edge at the end. Refused for want of memory, it drops that edge and may drop others.
    #[inline]
    pub fn push(&mut self, edge: RawEdge) -> Result<(), Memory>
        ensures { OnOk result (self.new ≡ self.old ++ edge ∷ []) }
    {
        match &mut self.held {
            HeldEdges::None => {
                self.held = HeldEdges::One(edge);
                Ok(())
            }
            HeldEdges::One(_) => self.push_second(edge),
            HeldEdges::More(edges) => edges.push(edge),
        }
    }

    /// The same where one stands there alone.
    fn push_second(&mut self, edge: RawEdge) -> Result<(), Memory>
        ensures { OnOk result (self.new ≡ self.old ++ edge ∷ []) }
    {
        let first = mem::replace(&mut self.held, HeldEdges::None);
        self.held = HeldEdges::More(longer(listed(self.alloc, first)?, edge)?);
        Ok(())
    }

    /// The edges as a list of its own.
    pub fn into_list(self) -> Result<Seq<RawEdge>, Memory>
        ensures { IfOk result (λ edges. edges ≡ self) }
    {
        let RawEdges { alloc, held } = self;
        listed(alloc, held)
    }
}

/// These edges as a list.
fn listed(alloc: Global, held: HeldEdges) -> Result<Seq<RawEdge>, Memory>
    ensures { IfOk result (λ edges. edges ≡ held_edges held) }
{
    match held {
        HeldEdges::None => Ok(Seq::new(alloc)),
        HeldEdges::One(edge) => longer(Seq::new(alloc), edge),
        HeldEdges::More(edges) => Ok(edges),
    }
}

/// The list with this edge at its end.
fn longer(edges: Seq<RawEdge>, edge: RawEdge) -> Result<Seq<RawEdge>, Memory>
    ensures { IfOk result (λ longer. longer ≡ edges ++ edge ∷ []) }
{
    let mut edges = edges;
    edges.push(edge)?;
    Ok(edges)
}
