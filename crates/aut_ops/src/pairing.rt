//! A product under construction: its pairs of states, and the links between them.

ghost use Rattle.std.specs.Prelude.{◌≡◌, ◌<◌, ◌≤◌, [], All, IfOk, IsErrOf, OnOk, Some, flat_map, length, map, slice_get};
ghost use Rattle.aut_ops.specs.Products.{same_pair};
ghost use Rattle.aut_ops.specs.declared.fault.ExploreFault.{ExploreFault};
ghost use Rattle.aut_base.specs.declared.limit.TheConstants.{MOST_PAIRS};
ghost use Rattle.exploration.specs.Turns.{with_new};
ghost use Rattle.aut_ops.specs.inner.Pairings.{AddsJointEdges, AreBeyond, CanMeet, followed, meeting};

use crate::fault::ExploreFault;
use aut_base::{MOST_PAIRS, Memory};
use aut_core::{Link, Links};
use indexmap::IndexSet;
use label_guards::Guards;
use std::alloc::Global;
use std::marker::Model;

/// The most pairs and links for which memory is allocated at the start: few may be reached.
const MOST_ROOM: usize = 1_000;

/// A product as far as it is made: the pairs in the order in which they were found, and the links between their indices.
#[derive(Drop)]
pub(crate) struct Pairing {
    guards: Guards,
    pairs: IndexSet<(u32, u32)>,
    links: Links,
}

impl Model for Pairing {
    ghost use Rattle.aut_ops.specs.inner.Pairings.{PairingStage};

    ghost Value = { PairingStage };

    ghost view = { λ s. record { store = s.guards; pairs = s.pairs.keys; links = s.links } };
}

impl Pairing {
    /// A product without pairs, over this store, with memory for this many pairs and links, but at most for `MOST_ROOM` of each.
    pub(crate) fn new(
        alloc: Global,
        guards: Guards,
        pairs: usize,
        links: usize,
    ) -> Result<Pairing, Memory>
        ensures store { IfOk result (λ p. p.store ≡ guards) }
        ensures pairs { IfOk result (λ p. p.pairs ≡ []) }
        ensures links { IfOk result (λ p. p.links ≡ []) }
    {
        let pairs = IndexSet::with_capacity(alloc, pairs.min(MOST_ROOM))?;
        let links = Links::from_vec(Vec::with_capacity(alloc, links.min(MOST_ROOM))?);
        Ok(Pairing {
            guards,
            pairs,
            links,
        })
    }

    /// The number of pairs.
    pub(crate) fn len(&self) -> usize
        ensures { result ≡ length self.now.pairs }
    {
        self.pairs.len()
    }

    /// The pair at this index.
    pub(crate) fn pair_at(&self, place: usize) -> (u32, u32)
        requires { place < length self.now.pairs }
        ensures { slice_get self.now.pairs place ≡ Some result }
    {
        self.pairs.as_slice()[place]
    }

    /// The store, the links and the pairs.
    pub(crate) fn into_parts(self) -> (Guards, Links, IndexSet<(u32, u32)>)
        ensures store { result.0 ≡ self.store }
        ensures links { result.1 ≡ self.links }
        ensures pairs { result.2.keys ≡ self.pairs }
    {
        (self.guards, self.links, self.pairs)
    }

    /// The number of the pair, which is its index. The pair is added unless it is there.
    pub(crate) fn number(&mut self, pair: (u32, u32)) -> Result<u32, ExploreFault>
        ensures store { self.new.store ≡ self.old.store }
        ensures links { self.new.links ≡ self.old.links }
        ensures pairs { OnOk result (self.new.pairs ≡ with_new same_pair self.old.pairs pair) }
        ensures place { IfOk result (λ place. slice_get self.new.pairs place ≡ Some pair) }
        ensures few { OnOk result (length self.new.pairs ≤ MOST_PAIRS) }
        ensures many { IsErrOf result ExploreFault.Pairs → MOST_PAIRS < length (with_new same_pair self.old.pairs pair) }
    {
        let place = put(&mut self.pairs, pair)?;
        if self.pairs.len() > MOST_PAIRS as usize {
            return Err(ExploreFault::Pairs);
        }
        Ok(place as u32)
    }

    /// Adds the product link of these two, from the pair at this index, unless their labels are disjoint.
    fn meet(&mut self, at: u32, link: &Link, other: &Link, sets: u32) -> Result<(), ExploreFault>
        requires meet { CanMeet self.old at sets link.now other.now }
        requires few { length self.old.pairs ≤ MOST_PAIRS }
        ensures adds { OnOk result (AddsJointEdges self.old self.new (meeting self.old.store sets link.now other.now)) }
        ensures few { OnOk result (length self.new.pairs ≤ MOST_PAIRS) }
        ensures many { IsErrOf result ExploreFault.Pairs → AreBeyond MOST_PAIRS self.old.pairs (map (λ j. j.to) (meeting self.old.store sets link.now other.now)) }
    {
        let guard = self.guards.and(link.guard, other.guard)?;
        if self.guards.is_false(guard) {
            return Ok(());
        }
        let to = self.number((link.to, other.to))?;
        let marks = link.marks.joint(&other.marks, sets)?;
        self.links.push(Link {
            from: at,
            guard,
            to,
            marks,
        })?;
        Ok(())
    }

    /// Adds the product links of this one with each of the others.
    fn follow(
        &mut self,
        at: u32,
        link: &Link,
        others: &[Link],
        sets: u32,
    ) -> Result<(), ExploreFault>
        requires meet { All (CanMeet self.old at sets link.now) others.now }
        requires few { length self.old.pairs ≤ MOST_PAIRS }
        ensures adds { OnOk result (AddsJointEdges self.old self.new (followed self.old.store sets others.now link.now)) }
        ensures few { OnOk result (length self.new.pairs ≤ MOST_PAIRS) }
        ensures many { IsErrOf result ExploreFault.Pairs → AreBeyond MOST_PAIRS self.old.pairs (map (λ j. j.to) (followed self.old.store sets others.now link.now)) }
    {
        'others: for other in others {
            self.meet(at, link, other, sets)?;
        }
        Ok(())
    }

    /// Adds the product links of each of the first with each of the others.
    pub(crate) fn spread(
        &mut self,
        at: u32,
        links: &[Link],
        others: &[Link],
        sets: u32,
    ) -> Result<(), ExploreFault>
        requires meet { All (λ l. All (CanMeet self.old at sets l) others.now) links.now }
        requires few { length self.old.pairs ≤ MOST_PAIRS }
        ensures adds { OnOk result (AddsJointEdges self.old self.new (flat_map (followed self.old.store sets others.now) links.now)) }
        ensures few { OnOk result (length self.new.pairs ≤ MOST_PAIRS) }
        ensures many { IsErrOf result ExploreFault.Pairs → AreBeyond MOST_PAIRS self.old.pairs (map (λ j. j.to) (flat_map (followed self.old.store sets others.now) links.now)) }
    {
        'links: for link in links {
            self.follow(at, link, others, sets)?;
        }
        Ok(())
    }
}

/// The index of the pair, which is added unless it is there.
fn put(pairs: &mut IndexSet<(u32, u32)>, pair: (u32, u32)) -> Result<usize, Memory>
    ensures pairs { OnOk result (pairs.new.keys ≡ with_new same_pair pairs.old.keys pair) }
    ensures place { IfOk result (λ place. slice_get pairs.new.keys place ≡ Some pair) }
{
    let (place, _) = pairs.insert_full(pair)?;
    Ok(place)
}
