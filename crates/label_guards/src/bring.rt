//! Guards of one store taken into another.

ghost use Rattle.std.specs.Prelude.{◌≡◌, ◌<◌, ◌≤◌, ℕ, Bool, IfOk, List, if◌then◌else◌, length};
ghost use Rattle.std.specs.List.{slice_index_or};
ghost use Rattle.label_guards.specs.Guards.{GoesBelow, IsGuardOf, truth_in};
ghost use Rattle.label_guards.specs.Nodes.{Grows, IsReducedDiagram};
ghost use Rattle.label_guards.specs.Operations.{IsPlaceOf};
ghost use Rattle.label_guards.specs.Store.{Has, HasPlace, Keeps, Store, outcome, places};
ghost use Rattle.label_guards.specs.Tables.{AreBrought, AreDone, IsBrought, PlaceGoesBelow};

use crate::guard::Guard;
use crate::guards::{Guards, Operation};
use crate::table::{Done, done_at, put_done};
use aut_base::{Memory, Numbers};
use std::alloc::Global;
use std::marker::Model;

/// What was brought of one store into another so far, so that a node which several guards share is gone through once.
pub struct Brought {
    done: Done,
}

// Written down, so that it is proved here alone.
impl Drop for Brought {
    fn drop(self) {
        let Brought { done: _ } = self;
    }
}

impl Model for Brought {
    ghost use Rattle.std.specs.Prelude.{ℕ, List};

    ghost Value = { List (ℕ × ℕ) };

    ghost view = { λ s. s.done.entries };
}

impl Brought {
    /// Nothing yet, of any store.
    pub fn new(alloc: Global) -> Brought
        ensures { (other s : Store) (to : List ℕ) → AreBrought other s to result }
    {
        Brought {
            done: Done::new(alloc),
        }
    }
}

impl Guards {
    /// The guard of another store, in this one. Proposition k of the other store is here the one at place k of the
    /// list, and for those on which the guard doesn't depend the list may have any number; the places may be in any order.
    /// Each node of the guard is gone through once.
    pub fn bring(
        &mut self,
        alloc: Global,
        other: &Guards,
        g: Guard,
        to: &Numbers,
    ) -> Result<Guard, Memory>
        requires has { Has other.now g }
        requires count { length to.now ≡ other.now.names }
        requires within { GoesBelow self.old.names (λ k. slice_index_or to.now k 0) other.now g }
        ensures keeps { Keeps self.old self.new }
        ensures brought { IfOk result (IsGuardOf self.new (λ on. truth_in other.now g (λ k. on (slice_index_or to.now k 0)))) }
    {
        let mut brought = Brought::new(alloc);
        self.bring_more(&mut brought, other, g, to)
    }

    /// The same, beside other guards of that store which are here already.
    #[tactic(auto, using(crate::proofs::labelled::LabelTruth::keeps))]
    pub fn bring_more(
        &mut self,
        brought: &mut Brought,
        other: &Guards,
        g: Guard,
        to: &Numbers,
    ) -> Result<Guard, Memory>
        requires has { Has other.now g }
        requires count { length to.now ≡ other.now.names }
        requires within { GoesBelow self.old.names (λ k. slice_index_or to.now k 0) other.now g }
        requires before { AreBrought other.now self.old to.now brought.old }
        ensures keeps { Keeps self.old self.new }
        ensures so_far { AreBrought other.now self.new to.now brought.new }
        ensures brought { IfOk result (IsGuardOf self.new (λ on. truth_in other.now g (λ k. on (slice_index_or to.now k 0)))) }
    {
        other.reduced();
        let place = self.bring_with(&mut brought.done, other, g.place, to)?;
        self.reduced();
        Ok(Guard { place })
    }

    /// The same of a place, where the table has what was found so far.
    fn bring_with(
        &mut self,
        done: &mut Done,
        other: &Guards,
        place: usize,
        to: &Numbers,
    ) -> Result<usize, Memory>
        requires has { HasPlace other.now place }
        requires count { length to.now ≡ other.now.names }
        requires within { PlaceGoesBelow self.old.names (λ k. slice_index_or to.now k 0) other.now place }
        requires done { AreDone (IsBrought other.now self.old (λ k. slice_index_or to.now k 0)) done.old.entries }
        ensures grows { Grows self.old self.new }
        ensures kept { places self.old ≤ places self.new }
        ensures done { AreDone (IsBrought other.now self.new (λ k. slice_index_or to.now k 0)) done.new.entries }
        ensures brought { IfOk result (IsBrought other.now self.new (λ k. slice_index_or to.now k 0) place) }
    {
        if place < 2 {
            return Ok(place);
        }
        if let Some(found) = done_at(done, place) {
            return Ok(found);
        }
        other.reduced();
        let node = other.node_at(place);
        let low = self.bring_with(done, other, node.low, to)?;
        let high = self.bring_with(done, other, node.high, to)?;
        let found = self.decide(*to.at(node.prop as usize), low, high)?;
        put_done(done, place, found)?;
        Ok(found)
    }

    /// The place where the proposition decides between these two, whatever they ask for.
    fn decide(&mut self, prop: u32, low: usize, high: usize) -> Result<usize, Memory>
        requires prop { prop < self.old.names }
        requires low { HasPlace self.old low }
        requires high { HasPlace self.old high }
        ensures grows { Grows self.old self.new }
        ensures kept { places self.old ≤ places self.new }
        ensures decided { IfOk result (IsPlaceOf self.new (λ on. if on prop then outcome self.old.nodes on high else outcome self.old.nodes on low)) }
    {
        if prop < self.level(low) && prop < self.level(high) {
            return self.choice(prop, low, high);
        }
        let holds = self.choice(prop, 0, 1)?;
        let fails = self.choice(prop, 1, 0)?;
        let in_high = self.combine(Operation::And, holds, high)?;
        let in_low = self.combine(Operation::And, fails, low)?;
        self.combine(Operation::Or, in_high, in_low)
    }
}
