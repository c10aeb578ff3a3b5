//! Valuations by their numbers: one that meets a guard, the least one, and whether a guard is true at one.

ghost use Rattle.std.specs.Prelude.{◌≡◌, ◌≢◌, ◌<◌, ◌≤◌, ◌^◌, ℕ, IfOk, MatchOption, true};
ghost use Rattle.aut_base.specs.declared.limit.TheConstants.{MOST_NAMES};
ghost use Rattle.aut_base.specs.Valuation.{holds_in, truth_on};
ghost use Rattle.label_guards.specs.Guards.{IsNeverMet, truth_in};
ghost use Rattle.label_guards.specs.Leasts.{IsLeastAt, IsLeastIn, IsMetAt, bits_of};
ghost use Rattle.label_guards.specs.Store.{Has, HasPlace, label_in, outcome};

use crate::guard::Guard;
use crate::guards::Guards;
use crate::pick::weight;
use crate::table::Results;
use aut_base::Memory;
use std::alloc::Global;

impl Guards {
    /// The number of some valuation that meets the guard, or `None` where none does. Each proposition is asked for once at
    /// most, and no memory is taken.
    pub fn meeting(&self, g: Guard) -> Option<u64>
        requires { Has self.now g }
        ensures { MatchOption result (IsNeverMet self.now g) (λ number. truth_on (label_in self.now g) (bits_of self.now.names number) ≡ true) }
    {
        self.reduced();
        if g.place == 0 {
            return None;
        }
        Some(self.meeting_at(g.place))
    }

    /// The same of a place.
    fn meeting_at(&self, place: usize) -> u64
        requires has { HasPlace self.now place }
        requires not_false { place ≢ 0 }
        ensures met { IsMetAt self.now place result }
        ensures small { result < 2 ^ MOST_NAMES }
    {
        self.reduced();
        if place == 1 {
            return 0;
        }
        let node = self.node_at(place);
        if node.low == 0 {
            self.meeting_at(node.high) + weight(node.prop)
        } else {
            self.meeting_at(node.low)
        }
    }

    /// The number of the least valuation that meets the guard, or `None` where none meets it. Each node of the guard
    /// is visited once.
    pub(crate) fn least(&self, alloc: Global, g: Guard) -> Result<Option<u64>, Memory>
        requires { Has self.now g }
        ensures place { IfOk result (IsLeastAt self.now g.place) }
        ensures label { IfOk result (IsLeastIn self.now g) }
    {
        self.reduced();
        let mut leasts = Results::new(alloc);
        self.least_with(&mut leasts, g.place)
    }

    /// Whether the guard is true at the valuation of this number. Each proposition is asked for once at most.
    pub fn holds_at(&self, g: Guard, number: u64) -> bool
        requires { Has self.now g }
        ensures place { result ≡ outcome self.now.nodes (holds_in (bits_of self.now.names number)) g.place }
        ensures label { result ≡ truth_in self.now g (holds_in (bits_of self.now.names number)) }
    {
        self.reduced();
        let mut place = g.place;
        'walk: while 2 <= place {
            place = self.side_at(place, number);
        }
        place == 1
    }

    /// Where the valuation of this number goes on from a place.
    fn side_at(&self, place: usize, number: u64) -> usize
        requires inner { 2 ≤ place }
        requires has { HasPlace self.now place }
        ensures smaller { result < place }
        ensures truth { outcome self.now.nodes (holds_in (bits_of self.now.names number)) result ≡ outcome self.now.nodes (holds_in (bits_of self.now.names number)) place }
    {
        self.reduced();
        let node = self.node_at(place);
        if bit(number, node.prop) {
            node.high
        } else {
            node.low
        }
    }
}

/// Whether the proposition holds at the valuation of this number.
fn bit(number: u64, prop: u32) -> bool
    requires { prop < MOST_NAMES }
    ensures { (names : ℕ) → prop < names → result ≡ holds_in (bits_of names number) prop }
{
    (number >> prop) % 2 == 1
}
