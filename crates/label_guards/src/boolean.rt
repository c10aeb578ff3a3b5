//! The Boolean operations on guards, and what is true of them.

ghost use Rattle.std.specs.Prelude.{◌≡◌, ◌<◌, ◌≤◌, ◌↔◌, ℕ, Bool, true, false, not, ◌&&◌, ◌||◌, List, IfOk, IsTrue};
ghost use Rattle.label_guards.specs.Guards.{AreMetAlike, AreNames, IsGuardOf, IsMetByNone, IsMetByTheSame, IsNeverMet, truth_in};
ghost use Rattle.label_guards.specs.Store.{Has, Keeps, label_in};

use crate::guard::Guard;
use crate::guards::{Guards, Operation};
use aut_base::Memory;

#[tactic(auto, using(crate::proofs::labelled::LabelTruth::keeps))]
impl Guards {
    /// Whether the store has a guard of this number.
    pub fn has(&self, g: Guard) -> bool
        ensures { IsTrue result ↔ Has self.now g }
    {
        g.place < self.places()
    }

    /// The guard that is never true, `f`.
    #[inline]
    pub fn never(&self) -> Guard
        ensures { IsGuardOf self.now (λ on. false) result }
    {
        self.reduced();
        Guard { place: 0 }
    }

    /// The guard that is always true, `t`.
    #[inline]
    pub fn always(&self) -> Guard
        ensures { IsGuardOf self.now (λ on. true) result }
    {
        self.reduced();
        Guard { place: 1 }
    }

    /// The guard that is true where both are.
    #[inline]
    pub fn and(&mut self, g: Guard, h: Guard) -> Result<Guard, Memory>
        requires left { Has self.old g }
        requires right { Has self.old h }
        ensures keeps { Keeps self.old self.new }
        ensures and { IfOk result (IsGuardOf self.new (λ on. truth_in self.old g on && truth_in self.old h on)) }
    {
        self.reduced();
        let place = self.combine(Operation::And, g.place, h.place)?;
        self.reduced();
        Ok(Guard { place })
    }

    /// The guard that is true where one of them is, or both.
    #[inline]
    pub fn or(&mut self, g: Guard, h: Guard) -> Result<Guard, Memory>
        requires left { Has self.old g }
        requires right { Has self.old h }
        ensures keeps { Keeps self.old self.new }
        ensures or { IfOk result (IsGuardOf self.new (λ on. truth_in self.old g on || truth_in self.old h on)) }
    {
        self.reduced();
        let place = self.combine(Operation::Or, g.place, h.place)?;
        self.reduced();
        Ok(Guard { place })
    }

    /// The guard that is true where this one isn't.
    pub fn not(&mut self, g: Guard) -> Result<Guard, Memory>
        requires { Has self.old g }
        ensures keeps { Keeps self.old self.new }
        ensures not { IfOk result (IsGuardOf self.new (λ on. not (truth_in self.old g on))) }
    {
        self.reduced();
        let place = self.combine(Operation::Xor, g.place, 1)?;
        self.reduced();
        Ok(Guard { place })
    }

    /// Whether the guard is never true, in constant time: `f` has one number.
    #[inline]
    pub fn is_false(&self, g: Guard) -> bool
        requires { Has self.now g }
        ensures valuations { IsTrue result ↔ IsNeverMet self.now g }
        ensures letters { (names : List (List ℕ)) → AreNames self.now names → (IsTrue result ↔ IsMetByNone self.now names g) }
    {
        self.reduced();
        g.place == 0
    }

    /// Whether the guards have the same truth, in constant time: they then have the same number.
    #[inline]
    pub fn same(&self, g: Guard, h: Guard) -> bool
        requires left { Has self.now g }
        requires right { Has self.now h }
        ensures labels { IsTrue result ↔ (label_in self.now g ≡ label_in self.now h) }
        ensures valuations { IsTrue result ↔ AreMetAlike self.now g h }
        ensures letters { (names : List (List ℕ)) → AreNames self.now names → (IsTrue result ↔ IsMetByTheSame self.now names g h) }
    {
        self.reduced();
        g.place == h.place
    }
}
