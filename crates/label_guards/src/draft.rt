//! Guards that are made to find something out, and don't stay.

ghost use Rattle.std.specs.Prelude.{◌≡◌, ◌&&◌, ◌||◌, ℕ, Bool, IfOk};
ghost use Rattle.label_guards.specs.Guards.{IsGuardOf, truth_in};
ghost use Rattle.label_guards.specs.Nodes.{Grows};
ghost use Rattle.label_guards.specs.Operations.{IsJoin};
ghost use Rattle.label_guards.specs.Store.{Has, HasPlace, Keeps, places};

use crate::computed::Computed;
use crate::guard::Guard;
use crate::guards::{Guards, Operation};
use aut_base::Memory;
use std::alloc::Global;
use std::marker::Model;

// Why so: 'What is made to judge an automaton is taken back' in docs/DECISIONS.md.
/// A store whose new guards go again, with the results that led to them.
pub struct Draft {
    guards: Guards,
    /// How many nodes stay, and the results that were known of them.
    count: usize,
    results: Computed,
}

// Written down, so that it is proved here alone.
impl Drop for Draft {
    fn drop(self) {
        let Draft {
            guards: _,
            count: _,
            results: _,
        } = self;
    }
}

impl Model for Draft {
    ghost use Rattle.std.specs.Prelude.{◌≤◌, length, take};
    ghost use Rattle.label_guards.specs.Drafts.{Drafts};
    ghost use Rattle.label_guards.specs.Computed.{AreComputed};

    ghost Value = { Drafts };

    ghost view = { λ s. record {
      kept = record { names = s.guards.names; nodes = take s.count s.guards.nodes };
      now = s.guards;
    } };

    ghost invariant = { λ s. (s.count ≤ length s.guards.nodes) × AreComputed (record { names = s.guards.names; nodes = take s.count s.guards.nodes }) s.results };
}

impl Draft {
    /// The store, to which nothing was added yet.
    pub fn new(alloc: Global, guards: Guards) -> Draft
        ensures kept { result.kept ≡ guards }
        ensures now { result.now ≡ guards }
    {
        let mut guards = guards;
        let count = guards.count();
        let results = guards.take_results(alloc);
        Draft {
            guards,
            count,
            results,
        }
    }

    /// The store as it is.
    #[inline]
    pub fn guards(&self) -> &Guards
        ensures { result.now ≡ self.now.now }
    {
        &self.guards
    }

    /// The guard that is true where both are.
    #[tactic(auto, using(crate::proofs::labelled::LabelTruth::keeps))]
    pub fn and(&mut self, g: Guard, h: Guard) -> Result<Guard, Memory>
        requires left { Has self.old.now g }
        requires right { Has self.old.now h }
        ensures kept { self.new.kept ≡ self.old.kept }
        ensures keeps { Keeps self.old.now self.new.now }
        ensures and { IfOk result (IsGuardOf self.new.now (λ on. truth_in self.old.now g on && truth_in self.old.now h on)) }
    {
        self.guards.reduced();
        let place = self.combine(Operation::And, g.place, h.place)?;
        self.guards.reduced();
        Ok(Guard { place })
    }

    /// The guard that is true where one of them is, or both.
    #[tactic(auto, using(crate::proofs::labelled::LabelTruth::keeps))]
    pub fn or(&mut self, g: Guard, h: Guard) -> Result<Guard, Memory>
        requires left { Has self.old.now g }
        requires right { Has self.old.now h }
        ensures kept { self.new.kept ≡ self.old.kept }
        ensures keeps { Keeps self.old.now self.new.now }
        ensures or { IfOk result (IsGuardOf self.new.now (λ on. truth_in self.old.now g on || truth_in self.old.now h on)) }
    {
        self.guards.reduced();
        let place = self.combine(Operation::Or, g.place, h.place)?;
        self.guards.reduced();
        Ok(Guard { place })
    }

    /// The place of the operation's result.
    fn combine(&mut self, operation: Operation, g: usize, h: usize) -> Result<usize, Memory>
        requires left { HasPlace self.old.now g }
        requires right { HasPlace self.old.now h }
        ensures kept { self.new.kept ≡ self.old.kept }
        ensures grows { Grows self.old.now self.new.now }
        ensures joined { IfOk result (λ place. IsJoin self.new.now operation g h place) }
    {
        self.guards.combine(operation, g, h)
    }

    /// The store as it was, without what was made in it since.
    pub fn into_guards(self) -> Guards
        ensures { result ≡ self.kept }
    {
        let Draft {
            guards,
            count,
            results,
        } = self;
        let mut guards = guards;
        guards.cut(count, results);
        guards
    }
}
