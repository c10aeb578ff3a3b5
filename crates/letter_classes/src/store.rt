//! A store of guards with a cache of the classes of letters.

ghost use Rattle.std.specs.Prelude.{◌≡◌, ◌<◌, ◌≤◌, All, IfOk, MatchOption, length};
ghost use Rattle.label_guards.specs.ClassLeasts.{class_leasts, labels_in};
ghost use Rattle.label_guards.specs.Store.{Has, Keeps};
ghost use Rattle.letter_classes.specs.Known.{IsKnown};

use crate::known::{Known, known_classes};
use aut_base::Memory;
use label_guards::{Guard, GuardList, Guards};
use std::alloc::Global;
use std::marker::Model;

/// A store of guards with a cache of the classes for each list of its guards. Many sets of states have edges under the same
/// guards, and so the same classes. Contracts see the store alone.
#[derive(Drop)]
pub struct ClassStore {
    guards: Guards,
    known: Known,
}

impl Model for ClassStore {
    ghost use Rattle.label_guards.specs.Store.{Store};
    ghost use Rattle.letter_classes.specs.Known.{AreClassesKnown};

    ghost Value = { Store };

    ghost view = { λ s. s.guards };

    ghost invariant = { λ s. AreClassesKnown s.guards s.known.entries };
}

impl ClassStore {
    /// This store with an empty cache.
    pub fn new(alloc: Global, guards: Guards) -> ClassStore
        ensures { result ≡ guards }
    {
        ClassStore {
            guards,
            known: Known::new(alloc),
        }
    }

    /// The store without the cache.
    pub fn into_guards(self) -> Guards
        ensures { result ≡ self }
    {
        self.guards
    }

    /// One guard for each class of letters that satisfy the same guards of the list, in the order of their least valuations, or
    /// None exactly where there are more than `most`.
    pub(crate) fn classes(
        &mut self,
        alloc: Global,
        list: GuardList,
        most: u32,
    ) -> Result<Option<Vec<Guard>>, Memory>
        requires { All (Has self.old) list }
        ensures keeps { Keeps self.old self.new }
        ensures classes { IfOk result (λ found. MatchOption found (most < length (class_leasts self.old.names (labels_in self.old list))) (λ cs. IsKnown self.new list cs.items)) }
        ensures few { IfOk result (λ found. MatchOption found (Unit {0}) (λ cs. length cs.items ≤ most)) }
    {
        known_classes(alloc, &mut self.guards, &mut self.known, list, most)
    }

    /// The store without the cache, by reference.
    pub fn guards(&self) -> &Guards
        ensures { result.now ≡ self.now }
    {
        &self.guards
    }
}
