//! The names of an automaton's atomic propositions.

ghost use Rattle.std.specs.Prelude.{◌≡◌, ◌≢◌, ◌==◌, ◌<◌, ℕ, List, [], ◌∷◌, ◌++◌, length, All, AllPairs, Contains, MatchBool, MatchOption, ◌≤◌, ◌^◌, OnOk, OnErr, slice_get};
ghost use Rattle.std.specs.List.{slice_index_or};

use crate::{Memory, Text, Words};
use std::alloc::Global;
use std::marker::Model;

/// Texts that differ from one another. Contracts see the list of the texts.
#[derive(Clone, Debug, Drop)]
pub struct Names {
    items: Vec<Text>,
}

impl Model for Names {
    ghost use Rattle.std.specs.Prelude.{ℕ, List, ◌≢◌, AllPairs};

    ghost Value = { List (List ℕ) };

    ghost view = { λ s. s.items.items };

    ghost invariant = { λ s. AllPairs (λ a b. a ≢ b) s.items.items };
}

impl Names {
    /// An empty list.
    pub fn new(alloc: Global) -> Self
        ensures { result ≡ [] }
    {
        Names {
            items: Vec::new(alloc),
        }
    }

    /// The list of these names, without a copy.
    pub fn from_texts(texts: Words) -> Self
        requires { AllPairs (λ a b. a ≢ b) texts }
        ensures { result ≡ texts }
    {
        Names {
            items: texts.into_vec(),
        }
    }

    /// The number of names.
    pub fn len(&self) -> usize
        ensures { result ≡ length self.now }
    {
        self.items.len()
    }

    /// Whether there is no name.
    pub fn is_empty(&self) -> bool
        ensures { result ≡ (length self.now == 0) }
    {
        self.items.is_empty()
    }

    /// The name at this index, from 0.
    pub fn at(&self, place: usize) -> &Text
        requires { place < length self.now }
        ensures value { Some result.now ≡ slice_get self.now place }
        ensures item { (d : List ℕ) → slice_index_or self.now place d ≡ result.now }
    {
        &self.items[place]
    }

    /// Whether this name is in the list.
    pub fn has(&self, name: &Text) -> bool
        ensures { MatchBool result (Contains self.now name.now) (All (λ other. other ≢ name.now) self.now) }
    {
        place_of(&self.items, name).is_some()
    }

    /// The index of this name, from 0, or `None` exactly where the list doesn't have it.
    pub fn position(&self, name: &Text) -> Option<u32>
        requires { length self.now ≤ 2 ^ 32 }
        ensures { MatchOption result (All (λ other. other ≢ name.now) self.now) (λ place. slice_get self.now place ≡ Some name.now) }
    {
        match place_of(&self.items, name) {
            Some(place) => Some(place as u32),
            None => None,
        }
    }

    /// The names as a slice. No two of them are equal.
    pub fn as_slice(&self) -> &[Text]
        ensures items { result.now ≡ self.now }
        ensures distinct { AllPairs (λ a b. a ≢ b) self.now }
    {
        &self.items
    }

    /// Adds a name that isn't there yet. Refused for want of memory, it drops the name and leaves the list as it was.
    pub fn push(&mut self, item: Text) -> Result<(), Memory>
        requires { All (λ name. name ≢ item) self.old }
        ensures ok { OnOk result (self.new ≡ self.old ++ item ∷ []) }
        ensures err { OnErr result (self.new ≡ self.old) }
    {
        match self.items.push(item) {
            Ok(()) => Ok(()),
            Err(_) => Err(Memory),
        }
    }
}

// The index of this name, or `None` exactly where the list doesn't have it.
fn place_of(items: &[Text], name: &Text) -> Option<usize>
    ensures { MatchOption result (All (λ other. other ≢ name.now) items.now) (λ place. slice_get items.now place ≡ Some name.now) }
{
    'places: for place in 0..items.len() {
        if items[place] == *name {
            return Some(place);
        }
    }
    None
}
