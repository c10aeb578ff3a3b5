//! What is known of each of several texts, found by the text.

ghost use Rattle.std.specs.Prelude.{◌≡◌, ℕ, List, None, Some, true, is_none, IfOk};
ghost use Rattle.std.specs.Map.{update};
ghost use Rattle.hoa_reader.specs.inner.Places.{place_in};
ghost use Rattle.aut_base.specs.Text.{same_text};

use aut_base::Memory;
use hoa_lexer::Name;
use std::alloc::Global;
use std::collections::BTreeMap;

/// Texts that differ from one another, with what is known of each.
#[derive(Drop)]
pub(crate) struct Places<'a, V> {
    places: BTreeMap<&'a [u8], V>,
}

impl<'a, V: Copy> Places<'a, V> {
    /// No text.
    pub(crate) fn new(alloc: Global) -> Self
        ensures { (q : List ℕ) → place_in result q ≡ None }
    {
        Places {
            places: BTreeMap::new(alloc),
        }
    }

    /// What is known of the name, if it is there.
    pub(crate) fn find(&self, name: &Name) -> Option<V>
        ensures { result ≡ place_in self.now name.now }
    {
        self.places.get(name.as_bytes()).copied()
    }

    /// Says this of the text of these bytes, and answers whether it is new.
    pub(crate) fn add(&mut self, text: &'a [u8], value: V) -> Result<bool, Memory>
        ensures fresh { IfOk result (λ fresh. fresh ≡ is_none (place_in self.old text.now)) }
        ensures added { IfOk result (λ fresh. (q : List ℕ) → place_in self.new q ≡ update same_text (place_in self.old) text.now (Some value) q) }
    {
        Ok(self.places.insert(text, value)?.is_none())
    }
}
