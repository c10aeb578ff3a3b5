//! Named texts in memory, of which one at a time may be open.

ghost use Rattle.std.specs.Prelude.{◌≡◌, ◌<◌, ◌≤◌, None, Some, [], length, MatchOption, drop, slice_get};
ghost use Rattle.std.specs.Cmp.Lexicographic.{slice_cmp};
ghost use Rattle.std.specs.FinMap.{contains_key, find, from_entries};
ghost use Rattle.std.specs.List.{slice_index_or, zip};
ghost use Rattle.std.specs.Ordering.{nat_cmp};
ghost use Rattle.aut_io.specs.Outside.{incremented, text_of};

use aut_base::{Names, Text, Words};
use std::marker::Model;

/// The store that both sources in memory share. Contracts see the texts, the unread rest of the open one, and how many times `open`
/// was called.
#[derive(Debug, Drop)]
pub(crate) struct TextStore {
    names: Names,
    texts: Words,
    /// The index of the open text in the list.
    opened: Option<usize>,
    /// How many bytes of the open text were taken.
    taken: usize,
    openings: u64,
}

impl Model for TextStore {
    ghost use Rattle.std.specs.Prelude.{◌≡◌, ◌<◌, ◌≤◌, [], IfSome, length};
    ghost use Rattle.std.specs.FinMap.{from_entries};
    ghost use Rattle.std.specs.List.{slice_index_or, zip};
    ghost use Rattle.aut_io.specs.Codes.{text_state_code};
    ghost use Rattle.aut_io.specs.InMemory.{TextState, rest_of};

    ghost Value = { TextState };

    ghost coded = { text_state_code };

    ghost view = { λ s. record { texts = from_entries (zip s.names s.texts); left = rest_of s.texts s.opened s.taken; openings = s.openings } };

    ghost invariant = { λ s. (length s.texts ≡ length s.names) × IfSome s.opened (λ k. (k < length s.texts) × (s.taken ≤ length (slice_index_or s.texts k []))) };
}

impl TextStore {
    /// The store of these texts under these names, none of them open.
    pub(crate) fn new(names: Names, texts: Words) -> Self
        requires { length texts ≡ length names }
        ensures { result ≡ record { texts = from_entries (zip names texts); left = []; openings = 0 } }
    {
        TextStore {
            names,
            texts,
            opened: None,
            taken: 0,
            openings: 0,
        }
    }

    /// Opens the text of this name, and answers whether there is one. Where there isn't, no text is open.
    pub(crate) fn open(&mut self, name: &Text) -> bool
        ensures there { result ≡ contains_key self.old.texts name.now }
        ensures opened { self.new ≡ record { texts = self.old.texts; left = text_of self.old.texts name.now; openings = incremented self.old.openings } }
    {
        self.openings = self.openings.saturating_add(1);
        self.taken = 0;
        self.opened = place_of(self.names.as_slice(), self.texts.as_slice(), name);
        self.opened.is_some()
    }

    /// Closes the open text.
    pub(crate) fn close(&mut self)
        ensures { self.new ≡ record self.old { left = [] } }
    {
        self.opened = None;
    }

    /// Takes the next byte of the open text, if any is left.
    #[tactic(auto, using(aut_base::proofs::lists::Lists::drop_one_more))]
    pub(crate) fn take(&mut self) -> Option<u8>
        ensures byte { result ≡ slice_get self.old.left 0 }
        ensures rest { self.new ≡ record self.old { left = drop 1 self.old.left } }
    {
        let Some(place) = self.opened else {
            return None
        };
        let text = self.texts.at(place);
        if self.taken < text.len() {
            let byte = *text.at(self.taken);
            self.taken += 1;
            Some(byte)
        } else {
            None
        }
    }

    /// The unread rest of the open text.
    pub(crate) fn ahead(&self) -> &[u8]
        ensures { result.now ≡ self.now.left }
    {
        match self.opened {
            Some(place) => &self.texts.at(place).as_slice()[self.taken..],
            None => b"",
        }
    }

    /// Takes this many bytes of the rest.
    pub(crate) fn skip(&mut self, count: usize)
        requires { count ≤ length self.old.left }
        ensures { self.new ≡ record self.old { left = drop count self.old.left } }
    {
        let Some(place) = self.opened else { return };
        let left = self.texts.at(place).len() - self.taken;
        self.taken += count.min(left);
    }
}

/// The index of the text of this name.
fn place_of(names: &[Text], texts: &[Text], name: &Text) -> Option<usize>
    requires { length texts.now ≡ length names.now }
    ensures { MatchOption result (find (slice_cmp nat_cmp) name.now (zip names.now texts.now) ≡ None)
        (λ k. (k < length texts.now) × (find (slice_cmp nat_cmp) name.now (zip names.now texts.now) ≡ Some (slice_index_or texts.now k []))) }
{
    for (place, other) in names.iter().enumerate() {
        if name == other {
            return Some(place);
        }
    }
    None
}
