//! A source in memory that never fails.

ghost use Rattle.std.specs.Prelude.{◌≡◌, ◌≤◌, [], length, take, IsOk};
ghost use Rattle.std.specs.FinMap.{from_entries};
ghost use Rattle.std.specs.List.{zip};

use crate::inputs::Inputs;
use crate::text_store::TextStore;
use aut_base::{Failed, Names, OpenFail, Text, Words};
use std::marker::Model;

/// Named texts in memory. No call fails: a name that no text has opens the empty text. The whole unread rest is at hand.
#[derive(Debug)]
pub struct SureInputs {
    store: TextStore,
}

// Written down, so that it is proved here alone.
impl Drop for SureInputs {
    fn drop(self) {
        let SureInputs { store: _ } = self;
    }
}

impl Model for SureInputs {
    ghost use Rattle.aut_io.specs.Codes.{text_state_code};
    ghost use Rattle.aut_io.specs.InMemory.{TextState};

    ghost Value = { TextState };

    ghost coded = { text_state_code };

    ghost view = { λ s. s.store };
}

impl SureInputs {
    /// The source of these texts under these names. No text is open.
    pub fn new(names: Names, texts: Words) -> Self
        requires { length texts ≡ length names }
        ensures { result ≡ record { texts = from_entries (zip names texts); left = []; openings = 0 } }
    {
        SureInputs {
            store: TextStore::new(names, texts),
        }
    }
}

impl Inputs for SureInputs {
    ghost use Rattle.aut_io.specs.Seen.{Nexts, Opens, SkipsBytes, seen_of_sure};

    ghost seen = { seen_of_sure };

    ghost at_hand = { λ s. s.left };

    ghost may_open = { λ _. Unit {0} };

    fn open(&mut self, name: &Text) -> Result<(), OpenFail>
        ensures ok { IsOk result }
        ensures opens { Opens (seen_of_sure self.old) name.now result (seen_of_sure self.new) }
    {
        let _there = self.store.open(name);
        Ok(())
    }

    fn next(&mut self) -> Result<Option<u8>, Failed>
        ensures ok { IsOk result }
        ensures nexts { Nexts (seen_of_sure self.old) result (seen_of_sure self.new) }
    {
        Ok(self.store.take())
    }

    fn ahead(&self) -> &[u8]
        ensures { result.now ≡ self.now.left }
    {
        self.store.ahead()
    }

    fn skip(&mut self, count: usize)
        requires { count ≤ length self.old.left }
        ensures skips { SkipsBytes (seen_of_sure self.old) (take count self.old.left) (seen_of_sure self.new) }
    {
        self.store.skip(count);
    }
}
