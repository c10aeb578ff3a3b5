//! A source in memory whose calls fail where that was asked for.

ghost use Rattle.std.specs.Prelude.{◌≡◌, ◌≤◌, ◌||◌, [], not, is_err, length, OnErr, IsErrOf};
ghost use Rattle.std.specs.FinMap.{contains_key, from_entries};
ghost use Rattle.std.specs.List.{zip};
ghost use Rattle.aut_io.specs.InMemory.{is_failing};
ghost use Rattle.aut_io.specs.Outside.{incremented};

use crate::failing_calls::FailingCalls;
use crate::inputs::Inputs;
use crate::text_store::TextStore;
use aut_base::{Failed, Names, Numbers, OpenFail, Text, Words};
use std::marker::Model;

/// Named texts in memory. A call of `open` or `next` fails where its number, counted from 0 over both,
/// is listed, and `open` also where no text has the name. It has no bytes at hand, so each byte is taken by a call of `next`,
/// which is counted and may fail.
#[derive(Debug)]
pub struct MemInputs {
    store: TextStore,
    calls: FailingCalls,
    open_faults: u64,
    read_faults: u64,
}

// Written down, so that it is proved here alone.
impl Drop for MemInputs {
    fn drop(self) {
        let MemInputs {
            store: _,
            calls: _,
            open_faults: _,
            read_faults: _,
        } = self;
    }
}

impl Model for MemInputs {
    ghost use Rattle.aut_io.specs.Codes.{source_state_code};
    ghost use Rattle.aut_io.specs.InMemory.{SourceState};

    ghost Value = { SourceState };

    ghost coded = { source_state_code };

    ghost view = { λ m. record {
      texts = m.store.texts;
      left = m.store.left;
      openings = m.store.openings;
      failing = m.calls.listed;
      calls = m.calls.made;
      open_faults = m.open_faults;
      read_faults = m.read_faults;
    } };
}

impl MemInputs {
    /// The source of these texts under these names. No text is open, and no call was made yet.
    pub fn new(names: Names, texts: Words, failing: Numbers) -> Self
        requires { length texts ≡ length names }
        ensures { result ≡ record { texts = from_entries (zip names texts); left = []; openings = 0; failing = failing; calls = 0; open_faults = 0; read_faults = 0 } }
    {
        MemInputs {
            store: TextStore::new(names, texts),
            calls: FailingCalls::new(failing),
            open_faults: 0,
            read_faults: 0,
        }
    }
}

impl Inputs for MemInputs {
    ghost use Rattle.aut_io.specs.Seen.{Nexts, Opens, seen_in_memory};

    ghost seen = { seen_in_memory };

    ghost at_hand = { λ _. [] };

    ghost may_open = { λ _. Unit {0} };

    fn open(&mut self, name: &Text) -> Result<(), OpenFail>
        // It fails exactly where the call is listed or no text has the name, and never for want of memory.
        ensures fails { is_err result ≡ (is_failing self.old.failing self.old.calls || not (contains_key self.old.texts name.now)) }
        ensures kind { OnErr result (IsErrOf result OpenFail.Failed) }
        ensures opens { Opens (seen_in_memory self.old) name.now result (seen_in_memory self.new) }

        // It counts the call.
        ensures counted { self.new.calls ≡ incremented self.old.calls }
        ensures failing { self.new.failing ≡ self.old.failing }
    {
        let is_there = self.store.open(name);
        if self.calls.count() || !is_there {
            self.store.close();
            self.open_faults = self.open_faults.saturating_add(1);
            return Err(OpenFail::Failed);
        }
        Ok(())
    }

    fn next(&mut self) -> Result<Option<u8>, Failed>
        // It fails exactly where the call is listed.
        ensures fails { is_err result ≡ is_failing self.old.failing self.old.calls }
        ensures nexts { Nexts (seen_in_memory self.old) result (seen_in_memory self.new) }

        // It counts the call.
        ensures counted { self.new.calls ≡ incremented self.old.calls }
        ensures failing { self.new.failing ≡ self.old.failing }
    {
        if self.calls.count() {
            self.read_faults = self.read_faults.saturating_add(1);
            return Err(Failed);
        }
        Ok(self.store.take())
    }

    fn ahead(&self) -> &[u8]
        ensures { result.now ≡ [] }
    {
        b""
    }

    fn skip(&mut self, count: usize)
        requires { count ≤ 0 }
        ensures { self.new ≡ self.old }
    {}
}
