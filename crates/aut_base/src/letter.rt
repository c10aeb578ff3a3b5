//! Letters, and lasso words (ultimately periodic infinite words).

ghost use Rattle.std.specs.Prelude.{◌≡◌, ◌<◌, ℕ, List, ◌↔◌, IsTrue, Contains, OnOk, OnErr, length};
ghost use Rattle.std.specs.FinSet as set;

use crate::{Memory, Names, Seq, Text};
use std::alloc::Global;
use std::marker::Model;

/// Letters, in order.
pub type Letters = Seq<Letter>;

// Why so: 'A letter is seen as a set of names' in docs/DECISIONS.md.
/// A letter: the propositions that hold at one position of a word. Contracts see the finite set of their names.
#[derive(Debug)]
pub struct Letter {
    names: Names,
}

// Written down, so that it is proved here alone.
impl Drop for Letter {
    fn drop(self) {
        let Letter { names: _ } = self;
    }
}

impl Model for Letter {
    ghost use Rattle.std.specs.FinSet as set;
    ghost use Rattle.std.specs.Cmp.Lexicographic.{slice_cmp};
    ghost use Rattle.std.specs.Ordering.{nat_cmp};
    ghost use Rattle.std.specs.Coded.{coded_list, coded_ℕ};

    ghost Value = { set.FinSet (slice_cmp nat_cmp) };

    ghost coded = { set.code (coded_list coded_ℕ) };

    ghost view = { λ letter. set.from_list letter.names };
}

impl Letter {
    /// The letter at which no proposition holds.
    pub fn new(alloc: Global) -> Self
        ensures { result ≡ set.empty }
    {
        Letter {
            names: Names::new(alloc),
        }
    }

    /// Whether the proposition of this name holds.
    pub fn has(&self, name: &Text) -> bool
        ensures { result ≡ set.contains self.now name.now }
    {
        self.names.has(name)
    }

    /// The names of the propositions that hold.
    pub fn names(&self) -> &Names
        ensures value { self.now ≡ set.from_list result.now }
        ensures members { (name : List ℕ) → IsTrue (set.contains self.now name) ↔ Contains result.now name }
    {
        &self.names
    }

    /// Adds a name, if it isn't there yet. Refused for want of memory, it drops the name and leaves the letter as it was.
    pub fn add(&mut self, name: Text) -> Result<(), Memory>
        ensures ok { OnOk result (self.new ≡ set.insert self.old name) }
        ensures err { OnErr result (self.new ≡ self.old) }
    {
        if self.names.has(&name) {
            return Ok(());
        }
        self.names.push(name)
    }
}

/// A lasso word: the ultimately periodic word of the letters of `stem`, and then those of `cycle` again and again.
#[derive(Debug, Drop)]
pub struct Lasso {
    pub stem: Letters,
    pub cycle: Letters,
    ghost goes_on: { 0 < length cycle },
}
