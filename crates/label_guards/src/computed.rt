//! The results that a store remembers, in a table that forgets (Brace, Rudell and Bryant 1990, the computed table of a package of diagrams).

ghost use Rattle.std.specs.Prelude.{◌≡◌, IfSome, []};
ghost use Rattle.label_guards.specs.Computed.{AreComputed, IsComputed, IsAnswerTo};
ghost use Rattle.label_guards.specs.Store.{Store};

use std::alloc::Global;
use std::marker::Model;

/// What a result was asked of: an operation on two places, or the conjunction of literals that two numbers give by their bits.
#[derive(Clone, Copy, PartialEq, Eq)]
pub(crate) enum Question {
    And,
    Or,
    Xor,
    Cube,
}

/// The place of a result, with the two numbers that it was asked of.
#[derive(Clone, Copy)]
pub(crate) struct Known {
    pub(crate) question: Question,
    pub(crate) left: usize,
    pub(crate) right: usize,
    pub(crate) place: usize,
}

/// How many results a table first has room for.
const FEWEST: usize = 16;

/// To how many it grows in a small store. With no more than the store has places, inclusions took a fifth more instructions.
const ROOMY: usize = 4_096;

/// A table of results. Each has one place, by what it was asked of, and takes it from the one that stands there. So a look-up is one
/// comparison, and a table has at most some thousand places, or twice as many as a larger store.
#[derive(Drop)]
pub(crate) struct Computed {
    table: Vec<Known>,
    /// How many were put since the table has its room.
    count: usize,
}

impl Model for Computed {
    ghost use Rattle.std.specs.Prelude.{List};
    ghost use Rattle.label_guards.specs.declared.computed.Known.{Known};

    ghost Value = { List Known };

    ghost view = { λ s. s.table.items };
}

impl Computed {
    /// No result yet. It takes no memory.
    pub(crate) fn new(alloc: Global) -> Computed
        ensures { result ≡ [] }
    {
        Computed {
            table: Vec::new(alloc),
            count: 0,
        }
    }

    /// The result, if it is there.
    #[inline]
    pub(crate) fn find(&self, question: Question, left: usize, right: usize) -> Option<usize>
        ensures { IfSome result (λ place. (s : Store) → AreComputed s self.now → IsAnswerTo s question left right place) }
    {
        let known = self.table.get(self.index(question, left, right))?;
        if known.question == question && known.left == left && known.right == right {
            return Some(known.place);
        }
        None
    }

    /// Puts a result in. Once so many were put as there is room for, there is to be more, up to some thousand places or those of the store.
    /// Where memory for it is wanting the table stays as it is: it only remembers less.
    pub(crate) fn put(&mut self, known: Known, places: usize)
        ensures { (s : Store) → AreComputed s self.old → IsComputed s known → AreComputed s self.new }
    {
        self.make_room(known, places);
        let index = self.index(known.question, known.left, known.right);
        if index < self.table.len() {
            self.table[index] = known;
        }
    }

    /// Counts one more, and makes room for twice as many where so many were put already. New places have this one.
    fn make_room(&mut self, known: Known, places: usize)
        ensures { (s : Store) → AreComputed s self.old → IsComputed s known → AreComputed s self.new }
    {
        let room = self.table.len();
        if self.count < room {
            self.count += 1;
            return;
        }
        self.count = 1;
        if room < places.max(ROOMY) {
            let _ = self.table.resize(room.saturating_mul(2).max(FEWEST), known);
        }
    }

    /// Where a result stands in the table. Any place would do: of results that have the same place the table knows the last.
    #[inline]
    fn index(&self, question: Question, left: usize, right: usize) -> usize {
        let kind = match question {
            Question::And => 0,
            Question::Or => 1,
            Question::Xor => 2,
            Question::Cube => 3,
        };
        let mixed = (left as u64)
            .wrapping_mul(0x9E37_79B9_7F4A_7C15)
            .wrapping_add(right as u64)
            .wrapping_mul(0xC2B2_AE3D_27D4_EB4F)
            .wrapping_add(kind << 32);
        (mixed >> 32) as usize & self.table.len().wrapping_sub(1)
    }
}
