//! An automaton as its text writes it, before any rule is checked (HOA v1, Grammar).

ghost use Rattle.std.specs.Prelude.{◌≡◌, ◌<◌, [], ◌∷◌, ◌++◌, length, OnOk, OnErr, slice_get};
ghost use Rattle.std.specs.Option.{option_copied};
ghost use Rattle.hoa_parser.specs.Naming.{name_of};
ghost use Rattle.hoa_parser.specs.Raw.{raw_list, raw_tree, written};

use crate::edges::RawEdges;
use crate::ends::EdgeEnds;
use aut_base::{FewNumbers, Formula, Memory, Seq, Text, Words};
use hoa_lexer::Name;
use std::alloc::Global;

/// A label as it is written; an alias stands for the label that it was defined as.
#[cycle(raw_label)]
#[derive(Debug, Drop)]
pub enum RawLabel {
    True,
    False,
    Prop(u32),
    /// A proposition behind `!`: most negations are of one, and this takes no box.
    Negated(u32),
    /// A conjunction of two or more literals whose propositions rise and have bits: those whose bits are set in `names`, each
    /// negated where its bit isn't set in `values`. Most conjunctions are so, and this takes no box.
    Cube { names: u32, values: u32 },
    /// Its name lies in memory of its own, so that a label without aliases is small.
    Alias(Box<Name>),
    Not(Box<RawLabel>),
    And(Box<RawLabels>),
    Or(Box<RawLabels>),
}

/// The parts of a conjunction or disjunction: at least two.
#[cycle(raw_label)]
#[derive(Debug)]
pub struct RawLabels {
    pub first: RawLabel,
    pub second: RawLabel,
    pub others: Vec<RawLabel>,
}

// Written down, so that it is proved here alone.
impl Drop for RawLabels {
    #[cycle(raw_label_drop)]
    fn drop(self) {
        let RawLabels {
            first: _,
            second: _,
            others: _,
        } = self;
    }
}

#[tactic(auto, using(crate::proofs::grammar::RawTrees::raw_tree_rules))]
impl RawLabels {
    /// These two parts.
    pub fn pair(alloc: Global, first: RawLabel, second: RawLabel) -> RawLabels
        ensures { raw_list result ≡ raw_tree first ∷ raw_tree second ∷ [] }
    {
        RawLabels {
            first,
            second,
            others: Vec::new(alloc),
        }
    }

    /// Adds a part at the end. Refused for want of memory, it drops the part and leaves the others as they were.
    pub fn push(&mut self, item: RawLabel) -> Result<(), Memory>
        ensures ok { OnOk result (raw_list self.new ≡ raw_list self.old ++ raw_tree item ∷ []) }
        ensures err { OnErr result (raw_list self.new ≡ raw_list self.old) }
    {
        match self.others.push(item) {
            Ok(()) => Ok(()),
            Err(_) => Err(Memory),
        }
    }

    /// The number of parts.
    pub fn len(&self) -> usize
        ensures { result ≡ length (raw_list self.now) }
    {
        self.others.len() + 2
    }

    /// The part at this place, from 0.
    pub fn at(&self, place: usize) -> &RawLabel
        requires { place < length (raw_list self.now) }
        ensures { slice_get (raw_list self.now) place ≡ Some (raw_tree result.now) }
    {
        match place {
            0 => &self.first,
            1 => &self.second,
            _ => &self.others[place - 2],
        }
    }
}

/// An item of the header.
#[derive(Debug, Drop)]
pub enum Item {
    States(u32),
    /// The states of one `Start:` line, joined by `&`.
    Start(FewNumbers),
    Ap { count: u32, names: Words },
    Alias { name: Name, label: RawLabel },
    Acceptance { sets: u32, formula: Formula },
    AccName,
    Tool,
    Name(Text),
    Properties(Seq<Name>),
    /// A header of a name that HOA v1 doesn't give a meaning.
    Other(Name),
}

/// The items of a header, in order.
pub type Items = Seq<Item>;

/// An edge of the body. Without a label it has an implicit one, or its state's.
#[derive(Debug, Drop)]
pub struct RawEdge {
    pub label: Option<RawLabel>,
    pub ends: EdgeEnds,
}

/// A state of the body with its edges.
#[derive(Debug, Drop)]
pub struct RawState {
    pub label: Option<RawLabel>,
    pub number: u32,
    pub marks: FewNumbers,
    pub edges: RawEdges,
}

/// The states of a body, in order.
pub type RawStates = Seq<RawState>;

/// An automaton as it is written.
#[derive(Debug, Drop)]
pub struct Raw {
    /// The identifier after `HOA:`.
    pub version: Name,
    pub items: Items,
    pub states: RawStates,
}

impl Raw {
    /// The text of the first `name:` of the header, and None exactly where there is none.
    pub fn name(&self) -> Option<&Text>
        ensures { option_copied result ≡ name_of (written self.now) }
    {
        'items: for item in self.items.as_slice() {
            if let Item::Name(text) = item {
                return Some(text);
            }
        }
        None
    }
}
