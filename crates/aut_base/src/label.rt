//! The label of an edge: a Boolean formula over the propositions.

ghost use Rattle.std.specs.Prelude.{◌≡◌, ◌<◌, ◌↔◌, ℕ, false, IsTrue, [], ◌∷◌, ◌++◌, length, map, IfOk, OnOk, OnErr, slice_get};
ghost use Rattle.std.specs.List.{slice_index_or};
ghost use Rattle.aut_base.specs.Label.{LabelTree, LabelParts, AllBelow, EachBelow, truth, holds_at, all_true, some_true, trees, label_tree, label_parts, label_list};

use crate::{Letter, Memory, Names};
use std::alloc::Global;

/// A Boolean formula over the atomic propositions, each given by its index in the automaton's list of names (HOA v1, label-expr).
#[cycle(label)]
#[derive(Debug, Drop)]
pub enum Label {
    True,
    False,
    Prop(u32),
    /// The negation of a proposition, as most negations are: unlike `Not`, it needs no box. Contracts see the same tree for both.
    Negated(u32),
    Not(Box<Label>),
    And(Box<Labels>),
    Or(Box<Labels>),
}

// Why so: 'Two parts by structure' in docs/DECISIONS.md.
/// The parts of a conjunction or disjunction: at least two.
#[cycle(label)]
#[derive(Debug)]
pub struct Labels {
    first: Label,
    second: Label,
    others: Vec<Label>,
}

// Written down, so that it is proved here alone.
impl Drop for Labels {
    #[cycle(label_drop)]
    fn drop(self) {
        let Labels {
            first: _,
            second: _,
            others: _,
        } = self;
    }
}

impl Label {
    /// A copy of the label.
    #[cycle(label_copy)]
    pub fn copy(&self, alloc: Global) -> Result<Label, Memory>
        ensures { IfOk result (λ new. label_tree new ≡ label_tree self.now) }
    {
        match self {
            Label::True => Ok(Label::True),
            Label::False => Ok(Label::False),
            Label::Prop(place) => Ok(Label::Prop(*place)),
            Label::Negated(place) => Ok(Label::Negated(*place)),
            Label::Not(inner) => {
                let inner = inner.copy(alloc)?;
                Ok(Label::Not(Box::new(alloc, inner)?))
            }
            Label::And(parts) => {
                let parts = parts.copy(alloc)?;
                Ok(Label::And(Box::new(alloc, parts)?))
            }
            Label::Or(parts) => {
                let parts = parts.copy(alloc)?;
                Ok(Label::Or(Box::new(alloc, parts)?))
            }
        }
    }

    // Why so: '`Label::truth` is public beside `Label::holds`' in docs/DECISIONS.md.
    /// The truth of the label under a valuation: `on` says of each proposition whether it holds.
    #[cycle(label_truth)]
    #[tactic(auto, using(crate::proofs::trees::LabelTrees::label_trees))]
    pub fn truth(&self, on: &[bool]) -> bool
        requires { AllBelow (length on.now) (label_tree self.now) }
        ensures { result ≡ truth (λ i. slice_index_or on.now i false) (label_tree self.now) }
    {
        match self {
            Label::True => true,
            Label::False => false,
            Label::Prop(place) => on[*place as usize],
            Label::Negated(place) => !on[*place as usize],
            Label::Not(inner) => !inner.truth(on),
            Label::And(parts) => parts.first.truth(on)
                && (parts.second.truth(on) && all_true(&parts.others, on)),
            Label::Or(parts) => parts.first.truth(on)
                || (parts.second.truth(on) || some_true(&parts.others, on)),
        }
    }
}

impl Label {
    /// Whether the label holds of the letter, where `names` has the name of each proposition by its index.
    #[cycle(label_holds)]
    #[tactic(auto, using(crate::proofs::trees::LabelTrees::label_trees))]
    pub fn holds(&self, names: &Names, letter: &Letter) -> bool
        requires { AllBelow (length names.now) (label_tree self.now) }
        ensures { result ≡ truth (holds_at names.now letter.now) (label_tree self.now) }
    {
        match self {
            Label::True => true,
            Label::False => false,
            Label::Prop(place) => letter.has(names.at(*place as usize)),
            Label::Negated(place) => !letter.has(names.at(*place as usize)),
            Label::Not(inner) => !inner.holds(names, letter),
            Label::And(parts) => parts.first.holds(names, letter)
                && (parts.second.holds(names, letter) && all_hold(&parts.others, names, letter)),
            Label::Or(parts) => parts.first.holds(names, letter)
                || (parts.second.holds(names, letter) || some_hold(&parts.others, names, letter)),
        }
    }
}

impl Label {
    /// Whether every proposition of the label is below this number.
    #[cycle(label_below)]
    #[tactic(auto, using(crate::proofs::trees::LabelTrees::label_trees))]
    pub fn is_below(&self, names: usize) -> bool
        ensures { IsTrue result ↔ AllBelow names (label_tree self.now) }
    {
        match self {
            Label::True | Label::False => true,
            Label::Prop(place) | Label::Negated(place) => (*place as usize) < names,
            Label::Not(inner) => inner.is_below(names),
            Label::And(parts) => parts.first.is_below(names)
                && (parts.second.is_below(names) && all_below(&parts.others, names)),
            Label::Or(parts) => parts.first.is_below(names)
                && (parts.second.is_below(names) && all_below(&parts.others, names)),
        }
    }
}

// Whether every proposition of these parts is below the number.
#[cycle(label_below)]
fn all_below(parts: &[Label], names: usize) -> bool
    ensures { IsTrue result ↔ EachBelow names (trees (map label_tree parts.now)) }
{
    'parts: for part in parts {
        if !part.is_below(names) {
            return false;
        }
    }
    true
}

#[tactic(auto, using(crate::proofs::trees::LabelTrees::label_trees))]
impl Labels {
    /// These two parts.
    pub fn pair(alloc: Global, first: Label, second: Label) -> Labels
        ensures { label_list result ≡ label_tree first ∷ label_tree second ∷ [] }
    {
        Labels {
            first,
            second,
            others: Vec::new(alloc),
        }
    }

    /// Adds a part at the end. Refused for want of memory, it drops the part and leaves the others as they were.
    pub fn push(&mut self, item: Label) -> Result<(), Memory>
        ensures ok { OnOk result (label_list self.new ≡ label_list self.old ++ label_tree item ∷ []) }
        ensures err { OnErr result (label_list self.new ≡ label_list self.old) }
    {
        match self.others.push(item) {
            Ok(()) => Ok(()),
            Err(_) => Err(Memory),
        }
    }

    /// The number of parts.
    pub fn len(&self) -> usize
        ensures { result ≡ length (label_list self.now) }
    {
        self.others.len() + 2
    }

    /// The part at this index, from 0.
    pub fn at(&self, place: usize) -> &Label
        requires { place < length (label_list self.now) }
        ensures { slice_get (label_list self.now) place ≡ Some (label_tree result.now) }
    {
        match place {
            0 => &self.first,
            1 => &self.second,
            _ => &self.others[place - 2],
        }
    }

    /// A copy of the parts.
    #[cycle(label_copy)]
    pub fn copy(&self, alloc: Global) -> Result<Labels, Memory>
        ensures { IfOk result (λ new. label_parts new ≡ label_parts self.now) }
    {
        let first = self.first.copy(alloc)?;
        let mut copies = Labels::pair(alloc, first, self.second.copy(alloc)?);
        copies.others = copy_all(alloc, &self.others)?;
        Ok(copies)
    }
}

// Copies of these parts, in order.
#[cycle(label_copy)]
fn copy_all(alloc: Global, parts: &[Label]) -> Result<Vec<Label>, Memory>
    ensures { IfOk result (λ new. map label_tree new.items ≡ map label_tree parts.now) }
{
    let mut copies = Vec::new(alloc);
    'parts: for part in parts {
        let copied = part.copy(alloc)?;
        copies.push(copied)?;
    }
    Ok(copies)
}

// Whether each of these parts is true.
#[cycle(label_truth)]
fn all_true(parts: &[Label], on: &[bool]) -> bool
    requires { EachBelow (length on.now) (trees (map label_tree parts.now)) }
    ensures { result ≡ all_true (λ i. slice_index_or on.now i false) (trees (map label_tree parts.now)) }
{
    'parts: for part in parts {
        if !part.truth(on) {
            return false;
        }
    }
    true
}

// Whether one of these parts is true.
#[cycle(label_truth)]
fn some_true(parts: &[Label], on: &[bool]) -> bool
    requires { EachBelow (length on.now) (trees (map label_tree parts.now)) }
    ensures { result ≡ some_true (λ i. slice_index_or on.now i false) (trees (map label_tree parts.now)) }
{
    'parts: for part in parts {
        if part.truth(on) {
            return true;
        }
    }
    false
}

// Whether each of these parts holds of the letter.
#[cycle(label_holds)]
fn all_hold(parts: &[Label], names: &Names, letter: &Letter) -> bool
    requires { EachBelow (length names.now) (trees (map label_tree parts.now)) }
    ensures { result ≡ all_true (holds_at names.now letter.now) (trees (map label_tree parts.now)) }
{
    'parts: for part in parts {
        if !part.holds(names, letter) {
            return false;
        }
    }
    true
}

// Whether one of these parts holds of the letter.
#[cycle(label_holds)]
fn some_hold(parts: &[Label], names: &Names, letter: &Letter) -> bool
    requires { EachBelow (length names.now) (trees (map label_tree parts.now)) }
    ensures { result ≡ some_true (holds_at names.now letter.now) (trees (map label_tree parts.now)) }
{
    'parts: for part in parts {
        if part.holds(names, letter) {
            return true;
        }
    }
    false
}
