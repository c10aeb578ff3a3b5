//! The store of guards: its operations, and what it remembers.

ghost use Rattle.std.specs.Prelude.{◌≡◌, ◌⊎◌, ◌<◌, ◌≤◌, ℕ, [], true, false, length, take, IfNone, IfOk, IfSome, Some};
ghost use Rattle.aut_base.specs.declared.limit.TheConstants.{MOST_NAMES};
ghost use Rattle.label_guards.specs.declared.guard.Guard.{Guard};
ghost use Rattle.label_guards.specs.Guards.{IsGuardOf};
ghost use Rattle.label_guards.specs.Nodes.{AreSides, Grows, IsChoice, IsReducedDiagram, IsNodeAt, level};
ghost use Rattle.label_guards.specs.Operations.{IsJoin, IsShort};
ghost use Rattle.label_guards.specs.Computed.{AreComputed, IsComputed, IsAnswerTo, question_of};
ghost use Rattle.label_guards.specs.Letters.{AreLastPlaces};
ghost use Rattle.label_guards.specs.Store.{Has, HasPlace, places};

use crate::computed::{Computed, Known, Question};
use crate::letters::Letters;
use crate::nodes::{Node, Nodes};
use aut_base::Memory;
use std::alloc::Global;
use std::marker::Model;
use std::mem;

/// An operation on two guards.
#[derive(Clone, Copy)]
pub(crate) enum Operation {
    And,
    Or,
    Xor,
}

/// A store of guards.
pub struct Guards {
    /// In a box, so that a store is passed on as a pointer and let go by a call, wherever that may be.
    fields: Box<Fields>,
}

// Written down, so that it is proved here alone.
impl Drop for Guards {
    fn drop(self) {
        let Guards { fields: _ } = self;
    }
}

/// What a store holds.
#[derive(Drop)]
struct Fields {
    nodes: Nodes,
    results: Computed,
    letters: Letters,
}

impl Model for Guards {
    ghost use Rattle.label_guards.specs.Store.{Store};
    ghost use Rattle.label_guards.specs.Computed.{AreRemembered};

    ghost Value = { Store };

    ghost view = { λ s. s.fields.value.nodes };

    ghost invariant = { λ s. AreRemembered s.fields.value.nodes s.fields.value.results s.fields.value.letters };
}

impl Guards {
    /// A store of labels over this many propositions. It has `f` and `t`, and nothing else yet.
    pub fn new(alloc: Global, names: u32) -> Result<Guards, Memory>
        requires { names ≤ MOST_NAMES }
        ensures names { IfOk result (λ store. store.names ≡ names) }
        ensures bare { IfOk result (λ store. (g : Guard) → Has store g → IsGuardOf store (λ on. false) g ⊎ IsGuardOf store (λ on. true) g) }
    {
        let nodes = Nodes::new(alloc, names);
        nodes.reduced();
        let fields = Fields {
            nodes,
            results: Computed::new(alloc),
            letters: Letters::new(alloc),
        };
        Ok(Guards {
            fields: Box::new(alloc, fields)?,
        })
    }

    /// A store with the same guards under the same numbers, held apart. It remembers nothing yet.
    pub fn copy(&self, alloc: Global) -> Result<Guards, Memory>
        ensures { IfOk result (λ copy. copy ≡ self.now) }
    {
        let fields = Fields {
            nodes: self.fields.nodes.copy()?,
            results: Computed::new(alloc),
            letters: Letters::new(alloc),
        };
        Ok(Guards {
            fields: Box::new(alloc, fields)?,
        })
    }

    /// The number of propositions.
    pub fn names(&self) -> u32
        ensures { result ≡ self.now.names }
    {
        self.fields.nodes.names()
    }

    /// The number of places.
    pub(crate) fn places(&self) -> usize
        ensures { result ≡ places self.now }
    {
        self.fields.nodes.places()
    }

    /// The number of nodes.
    pub(crate) fn count(&self) -> usize
        ensures { result ≡ length self.now.nodes }
    {
        self.fields.nodes.places() - 2
    }

    /// The results so far. The store remembers none of them any more.
    pub(crate) fn take_results(&mut self, alloc: Global) -> Computed
        ensures same { self.new ≡ self.old }
        ensures results { AreComputed self.old result }
    {
        mem::replace(&mut self.fields.results, Computed::new(alloc))
    }

    /// Takes back the nodes behind the first ones, and remembers these results of those that stay, and no letter.
    pub(crate) fn cut(&mut self, count: usize, results: Computed)
        requires { AreComputed (record self.old { nodes = take count self.old.nodes }) results }
        ensures { self.new ≡ record self.old { nodes = take count self.old.nodes } }
    {
        let fields: &mut Fields = &mut self.fields;
        fields.nodes.cut(count);
        fields.results = results;
        fields.letters.clear();
    }

    /// What is kept of the letter whose guard was made last. The store remembers none any more.
    pub(crate) fn take_letters(&mut self, alloc: Global) -> Letters
        ensures same { self.new ≡ self.old }
        ensures letters { AreLastPlaces self.old result }
    {
        mem::replace(&mut self.fields.letters, Letters::new(alloc))
    }

    /// Remembers this of the letter whose guard was made last.
    pub(crate) fn keep_letters(&mut self, letters: Letters)
        requires { AreLastPlaces self.old letters }
        ensures { self.new ≡ self.old }
    {
        self.fields.letters = letters;
    }

    /// Tells a proof that the diagrams are reduced.
    pub(crate) fn reduced(&self)
        ensures { IsReducedDiagram self.now.names self.now.nodes }
    {
        self.fields.nodes.reduced();
    }

    /// The proposition that is asked for first at this place, or the number of propositions at `f` and `t`.
    #[inline]
    pub(crate) fn level(&self, place: usize) -> u32
        requires { HasPlace self.now place }
        ensures level { result ≡ level self.now place }
        ensures most { result ≤ self.now.names }
        ensures asks { 2 ≤ place → result < self.now.names }
    {
        self.fields.nodes.level(place)
    }

    /// The node at this place.
    #[inline]
    pub(crate) fn node_at(&self, place: usize) -> Node
        requires inner { 2 ≤ place }
        requires has { HasPlace self.now place }
        ensures { IsNodeAt self.now place result }
    {
        self.fields.nodes.node_at(place)
    }

    /// Where to go on if the proposition fails, and if it holds.
    #[inline]
    pub(crate) fn sides(&self, place: usize, prop: u32) -> (usize, usize)
        requires has { HasPlace self.now place }
        requires later { prop ≤ level self.now place }
        requires within { prop < self.now.names }
        ensures { AreSides self.now prop place result.0 result.1 }
    {
        self.fields.nodes.sides(place, prop)
    }

    /// The place where the proposition decides between these two.
    #[inline]
    pub(crate) fn choice(&mut self, prop: u32, low: usize, high: usize) -> Result<usize, Memory>
        requires low { HasPlace self.old low }
        requires high { HasPlace self.old high }
        requires low_later { prop < level self.old low }
        requires high_later { prop < level self.old high }
        ensures grows { Grows self.old self.new }
        ensures kept { places self.old ≤ places self.new }
        ensures made { IfOk result (λ place. IsChoice self.new prop low high place) }
    {
        self.fields.nodes.make(prop, low, high)
    }

    /// The result in the table, if it is there.
    #[inline]
    pub(crate) fn known(&self, question: Question, left: usize, right: usize) -> Option<usize>
        ensures { IfSome result (λ place. IsAnswerTo self.now question left right place) }
    {
        self.fields.results.find(question, left, right)
    }

    /// Puts a result into the table, which is to have no more places than some thousand or this many.
    pub(crate) fn note(&mut self, known: Known, places: usize)
        requires { IsComputed self.old known }
        ensures { self.new ≡ self.old }
    {
        self.fields.results.put(known, places);
    }

    /// The place of the operation's result.
    #[cycle(combine)]
    #[inline]
    pub(crate) fn combine(
        &mut self,
        operation: Operation,
        g: usize,
        h: usize,
    ) -> Result<usize, Memory>
        requires left { HasPlace self.old g }
        requires right { HasPlace self.old h }
        ensures grows { Grows self.old self.new }
        ensures kept { places self.old ≤ places self.new }
        ensures joined { IfOk result (λ place. IsJoin self.new operation g h place) }
    {
        self.reduced();
        match shortcut(operation, g, h) {
            Some(place) => Ok(place),
            None => self.combine_nodes(operation, g, h),
        }
    }

    /// The same where the nodes are to be looked at. It stands apart so that what needs no look costs no call.
    #[cycle(combine)]
    fn combine_nodes(&mut self, operation: Operation, g: usize, h: usize) -> Result<usize, Memory>
        requires left { HasPlace self.old g }
        requires right { HasPlace self.old h }
        requires inner { (2 ≤ g) ⊎ (2 ≤ h) }
        ensures grows { Grows self.old self.new }
        ensures kept { places self.old ≤ places self.new }
        ensures joined { IfOk result (λ place. IsJoin self.new operation g h place) }
    {
        self.reduced();
        let question = asked_as(operation);
        if let Some(place) = self.known(question, g, h) {
            return Ok(place);
        }
        let prop = self.level(g).min(self.level(h));
        let (g_low, g_high) = self.sides(g, prop);
        let (h_low, h_high) = self.sides(h, prop);
        let low = self.combine(operation, g_low, h_low)?;
        let high = self.combine(operation, g_high, h_high)?;
        let place = self.choice(prop, low, high)?;
        let known = Known {
            question,
            left: g,
            right: h,
            place,
        };
        self.note(known, self.places());
        Ok(place)
    }
}

/// What the operation on two places is asked as.
#[inline]
fn asked_as(operation: Operation) -> Question
    ensures { result ≡ question_of operation }
{
    match operation {
        Operation::And => Question::And,
        Operation::Or => Question::Or,
        Operation::Xor => Question::Xor,
    }
}

/// The result, where it needs no look at the nodes.
#[inline]
fn shortcut(operation: Operation, g: usize, h: usize) -> Option<usize>
    ensures short { IfSome result (λ place. IsShort operation g h place) }
    ensures inner { IfNone result ((2 ≤ g) ⊎ (2 ≤ h)) }
{
    match operation {
        Operation::And => short_and(g, h),
        Operation::Or => short_or(g, h),
        Operation::Xor => short_xor(g, h),
    }
}

#[inline]
fn short_and(g: usize, h: usize) -> Option<usize>
    ensures short { IfSome result (λ place. IsShort Operation.And g h place) }
    ensures inner { IfNone result ((2 ≤ g) ⊎ (2 ≤ h)) }
{
    if g == h {
        return Some(g);
    }
    match (g, h) {
        (0, _) | (_, 0) => Some(0),
        (1, _) => Some(h),
        (_, 1) => Some(g),
        _ => None,
    }
}

#[inline]
fn short_or(g: usize, h: usize) -> Option<usize>
    ensures short { IfSome result (λ place. IsShort Operation.Or g h place) }
    ensures inner { IfNone result ((2 ≤ g) ⊎ (2 ≤ h)) }
{
    if g == h {
        return Some(g);
    }
    match (g, h) {
        (1, _) | (_, 1) => Some(1),
        (0, _) => Some(h),
        (_, 0) => Some(g),
        _ => None,
    }
}

#[inline]
fn short_xor(g: usize, h: usize) -> Option<usize>
    ensures short { IfSome result (λ place. IsShort Operation.Xor g h place) }
    ensures inner { IfNone result ((2 ≤ g) ⊎ (2 ≤ h)) }
{
    if g == h {
        return Some(0);
    }
    match (g, h) {
        (0, _) => Some(h),
        (_, 0) => Some(g),
        _ => None,
    }
}
