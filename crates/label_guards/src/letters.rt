//! The guards of letters, by their numbers (HOA v1, implicit labels).

ghost use Rattle.std.specs.Prelude.{◌≡◌, ◌+◌, ◌/◌, ◌^◌, ◌<◌, ◌≤◌, ◌&&◌, ℕ, Bool, IfOk, OnOk, length};
ghost use Rattle.std.specs.Bool.{beq};
ghost use Rattle.aut_base.specs.CanonicalLabel.{canonical_label};
ghost use Rattle.aut_base.specs.Label.{LabelTree, truth};
ghost use Rattle.aut_base.specs.declared.limit.TheConstants.{MOST_NAMES};
ghost use Rattle.label_guards.specs.Guards.{IsGuardOf};
ghost use Rattle.label_guards.specs.Letters.{AreLastPlaces, IsLastPlace};
ghost use Rattle.label_guards.specs.Nodes.{Grows, IsReducedDiagram, level};
ghost use Rattle.label_guards.specs.Numbers.{is_at, is_set};
ghost use Rattle.label_guards.specs.Store.{HasPlace, Keeps, Store, label_in, outcome};

use crate::guard::Guard;
use crate::guards::Guards;
use aut_base::Memory;
use std::alloc::Global;
use std::marker::Model;

// Why so: 'Letters share the ends of their guards' in docs/DECISIONS.md.
/// What is kept of the letter whose guard was made last. Letters whose numbers follow one another mostly differ in their first
/// propositions alone, and nodes that ask for these stand above those that ask for the others.
#[derive(Drop)]
pub(crate) struct Letters {
    number: u64,
    /// The places of what is true where the last proposition is as in the number, where the last two are, and so on.
    places: Vec<usize>,
}

impl Model for Letters {
    ghost use Rattle.label_guards.specs.Letters.{LastLetter};

    ghost Value = { LastLetter };

    ghost view = { λ s. record { number = s.number; places = s.places.items } };
}

impl Letters {
    /// No letter yet, of any store.
    pub(crate) fn new(alloc: Global) -> Letters
        ensures { (s : Store) → AreLastPlaces s result }
    {
        Letters {
            number: 0,
            places: Vec::new(alloc),
        }
    }

    /// No letter any more.
    pub(crate) fn clear(&mut self)
        ensures { (s : Store) → AreLastPlaces s self.new }
    {
        self.places.truncate(0);
    }

    /// The guard that is true at one valuation alone: that of this number, in which bit k says whether proposition k holds. Nodes
    /// are made for those propositions alone that come no later than one whose bit is another than in the letter before. Where
    /// numbers follow one another these are two on an average. No label is made.
    #[tactic(auto, using(crate::proofs::labelled::LabelTruth::keeps))]
    fn guard(&mut self, guards: &mut Guards, number: u64) -> Result<Guard, Memory>
        requires { AreLastPlaces guards.old self.old }
        ensures keeps { Keeps guards.old guards.new }
        ensures letters { AreLastPlaces guards.new self.new }
        ensures guard { IfOk result (IsGuardOf guards.new (is_at number guards.old.names)) }

        // Its label is the canonical form of each label that is true there alone.
        ensures label { IfOk result (λ g. (t : LabelTree) → ((on : ℕ → Bool) → truth on t ≡ is_at number guards.old.names on)
            → label_in guards.new g ≡ canonical_label guards.old.names t) }
    {
        guards.reduced();
        self.turn_to(guards.names(), number);
        let place = self.whole(guards)?;
        guards.reduced();
        Ok(Guard { place })
    }

    /// Turns to another number, and keeps the places that are right for it, too.
    fn turn_to(&mut self, names: u32, number: u64)
        requires { names ≤ MOST_NAMES }
        ensures number { self.new.number ≡ number }
        ensures letters { (s : Store) → s.names ≡ names → AreLastPlaces s self.old → AreLastPlaces s self.new }
    {
        let differ = differing(self.number, number, names);
        self.places.truncate((names - differ) as usize);
        self.number = number;
    }

    /// The place for all propositions. It goes from the last that lacks one to the first, since a node stands above those that
    /// ask for later ones.
    fn whole(&mut self, guards: &mut Guards) -> Result<usize, Memory>
        requires { AreLastPlaces guards.old self.old }
        ensures grows { Grows guards.old guards.new }
        ensures letters { AreLastPlaces guards.new self.new }
        ensures place { IfOk result (IsLastPlace guards.new self.old.number guards.old.names) }
    {
        guards.reduced();
        let mut place = self.last();
        let mut left = guards.names() - self.places.len() as u32;
        'props: while left > 0 {
            left -= 1;
            place = self.add(guards, left, place)?;
        }
        Ok(place)
    }

    /// The last place, which is that for the most propositions.
    fn last(&self) -> usize
        ensures { (s : Store) → IsReducedDiagram s.names s.nodes → AreLastPlaces s self.now → IsLastPlace s self.now.number (length self.now.places) result }
    {
        let count = self.places.len();
        if count == 0 {
            return 1;
        }
        self.places[count - 1]
    }

    /// Adds the place for one proposition more, above the last one.
    fn add(&mut self, guards: &mut Guards, prop: u32, place: usize) -> Result<usize, Memory>
        requires letters { AreLastPlaces guards.old self.old }
        requires next { prop + (length self.old.places + 1) ≡ guards.old.names }
        requires place { IsLastPlace guards.old self.old.number (length self.old.places) place }
        ensures grows { Grows guards.old guards.new }
        ensures number { self.new.number ≡ self.old.number }
        ensures letters { AreLastPlaces guards.new self.new }
        ensures next { OnOk result (prop + length self.new.places ≡ guards.old.names) }
        ensures place { IfOk result (IsLastPlace guards.new self.old.number (length self.new.places)) }
    {
        guards.reduced();
        let place = guards.decided(prop, is_set(self.number, prop), place)?;
        guards.reduced();
        self.places.push(place)?;
        Ok(place)
    }
}

impl Guards {
    /// The guard that is true at one valuation alone: that of this number, in which bit k says whether proposition k holds, as an
    /// implicit label is. What letters share whose numbers follow one another is made once.
    pub fn of_letter(&mut self, alloc: Global, number: u64) -> Result<Guard, Memory>
        ensures keeps { Keeps self.old self.new }
        ensures guard { IfOk result (IsGuardOf self.new (is_at number self.old.names)) }

        // Its label is the canonical form of each label that is true there alone.
        ensures label { IfOk result (λ g. (t : LabelTree) → ((on : ℕ → Bool) → truth on t ≡ is_at number self.old.names on)
            → label_in self.new g ≡ canonical_label self.old.names t) }
    {
        let mut letters = self.take_letters(alloc);
        let guard = letters.guard(self, number)?;
        self.keep_letters(letters);
        Ok(guard)
    }

    /// The place that goes on at this one where the proposition is as it should be, and is false elsewhere.
    pub(crate) fn decided(&mut self, prop: u32, holds: bool, place: usize) -> Result<usize, Memory>
        requires has { HasPlace self.old place }
        requires later { prop < level self.old place }
        ensures grows { Grows self.old self.new }
        ensures has { IfOk result (HasPlace self.new) }
        ensures later { IfOk result (λ made. prop ≤ level self.new made) }
        ensures truth { IfOk result (λ made. (on : ℕ → Bool) → outcome self.new.nodes on made ≡ (beq (on prop) holds && outcome self.old.nodes on place)) }
    {
        self.reduced();
        if holds {
            self.choice(prop, 0, place)
        } else {
            self.choice(prop, place, 0)
        }
    }
}

/// How many bits there are up to the last in which the numbers differ, or this many if they are more.
fn differing(a: u64, b: u64, most: u32) -> u32
    requires { most ≤ MOST_NAMES }
    ensures most { result ≤ most }
    ensures same { result < most → a / (2 ^ result) ≡ b / (2 ^ result) }
{
    let mut count = 0;
    'bits: while count < most {
        if a >> count == b >> count {
            return count;
        }
        count += 1;
    }
    count
}

/// Whether the bit of this place is set.
pub(crate) fn is_set(number: u64, place: u32) -> bool
    requires { place < MOST_NAMES }
    ensures { result ≡ is_set number place }
{
    (number >> place) % 2 == 1
}
