//! The guards of conjunctions of literals, by their bits.

ghost use Rattle.std.specs.Prelude.{◌≡◌, ◌<◌, ◌≤◌, ◌&&◌, ℕ, Bool, IfOk};
ghost use Rattle.aut_base.specs.declared.limit.TheConstants.{MOST_NAMES};
ghost use Rattle.label_guards.specs.Guards.{IsGuardOf};
ghost use Rattle.label_guards.specs.Nodes.{Grows, level};
ghost use Rattle.label_guards.specs.Numbers.{is_as_asked, is_in_cube};
ghost use Rattle.label_guards.specs.Operations.{IsPlaceOf};
ghost use Rattle.label_guards.specs.Store.{HasPlace, Keeps, outcome};

use crate::computed::{Known, Question};
use crate::guard::Guard;
use crate::guards::Guards;
use crate::letters::is_set;
use aut_base::Memory;

#[tactic(auto, using(crate::proofs::labelled::LabelTruth::keeps))]
impl Guards {
    /// The guard that is true where each proposition whose bit is set in `names` is as its bit of `values` says. Bits of
    /// propositions that the store lacks say nothing. A node is made for each literal, and nothing is combined. The store remembers
    /// some of these guards.
    pub fn of_cube(&mut self, names: u32, values: u32) -> Result<Guard, Memory>
        ensures keeps { Keeps self.old self.new }
        ensures guard { IfOk result (IsGuardOf self.new (is_in_cube names values self.old.names)) }
    {
        self.reduced();
        let place = self.cube(names, values)?;
        self.reduced();
        Ok(Guard { place })
    }

    /// The place of the same, which is looked up first.
    fn cube(&mut self, names: u32, values: u32) -> Result<usize, Memory>
        ensures grows { Grows self.old self.new }
        ensures place { IfOk result (IsPlaceOf self.new (is_in_cube names values self.old.names)) }
    {
        let (left, right) = (names as usize, values as usize);
        if let Some(place) = self.known(Question::Cube, left, right) {
            return Ok(place);
        }
        let place = self.cube_place(names, values)?;
        let known = Known {
            question: Question::Cube,
            left,
            right,
            place,
        };
        self.note(known, 0);
        Ok(place)
    }

    /// The place of the same, which is made. It goes from the last proposition to the first, since a node stands above those that ask
    /// for later ones.
    fn cube_place(&mut self, names: u32, values: u32) -> Result<usize, Memory>
        ensures grows { Grows self.old self.new }
        ensures place { IfOk result (IsPlaceOf self.new (is_in_cube names values self.old.names)) }
    {
        self.reduced();
        let mut place = 1;
        let mut left = self.names();
        'props: while left > 0 {
            left -= 1;
            place = self.asked(names, values, left, place)?;
        }
        Ok(place)
    }

    /// The place that goes on at this one where the proposition is as it is asked for, and is false elsewhere.
    fn asked(&mut self, names: u32, values: u32, prop: u32, place: usize) -> Result<usize, Memory>
        requires few { prop < MOST_NAMES }
        requires has { HasPlace self.old place }
        requires later { prop < level self.old place }
        ensures grows { Grows self.old self.new }
        ensures has { IfOk result (HasPlace self.new) }
        ensures later { IfOk result (λ made. prop ≤ level self.new made) }
        ensures truth { IfOk result (λ made. (on : ℕ → Bool) → outcome self.new.nodes on made ≡ (is_as_asked names values prop on && outcome self.old.nodes on place)) }
    {
        if !is_set(u64::from(names), prop) {
            return Ok(place);
        }
        self.decided(prop, is_set(u64::from(values), prop), place)
    }
}
