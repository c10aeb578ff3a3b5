//! A guard with one proposition set.

ghost use Rattle.std.specs.Prelude.{◌≡◌, ◌<◌, ◌≤◌, ℕ, Bool, IfOk};
ghost use Rattle.label_guards.specs.Guards.{IsGuardOf, truth_in, with_prop};
ghost use Rattle.label_guards.specs.Nodes.{Grows};
ghost use Rattle.label_guards.specs.Store.{Has, HasPlace, Keeps, places};
ghost use Rattle.label_guards.specs.Tables.{AreDone, IsFixedAt};

use crate::guard::Guard;
use crate::guards::Guards;
use crate::table::{Done, done_at, put_done};
use aut_base::Memory;
use std::alloc::Global;

impl Guards {
    /// The guard that is true exactly where this one is with the proposition set to the value.
    #[tactic(auto, using(crate::proofs::labelled::LabelTruth::keeps))]
    pub fn fix(&mut self, alloc: Global, g: Guard, prop: u32, value: bool) -> Result<Guard, Memory>
        requires has { Has self.old g }
        requires within { prop < self.old.names }
        ensures keeps { Keeps self.old self.new }
        ensures fixed { IfOk result (IsGuardOf self.new (λ on. truth_in self.old g (with_prop on prop value))) }
    {
        self.reduced();
        let mut done = Done::new(alloc);
        let place = self.fix_with(&mut done, g.place, prop, value)?;
        self.reduced();
        Ok(Guard { place })
    }

    /// The same of a place, where the table has what was found so far.
    fn fix_with(
        &mut self,
        done: &mut Done,
        place: usize,
        prop: u32,
        value: bool,
    ) -> Result<usize, Memory>
        requires has { HasPlace self.old place }
        requires within { prop < self.old.names }
        requires done { AreDone (IsFixedAt self.old prop value) done.old.entries }
        ensures grows { Grows self.old self.new }
        ensures kept { places self.old ≤ places self.new }
        ensures done { AreDone (IsFixedAt self.new prop value) done.new.entries }
        ensures fixed { IfOk result (IsFixedAt self.new prop value place) }
    {
        self.reduced();
        let level = self.level(place);
        if prop < level {
            return Ok(place);
        }
        let (low, high) = self.sides(place, level);
        if level == prop {
            return Ok(if value { high } else { low });
        }
        if let Some(found) = done_at(done, place) {
            return Ok(found);
        }
        let fixed_low = self.fix_with(done, low, prop, value)?;
        let fixed_high = self.fix_with(done, high, prop, value)?;
        let found = self.choice(level, fixed_low, fixed_high)?;
        put_done(done, place, found)?;
        Ok(found)
    }
}
