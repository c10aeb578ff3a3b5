//! A literal together with a guard, which is mostly one node more.

ghost use Rattle.std.specs.Prelude.{◌≡◌, ◌<◌, ◌≤◌, ◌&&◌, ◌||◌, IfOk};
ghost use Rattle.label_guards.specs.Guards.{IsGuardOf, literal_truth, truth_in};
ghost use Rattle.label_guards.specs.Nodes.{Grows};
ghost use Rattle.label_guards.specs.Operations.{IsPlaceOf};
ghost use Rattle.label_guards.specs.Store.{Has, HasPlace, Keeps, outcome};

use crate::cubes::Literal;
use crate::guard::Guard;
use crate::guards::{Guards, Operation};
use aut_base::Memory;

#[tactic(auto, using(crate::proofs::labelled::LabelTruth::keeps))]
impl Guards {
    /// The guard that is true where this one is and the proposition holds, or fails. Where the guard asks for later propositions
    /// only, that is one node above it.
    pub fn and_literal(&mut self, prop: u32, holds: bool, g: Guard) -> Result<Guard, Memory>
        requires within { prop < self.old.names }
        requires has { Has self.old g }
        ensures keeps { Keeps self.old self.new }
        ensures and { IfOk result (IsGuardOf self.new (λ on. literal_truth prop holds on && truth_in self.old g on)) }
    {
        self.reduced();
        let place = self.meet_literal(Literal { prop, holds }, g.place)?;
        self.reduced();
        Ok(Guard { place })
    }

    /// The guard that is true where this one is, and where the proposition holds, or fails. Where the guard asks for later
    /// propositions only, that is one node above it.
    pub fn or_literal(&mut self, prop: u32, holds: bool, g: Guard) -> Result<Guard, Memory>
        requires within { prop < self.old.names }
        requires has { Has self.old g }
        ensures keeps { Keeps self.old self.new }
        ensures or { IfOk result (IsGuardOf self.new (λ on. literal_truth prop holds on || truth_in self.old g on)) }
    {
        self.reduced();
        let place = self.join_literal(Literal { prop, holds }, g.place)?;
        self.reduced();
        Ok(Guard { place })
    }

    /// The place that is true where both the literal and this place are.
    fn meet_literal(&mut self, literal: Literal, place: usize) -> Result<usize, Memory>
        requires within { literal.prop < self.old.names }
        requires has { HasPlace self.old place }
        ensures grows { Grows self.old self.new }
        ensures met { IfOk result (IsPlaceOf self.new (λ on. literal_truth literal.prop literal.holds on && outcome self.old.nodes on place)) }
    {
        if literal.prop < self.level(place) {
            return self.branch(literal, 0, place);
        }
        let own = self.branch(literal, 0, 1)?;
        self.combine(Operation::And, own, place)
    }

    /// The place that is true where the literal or this place is.
    fn join_literal(&mut self, literal: Literal, place: usize) -> Result<usize, Memory>
        requires within { literal.prop < self.old.names }
        requires has { HasPlace self.old place }
        ensures grows { Grows self.old self.new }
        ensures joined { IfOk result (IsPlaceOf self.new (λ on. literal_truth literal.prop literal.holds on || outcome self.old.nodes on place)) }
    {
        if literal.prop < self.level(place) {
            return self.branch(literal, place, 1);
        }
        let own = self.branch(literal, 0, 1)?;
        self.combine(Operation::Or, own, place)
    }
}
