//! The guard of a label.

ghost use Rattle.std.specs.Prelude.{◌≡◌, ◌<◌, ◌≤◌, ℕ, Bool, not, ◌&&◌, ◌||◌, if◌then◌else◌, IfOk, IfSome};
ghost use Rattle.aut_base.specs.CanonicalLabel.{canonical_label, literal_tree};
ghost use Rattle.aut_base.specs.Label.{AllBelow, EachBelow, Not, all_true, label_list, label_tree, some_true, trees, truth};
ghost use Rattle.label_guards.specs.Nodes.{Grows, level};
ghost use Rattle.label_guards.specs.Operations.{IsPlaceOf};
ghost use Rattle.label_guards.specs.Pieces.{literal_of};
ghost use Rattle.label_guards.specs.Store.{Has, HasPlace, Keeps, label_in, outcome, places};

use crate::cubes::Literal;
use crate::guard::Guard;
use crate::guards::{Guards, Operation};
use aut_base::{Label, Labels, Memory};

impl Guards {
    /// The guard with the truth of this label.
    #[tactic(auto, using(crate::proofs::labelled::LabelTruth::keeps))]
    pub fn of_label(&mut self, label: &Label) -> Result<Guard, Memory>
        requires { AllBelow self.old.names (label_tree label.now) }
        ensures keeps { Keeps self.old self.new }
        ensures has { IfOk result (Has self.new) }
        ensures label { IfOk result (λ g. label_in self.new g ≡ canonical_label self.old.names (label_tree label.now)) }
    {
        let place = self.place_of(label)?;
        Ok(Guard { place })
    }

    /// The place of a label.
    #[cycle(place_of)]
    fn place_of(&mut self, label: &Label) -> Result<usize, Memory>
        requires { AllBelow self.old.names (label_tree label.now) }
        ensures grows { Grows self.old self.new }
        ensures kept { places self.old ≤ places self.new }
        ensures place { IfOk result (IsPlaceOf self.new (λ on. truth on (label_tree label.now))) }
    {
        match label {
            Label::True => Ok(1),
            Label::False => Ok(0),
            Label::Prop(prop) => self.choice(*prop, 0, 1),
            Label::Negated(prop) => self.choice(*prop, 1, 0),
            Label::Not(inner) => self.place_of_not(inner),
            Label::And(parts) => self.place_of_all(parts),
            Label::Or(parts) => self.place_of_some(parts),
        }
    }

    /// The place of what is true where the label isn't.
    #[cycle(place_of)]
    fn place_of_not(&mut self, label: &Label) -> Result<usize, Memory>
        requires { AllBelow self.old.names (label_tree label.now) }
        ensures grows { Grows self.old self.new }
        ensures kept { places self.old ≤ places self.new }
        ensures place { IfOk result (IsPlaceOf self.new (λ on. not (truth on (label_tree label.now)))) }
    {
        if let Label::Prop(prop) = label {
            return self.choice(*prop, 1, 0);
        }
        let place = self.place_of(label)?;
        self.combine(Operation::Xor, place, 1)
    }

    /// The place of a conjunction. It goes from the last part to the first: the propositions of a canonical cube rise,
    /// so each literal of it is one node above the place of those behind it.
    #[cycle(place_of)]
    fn place_of_all(&mut self, parts: &Labels) -> Result<usize, Memory>
        requires { EachBelow self.old.names (trees (label_list parts.now)) }
        ensures grows { Grows self.old self.new }
        ensures kept { places self.old ≤ places self.new }
        ensures place { IfOk result (IsPlaceOf self.new (λ on. all_true on (trees (label_list parts.now)))) }
    {
        let mut place = 1;
        let mut left = parts.len();
        'parts: while left > 0 {
            left -= 1;
            place = self.meet(parts.at(left), place)?;
        }
        Ok(place)
    }

    /// The place of a disjunction, from its last part to its first.
    #[cycle(place_of)]
    fn place_of_some(&mut self, parts: &Labels) -> Result<usize, Memory>
        requires { EachBelow self.old.names (trees (label_list parts.now)) }
        ensures grows { Grows self.old self.new }
        ensures kept { places self.old ≤ places self.new }
        ensures place { IfOk result (IsPlaceOf self.new (λ on. some_true on (trees (label_list parts.now)))) }
    {
        let mut place = 0;
        let mut left = parts.len();
        'parts: while left > 0 {
            left -= 1;
            place = self.join(parts.at(left), place)?;
        }
        Ok(place)
    }

    /// The place that is true where both the label and this place are.
    #[cycle(place_of)]
    fn meet(&mut self, label: &Label, place: usize) -> Result<usize, Memory>
        requires below { AllBelow self.old.names (label_tree label.now) }
        requires has { HasPlace self.old place }
        ensures grows { Grows self.old self.new }
        ensures kept { places self.old ≤ places self.new }
        ensures met { IfOk result (IsPlaceOf self.new (λ on. truth on (label_tree label.now) && outcome self.old.nodes on place)) }
    {
        let first = self.literal_before(label, place);
        if let Some(literal) = first {
            return self.branch(literal, 0, place);
        }
        let other = self.place_of(label)?;
        self.combine(Operation::And, other, place)
    }

    /// The place that is true where the label or this place is.
    #[cycle(place_of)]
    fn join(&mut self, label: &Label, place: usize) -> Result<usize, Memory>
        requires below { AllBelow self.old.names (label_tree label.now) }
        requires has { HasPlace self.old place }
        ensures grows { Grows self.old self.new }
        ensures kept { places self.old ≤ places self.new }
        ensures joined { IfOk result (IsPlaceOf self.new (λ on. truth on (label_tree label.now) || outcome self.old.nodes on place)) }
    {
        let first = self.literal_before(label, place);
        if let Some(literal) = first {
            return self.branch(literal, place, 1);
        }
        let other = self.place_of(label)?;
        self.combine(Operation::Or, other, place)
    }

    /// The literal that the label is, if its proposition comes before all that are asked for at this place.
    fn literal_before(&self, label: &Label, place: usize) -> Option<Literal>
        requires { HasPlace self.now place }
        ensures is { IfSome result (λ literal. label_tree label.now ≡ literal_tree (literal_of literal)) }
        ensures before { IfSome result (λ literal. literal.prop < level self.now place) }
        ensures within { IfSome result (λ literal. literal.prop < self.now.names) }
    {
        let literal = as_literal(label)?;
        if literal.prop < self.level(place) {
            return Some(literal);
        }
        None
    }

    /// The place that goes on at `holds` where the literal is true, and at `fails` elsewhere.
    pub(crate) fn branch(
        &mut self,
        literal: Literal,
        fails: usize,
        holds: usize,
    ) -> Result<usize, Memory>
        requires fails { HasPlace self.old fails }
        requires holds { HasPlace self.old holds }
        requires fails_later { literal.prop < level self.old fails }
        requires holds_later { literal.prop < level self.old holds }
        ensures grows { Grows self.old self.new }
        ensures kept { places self.old ≤ places self.new }
        ensures place { IfOk result (IsPlaceOf self.new (λ on. if truth on (literal_tree (literal_of literal)) then outcome self.old.nodes on holds else outcome self.old.nodes on fails)) }
    {
        if literal.holds {
            return self.choice(literal.prop, fails, holds);
        }
        self.choice(literal.prop, holds, fails)
    }
}

/// The literal that the label is, if it is one.
fn as_literal(label: &Label) -> Option<Literal>
    ensures { IfSome result (λ literal. label_tree label.now ≡ literal_tree (literal_of literal)) }
{
    match label {
        Label::Prop(prop) => Some(Literal {
            prop: *prop,
            holds: true,
        }),
        Label::Negated(prop) => Some(Literal {
            prop: *prop,
            holds: false,
        }),
        Label::Not(inner) => negated(inner),
        _ => None,
    }
}

/// The literal that says that the label fails, if the label is a proposition.
fn negated(label: &Label) -> Option<Literal>
    ensures { IfSome result (λ literal. Not (label_tree label.now) ≡ literal_tree (literal_of literal)) }
{
    match label {
        Label::Prop(prop) => Some(Literal {
            prop: *prop,
            holds: false,
        }),
        _ => None,
    }
}
