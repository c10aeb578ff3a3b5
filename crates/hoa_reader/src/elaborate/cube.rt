//! Conjunctions of literals that are given by their bits.

ghost use Rattle.std.specs.Prelude.{◌≡◌, ◌+◌, ◌<◌, ◌++◌, ◌∷◌, [], ℕ, List, length, true, IfOk};
ghost use Rattle.aut_base.specs.CanonicalLabel.{all_of};
ghost use Rattle.aut_base.specs.Label.{AllBelow, label_tree, truth};
ghost use Rattle.hoa_parser.specs.Raw.{RawTree, all_literals, has_bit, maybe_literal, raw_all, raw_literal};
ghost use Rattle.hoa_reader.specs.Described.{Meaning, expanded};
ghost use Rattle.hoa_reader.specs.inner.Cubes.{Tells, TellsAll, cube_tree, each_of, parts_of};
ghost use Rattle.label_guards.specs.Guards.{IsGuardOf};
ghost use Rattle.label_guards.specs.Store.{Keeps};

use crate::elaborate::labels::{is_set, literal};
use crate::elaborate::shape::{Shape, both, none, one_more, one_sign};
use aut_base::{Label, Labels, Memory};
use label_guards::{Guard, Guards};
use std::alloc::Global;

/// What a visit of it tells. It goes over the propositions up to the last one that it asks for.
pub(crate) fn cube_shape(names: u32, values: u32) -> Shape
    ensures { Tells result (raw_all (all_literals names values)) }
{
    let mut all = none();
    let mut count = 0;
    let mut place = 0;
    'places: while u64::from(names) >> place != 0 {
        all = with_place(all, names, values, place);
        count += (names >> place) % 2;
        place += 1;
    }
    joined_shape(all, count)
}

/// What these tell with the literal of this place, if it is asked for.
#[inline]
fn with_place(all: Shape, names: u32, values: u32, place: u32) -> Shape
    requires { place < 32 }
    ensures { (ts : List RawTree) → TellsAll all ts → TellsAll result (ts ++ maybe_literal (has_bit names place) place (has_bit values place)) }
{
    if !is_set(u64::from(names), place) {
        return all;
    }
    both(all, literal_shape(place, is_set(u64::from(values), place)))
}

/// What one literal tells.
#[inline]
fn literal_shape(place: u32, holds: bool) -> Shape
    ensures { Tells result (raw_literal place holds) }
{
    let own = one_sign(u64::from(place) + 1, true);
    if holds {
        return own;
    }
    one_more(own)
}

/// What the conjunction of so many labels tells, by what they tell together.
#[inline]
fn joined_shape(all: Shape, count: u32) -> Shape
    ensures { (ts : List RawTree) → length ts ≡ count → TellsAll all ts → Tells result (raw_all ts) }
{
    match count {
        0 => one_sign(0, true),
        1 => all,
        _ => one_more(all),
    }
}

/// Its guard.
pub(crate) fn cube_guard(guards: &mut Guards, names: u32, values: u32) -> Result<Guard, Memory>
    requires { AllBelow guards.old.names (cube_tree names values) }
    ensures keeps { Keeps guards.old guards.new }
    ensures guard { IfOk result (IsGuardOf guards.new (λ on. truth on (cube_tree names values))) }
{
    guards.of_cube(names, values)
}

/// The parts of a conjunction.
#[derive(Drop)]
pub(crate) enum Conjunction {
    None,
    One(Label),
    More(Labels),
}

/// Its label.
pub(crate) fn cube_label(alloc: Global, names: u32, values: u32) -> Result<Label, Memory>
    ensures { IfOk result (λ new. (meanings : List Meaning) → label_tree new ≡ expanded meanings (raw_all (all_literals names values))) }
{
    let mut parts = Conjunction::None;
    let mut place = 0;
    'places: while place < 32 {
        parts = with_part(alloc, parts, names, values, place)?;
        place += 1;
    }
    joined_label(alloc, parts)
}

/// The parts with the literal of this place, if it is asked for.
fn with_part(
    alloc: Global,
    parts: Conjunction,
    names: u32,
    values: u32,
    place: u32,
) -> Result<Conjunction, Memory>
    ensures { IfOk result (λ new. (meanings : List Meaning) → parts_of new ≡ parts_of parts ++ each_of meanings (maybe_literal (has_bit names place) place (has_bit values place))) }
{
    if !is_set(u64::from(names), place) {
        return Ok(parts);
    }
    one_more_part(alloc, parts, literal(u64::from(values), place))
}

/// One part more, at the end.
#[tactic(auto, using(aut_base::proofs::trees::LabelTrees::label_trees))]
fn one_more_part(alloc: Global, parts: Conjunction, part: Label) -> Result<Conjunction, Memory>
    ensures { IfOk result (λ new. parts_of new ≡ parts_of parts ++ label_tree part ∷ []) }
{
    match parts {
        Conjunction::None => Ok(Conjunction::One(part)),
        Conjunction::One(first) => Ok(Conjunction::More(Labels::pair(alloc, first, part))),
        Conjunction::More(labels) => {
            let mut labels = labels;
            labels.push(part)?;
            Ok(Conjunction::More(labels))
        }
    }
}

/// The conjunction of the parts.
#[tactic(auto, using(aut_base::proofs::trees::LabelTrees::label_trees))]
fn joined_label(alloc: Global, parts: Conjunction) -> Result<Label, Memory>
    ensures { IfOk result (λ new. label_tree new ≡ all_of (parts_of parts)) }
{
    match parts {
        Conjunction::None => Ok(Label::True),
        Conjunction::One(part) => Ok(part),
        Conjunction::More(labels) => Ok(Label::And(Box::new(alloc, labels)?)),
    }
}
