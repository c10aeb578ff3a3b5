//! Guards straight from labels as they are written.

ghost use Rattle.std.specs.Prelude.{◌<◌, ◌&&◌, ◌||◌, IfOk};
ghost use Rattle.aut_base.specs.Label.{AllBelow, EachBelow, all_true, some_true, truth};
ghost use Rattle.hoa_parser.specs.Raw.{raw_tree};
ghost use Rattle.hoa_reader.specs.inner.TreeEdges.{HasKnown, parts_replaced, replaced};
ghost use Rattle.label_guards.specs.Guards.{IsGuardOf, literal_truth, truth_in};
ghost use Rattle.label_guards.specs.Store.{Has, Keeps};

use crate::elaborate::cube::cube_guard;
use crate::elaborate::edges::Shared;
use aut_base::Memory;
use hoa_parser::{RawLabel, RawLabels};
use label_guards::{Guard, Guards};

// Why so: 'An automaton can be built straight from what was read' in docs/DECISIONS.md.
/// The guard of the label with each alias replaced by what it stands for. No label is made.
#[cycle(guard_written)]
#[tactic(auto, using(hoa_parser::proofs::grammar::RawTrees::raw_tree_rules))]
pub(crate) fn guard_written(
    guards: &mut Guards,
    shared: &Shared<'_>,
    label: &RawLabel,
) -> Result<Guard, Memory>
    requires known { HasKnown shared.now }
    requires below { AllBelow guards.old.names (replaced shared.now (raw_tree label.now)) }
    ensures keeps { Keeps guards.old guards.new }
    ensures guard { IfOk result (IsGuardOf guards.new (λ on. truth on (replaced shared.now (raw_tree label.now)))) }
{
    match label {
        RawLabel::True => Ok(guards.always()),
        RawLabel::False => Ok(guards.never()),
        RawLabel::Prop(prop) => literal(guards, *prop, true),
        RawLabel::Negated(prop) => literal(guards, *prop, false),
        RawLabel::Cube { names, values } => cube_guard(guards, *names, *values),
        RawLabel::Alias(name) => match shared.known.find(name) {
            Some(alias) => guard_written(guards, shared, shared.defs[alias.place].label),
            None => Ok(guards.never()),
        },
        RawLabel::Not(inner) => {
            let inner = guard_written(guards, shared, inner)?;
            guards.not(inner)
        }
        RawLabel::And(parts) => guard_of_all(guards, shared, parts),
        RawLabel::Or(parts) => guard_of_some(guards, shared, parts),
    }
}

/// The guard of a conjunction. It goes from the last part to the first: mostly the parts are literals whose propositions rise,
/// and each is one node above those behind it.
#[cycle(guard_written)]
fn guard_of_all(
    guards: &mut Guards,
    shared: &Shared<'_>,
    parts: &RawLabels,
) -> Result<Guard, Memory>
    requires known { HasKnown shared.now }
    requires below { EachBelow guards.old.names (parts_replaced shared.now parts.now) }
    ensures keeps { Keeps guards.old guards.new }
    ensures guard { IfOk result (IsGuardOf guards.new (λ on. all_true on (parts_replaced shared.now parts.now))) }
{
    let mut all = guards.always();
    let mut left = parts.len();
    'parts: while left > 0 {
        left -= 1;
        all = met(guards, shared, parts.at(left), all)?;
    }
    Ok(all)
}

/// The guard of a disjunction, from its last part to its first.
#[cycle(guard_written)]
fn guard_of_some(
    guards: &mut Guards,
    shared: &Shared<'_>,
    parts: &RawLabels,
) -> Result<Guard, Memory>
    requires known { HasKnown shared.now }
    requires below { EachBelow guards.old.names (parts_replaced shared.now parts.now) }
    ensures keeps { Keeps guards.old guards.new }
    ensures guard { IfOk result (IsGuardOf guards.new (λ on. some_true on (parts_replaced shared.now parts.now))) }
{
    let mut some = guards.never();
    let mut left = parts.len();
    'parts: while left > 0 {
        left -= 1;
        some = joined(guards, shared, parts.at(left), some)?;
    }
    Ok(some)
}

/// The guard that is true where both the label and this guard are.
#[cycle(guard_written)]
#[tactic(auto, using(hoa_parser::proofs::grammar::RawTrees::raw_tree_rules))]
fn met(
    guards: &mut Guards,
    shared: &Shared<'_>,
    label: &RawLabel,
    guard: Guard,
) -> Result<Guard, Memory>
    requires known { HasKnown shared.now }
    requires below { AllBelow guards.old.names (replaced shared.now (raw_tree label.now)) }
    requires has { Has guards.old guard }
    ensures keeps { Keeps guards.old guards.new }
    ensures met { IfOk result (IsGuardOf guards.new (λ on. truth on (replaced shared.now (raw_tree label.now)) && truth_in guards.old guard on)) }
{
    match label {
        RawLabel::Prop(prop) => guards.and_literal(*prop, true, guard),
        RawLabel::Negated(prop) => guards.and_literal(*prop, false, guard),
        _ => {
            let own = guard_written(guards, shared, label)?;
            guards.and(own, guard)
        }
    }
}

/// The guard that is true where the label or this guard is.
#[cycle(guard_written)]
#[tactic(auto, using(hoa_parser::proofs::grammar::RawTrees::raw_tree_rules))]
fn joined(
    guards: &mut Guards,
    shared: &Shared<'_>,
    label: &RawLabel,
    guard: Guard,
) -> Result<Guard, Memory>
    requires known { HasKnown shared.now }
    requires below { AllBelow guards.old.names (replaced shared.now (raw_tree label.now)) }
    requires has { Has guards.old guard }
    ensures keeps { Keeps guards.old guards.new }
    ensures joined { IfOk result (IsGuardOf guards.new (λ on. truth on (replaced shared.now (raw_tree label.now)) || truth_in guards.old guard on)) }
{
    match label {
        RawLabel::Prop(prop) => guards.or_literal(*prop, true, guard),
        RawLabel::Negated(prop) => guards.or_literal(*prop, false, guard),
        _ => {
            let own = guard_written(guards, shared, label)?;
            guards.or(own, guard)
        }
    }
}

/// The guard of one literal.
fn literal(guards: &mut Guards, prop: u32, holds: bool) -> Result<Guard, Memory>
    requires { prop < guards.old.names }
    ensures keeps { Keeps guards.old guards.new }
    ensures guard { IfOk result (IsGuardOf guards.new (literal_truth prop holds)) }
{
    let all = guards.always();
    guards.and_literal(prop, holds, all)
}
