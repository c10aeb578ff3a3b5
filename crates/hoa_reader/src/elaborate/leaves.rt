//! The rules that speak of what stands in labels and in the condition.

ghost use Rattle.std.specs.Prelude.{◌≡◌, ◌&&◌, [], map, true, false, is_some, nat_lt, MatchOption, IfOk};
ghost use Rattle.std.specs.List.{list_all};
ghost use Rattle.aut_base.specs.Formula.{formula_list, formula_tree, trees};
ghost use Rattle.hoa_reader.specs.inner.PickedOut.{HasDefined, alias_def, are_defined, label_refs, line_names};
ghost use Rattle.hoa_reader.specs.inner.Places.{is_listed, place_in};
ghost use Rattle.hoa_parser.specs.Raw.{raw_tree, raw_trees};
ghost use Rattle.hoa_reader.specs.Validity.{aliases_among, all_leaves_pass, all_sets_below, leaves_pass, props_below, sets_below};

use crate::elaborate::cube::cube_shape;
use crate::elaborate::parts::AliasDef;
use crate::elaborate::places::Places;
use aut_base::{Formula, Formulas, Memory};
use hoa_parser::RawLabel;
use std::alloc::Global;

/// Whether each set of the condition is below their number.
#[cycle(sets_below)]
#[tactic(auto, using(aut_base::proofs::trees::FormulaTrees::formula_trees))]
pub(crate) fn sets_below(formula: &Formula, sets: u32) -> bool
    ensures { result ≡ sets_below sets (formula_tree formula.now) }
{
    match formula {
        Formula::True => true,
        Formula::False => true,
        Formula::Inf { set, .. } => *set < sets,
        Formula::Fin { set, .. } => *set < sets,
        Formula::And(parts) => all_sets_below(parts, sets),
        Formula::Or(parts) => all_sets_below(parts, sets),
    }
}

// The same of each of these.
#[cycle(sets_below)]
fn all_sets_below(parts: &Formulas, sets: u32) -> bool
    ensures { result ≡ all_sets_below sets (trees (formula_list parts.now)) }
{
    'places: for place in 0..parts.len() {
        if !sets_below(parts.at(place), sets) {
            return false;
        }
    }
    true
}

/// Whether each proposition of the label is below the number of names.
#[cycle(props_below)]
#[tactic(auto, using(hoa_parser::proofs::grammar::RawTrees::raw_tree_rules))]
pub(crate) fn props_below(label: &RawLabel, names: usize) -> bool
    ensures { result ≡ props_below names (raw_tree label.now) }
{
    match label {
        RawLabel::True => true,
        RawLabel::False => true,
        RawLabel::Prop(place) | RawLabel::Negated(place) => (*place as usize) < names,
        RawLabel::Cube { names: own, values } => cube_shape(*own, *values).props <= names as u64,
        RawLabel::Alias(_) => true,
        RawLabel::Not(inner) => props_below(inner, names),
        RawLabel::And(parts) => props_below(&parts.first, names)
            && (props_below(&parts.second, names) && all_props_below(&parts.others, names)),
        RawLabel::Or(parts) => props_below(&parts.first, names)
            && (props_below(&parts.second, names) && all_props_below(&parts.others, names)),
    }
}

// The same of each of these.
#[cycle(props_below)]
fn all_props_below(parts: &[RawLabel], names: usize) -> bool
    ensures { result ≡ all_leaves_pass (λ i. nat_lt i names) (λ name. true) (raw_trees (map raw_tree parts.now)) }
{
    'parts: for part in parts {
        if !props_below(part, names) {
            return false;
        }
    }
    true
}

/// Whether each alias of the label is among these.
#[cycle(aliases_among)]
#[tactic(auto, using(hoa_parser::proofs::grammar::RawTrees::raw_tree_rules))]
pub(crate) fn aliases_among<'a>(label: &'a RawLabel, names: &Places<'a, ()>) -> bool
    ensures { result ≡ leaves_pass (λ i. true) (λ name. is_some (place_in names.now name)) (raw_tree label.now) }
{
    match label {
        RawLabel::True => true,
        RawLabel::False => true,
        RawLabel::Prop(_) => true,
        RawLabel::Negated(_) => true,
        RawLabel::Cube { .. } => true,
        RawLabel::Alias(name) => names.find(name).is_some(),
        RawLabel::Not(inner) => aliases_among(inner, names),
        RawLabel::And(parts) => aliases_among(&parts.first, names)
            && (aliases_among(&parts.second, names) && all_among(&parts.others, names)),
        RawLabel::Or(parts) => aliases_among(&parts.first, names)
            && (aliases_among(&parts.second, names) && all_among(&parts.others, names)),
    }
}

// The same of each of these.
#[cycle(aliases_among)]
fn all_among<'a>(parts: &'a [RawLabel], names: &Places<'a, ()>) -> bool
    ensures { result ≡ all_leaves_pass (λ i. true) (λ name. is_some (place_in names.now name)) (raw_trees (map raw_tree parts.now)) }
{
    'parts: for part in parts {
        if !aliases_among(part, names) {
            return false;
        }
    }
    true
}

/// Whether no alias stands in the label.
#[cycle(has_no_alias)]
#[tactic(auto, using(hoa_parser::proofs::grammar::RawTrees::raw_tree_rules))]
pub(crate) fn has_no_alias(label: &RawLabel) -> bool
    ensures { result ≡ aliases_among [] (raw_tree label.now) }
{
    match label {
        RawLabel::True => true,
        RawLabel::False => true,
        RawLabel::Prop(_) => true,
        RawLabel::Negated(_) => true,
        RawLabel::Cube { .. } => true,
        RawLabel::Alias(_) => false,
        RawLabel::Not(inner) => has_no_alias(inner),
        RawLabel::And(parts) => has_no_alias(&parts.first)
            && (has_no_alias(&parts.second) && have_no_alias(&parts.others)),
        RawLabel::Or(parts) => has_no_alias(&parts.first)
            && (has_no_alias(&parts.second) && have_no_alias(&parts.others)),
    }
}

// The same of each of these.
#[cycle(has_no_alias)]
fn have_no_alias(parts: &[RawLabel]) -> bool
    ensures { result ≡ all_leaves_pass (λ i. true) (is_listed []) (raw_trees (map raw_tree parts.now)) }
{
    'parts: for part in parts {
        if !has_no_alias(part) {
            return false;
        }
    }
    true
}

/// Whether each proposition of each alias is below the number of names.
pub(crate) fn aliases_props_below(defs: &[AliasDef<'_>], names: usize) -> bool
    ensures { result ≡ list_all (λ line. props_below names line.label) (map alias_def defs.now) }
{
    'defs: for def in defs {
        if !props_below(def.label, names) {
            return false;
        }
    }
    true
}

/// The aliases, or `None` exactly where one is defined twice or uses one that isn't defined before it.
fn defined<'a>(alloc: Global, defs: &[AliasDef<'a>]) -> Result<Option<Places<'a, ()>>, Memory>
    ensures { IfOk result (λ found. MatchOption found (are_defined (map alias_def defs.now) ≡ false) (HasDefined (map alias_def defs.now))) }
{
    let mut names = Places::new(alloc);
    'defs: for def in defs {
        if !aliases_among(def.label, &names) {
            return Ok(None);
        }
        if !names.add(def.name.as_bytes(), ())? {
            return Ok(None);
        }
    }
    Ok(Some(names))
}

/// Whether no alias is defined twice, and each that another uses is defined before.
pub(crate) fn are_defined(alloc: Global, defs: &[AliasDef<'_>]) -> Result<bool, Memory>
    ensures { IfOk result (λ kept. kept ≡ are_defined (map alias_def defs.now)) }
{
    let found = defined(alloc, defs)?;
    Ok(found.is_some())
}

/// Whether no alias is defined twice, and each that is used is defined where it may be used.
pub(crate) fn defines_aliases<'a>(
    alloc: Global,
    defs: &[AliasDef<'a>],
    labels: &[&'a RawLabel],
) -> Result<bool, Memory>
    ensures { IfOk result (λ kept. kept ≡ (are_defined (map alias_def defs.now) && list_all (aliases_among (line_names (map alias_def defs.now))) (map label_refs labels.now))) }
{
    let Some(names) = defined(alloc, defs)? else {
        return Ok(false);
    };
    'labels: for label in labels {
        if !aliases_among(label, &names) {
            return Ok(false);
        }
    }
    Ok(true)
}
