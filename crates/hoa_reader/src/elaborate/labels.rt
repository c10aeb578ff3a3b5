//! The labels of edges.

ghost use Rattle.std.specs.Prelude.{◌≡◌, ◌≤◌, ◌==◌, ◌/◌, ◌%◌, ◌^◌, ◌∷◌, map, IfOk};
ghost use Rattle.aut_base.specs.Label.{LabelTree, label_list, label_tree};
ghost use Rattle.hoa_reader.specs.Described.{below, expanded, letter_label, literal};
ghost use Rattle.hoa_reader.specs.inner.Growing.{AreAliasesKnown, meanings_by};
ghost use Rattle.hoa_parser.specs.Raw.{raw_tree};

use crate::elaborate::aliases::Known;
use crate::elaborate::cube::cube_label;
use crate::elaborate::parts::AliasDef;
use crate::elaborate::places::Places;
use aut_base::{Label, Labels, Memory};
use hoa_parser::{RawLabel, RawLabels};
use std::alloc::Global;

/// The label with each alias replaced by what it stands for.
#[cycle(expand)]
#[tactic(auto, using(hoa_parser::proofs::grammar::RawTrees::raw_tree_rules))]
pub(crate) fn expand<'a>(
    alloc: Global,
    label: &'a RawLabel,
    defs: &[AliasDef<'a>],
    known: &Places<'a, Known>,
) -> Result<Label, Memory>
    requires { AreAliasesKnown (meanings_by defs.now) defs.now known.now }
    ensures { IfOk result (λ new. label_tree new ≡ expanded (meanings_by defs.now) (raw_tree label.now)) }
{
    match label {
        RawLabel::True => Ok(Label::True),
        RawLabel::False => Ok(Label::False),
        RawLabel::Prop(place) => Ok(Label::Prop(*place)),
        RawLabel::Negated(place) => Ok(Label::Negated(*place)),
        RawLabel::Cube { names, values } => cube_label(alloc, *names, *values),
        RawLabel::Alias(name) => match known.find(name) {
            Some(alias) => expand(alloc, defs[alias.place].label, defs, known),
            None => Ok(Label::False),
        },
        RawLabel::Not(inner) => {
            let inner = expand(alloc, inner, defs, known)?;
            Ok(Label::Not(Box::new(alloc, inner)?))
        }
        RawLabel::And(parts) => {
            let parts = expand_parts(alloc, parts, defs, known)?;
            Ok(Label::And(Box::new(alloc, parts)?))
        }
        RawLabel::Or(parts) => {
            let parts = expand_parts(alloc, parts, defs, known)?;
            Ok(Label::Or(Box::new(alloc, parts)?))
        }
    }
}

// The same of each part.
#[cycle(expand)]
fn expand_parts<'a>(
    alloc: Global,
    parts: &'a RawLabels,
    defs: &[AliasDef<'a>],
    known: &Places<'a, Known>,
) -> Result<Labels, Memory>
    requires { AreAliasesKnown (meanings_by defs.now) defs.now known.now }
    ensures { IfOk result (λ new. label_list new ≡ map (λ p. expanded (meanings_by defs.now) (raw_tree p)) (parts.now.first ∷ parts.now.second ∷ parts.now.others.items)) }
{
    let first = expand(alloc, &parts.first, defs, known)?;
    let second = expand(alloc, &parts.second, defs, known)?;
    let mut labels = Labels::pair(alloc, first, second);
    'others: for part in &parts.others {
        let part = expand(alloc, part, defs, known)?;
        labels.push(part)?;
    }
    Ok(labels)
}

/// The proposition, where the bit of its place is set in the letter's number, else its negation.
#[tactic(auto, using(aut_base::proofs::trees::LabelTrees::label_trees))]
pub(crate) fn literal(letter: u64, place: u32) -> Label
    ensures { label_tree result ≡ literal letter place }
{
    if is_set(letter, place) {
        return Label::Prop(place);
    }
    Label::Negated(place)
}

/// Whether the bit of this place is set.
pub(crate) fn is_set(number: u64, place: u32) -> bool
    ensures { result ≡ ((number / (2 ^ place)) % 2 == 1) }
{
    if place >= 64 {
        return false;
    }
    (number >> place) % 2 == 1
}

/// The label of the letter of this number over so many names.
#[tactic(auto, using(aut_base::proofs::trees::LabelTrees::label_trees))]
pub(crate) fn letter_label(alloc: Global, names: u32, letter: u64) -> Result<Label, Memory>
    ensures { IfOk result (λ new. label_tree new ≡ letter_label names letter) }
{
    match names {
        0 => Ok(Label::True),
        1 => Ok(literal(letter, 0)),
        _ => {
            let literals = literals(alloc, names, letter)?;
            Ok(Label::And(Box::new(alloc, literals)?))
        }
    }
}

/// The literals of the letter of this number over so many names.
fn literals(alloc: Global, names: u32, letter: u64) -> Result<Labels, Memory>
    requires { 2 ≤ names }
    ensures { IfOk result (λ new. label_list new ≡ map (literal letter) (below names)) }
{
    let first = literal(letter, 0);
    let second = literal(letter, 1);
    let mut labels = Labels::pair(alloc, first, second);
    'places: for place in 2..names {
        labels.push(literal(letter, place))?;
    }
    Ok(labels)
}
