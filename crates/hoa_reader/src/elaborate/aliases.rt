//! What aliases stand for.

ghost use Rattle.std.specs.Prelude.{◌≡◌, ◌+◌, ℕ, max, List, map, true, is_some, slice_get, Some, IfOk};
ghost use Rattle.std.specs.Option.{option_map};
ghost use Rattle.hoa_reader.specs.Described.{Meaning, expanded};
ghost use Rattle.hoa_reader.specs.inner.Growing.{AreAliasesKnown, IsKnownAs, alias_name, cap, capped_height, capped_heights, capped_size, capped_sizes, heights_in, meaning_names, meanings_by, sizes_in};
ghost use Rattle.hoa_reader.specs.inner.PickedOut.{alias_def, are_defined};
ghost use Rattle.hoa_reader.specs.inner.Places.{place_in};
ghost use Rattle.hoa_parser.specs.Raw.{all_literals, raw_all, raw_tree, raw_trees};
ghost use Rattle.hoa_reader.specs.declared.elaborate.parts.AliasDef.{AliasDef};
ghost use Rattle.hoa_reader.specs.Validity.{aliases_among, leaves_pass};

use crate::elaborate::cube::cube_shape;
use crate::elaborate::parts::AliasDef;
use crate::elaborate::places::Places;
use aut_base::Memory;
use hoa_lexer::Name;
use hoa_parser::RawLabel;
use std::alloc::Global;

/// What is known of an alias: the place of a definition that says the same and is no alias itself, and how tall and
/// large the label is, at most `u64::MAX`.
#[derive(Clone, Copy)]
pub(crate) struct Known {
    pub(crate) place: usize,
    pub(crate) height: u64,
    pub(crate) size: u64,
}

/// How tall and how large a label is once its aliases are replaced, at most `u64::MAX`.
#[derive(Clone, Copy)]
pub(crate) struct Growth {
    pub(crate) height: u64,
    pub(crate) size: u64,
}

// Why so: 'How far labels would grow is found without growing them' in docs/DECISIONS.md.
/// How tall and how large the label is once its aliases are replaced.
#[cycle(growth)]
#[tactic(auto, using(hoa_parser::proofs::grammar::RawTrees::raw_tree_rules))]
pub(crate) fn growth_of<'a>(label: &'a RawLabel, known: &Places<'a, Known>) -> Growth
    ensures height { result.height ≡ capped_height (heights_in known.now) (raw_tree label.now) }
    ensures size { result.size ≡ capped_size (sizes_in known.now) (raw_tree label.now) }
{
    match label {
        RawLabel::True => Growth { height: 1, size: 1 },
        RawLabel::False => Growth { height: 1, size: 1 },
        RawLabel::Prop(_) => Growth { height: 1, size: 1 },
        RawLabel::Negated(_) => one_more(Growth { height: 1, size: 1 }),
        RawLabel::Cube { names, values } => cube_growth(*names, *values),
        RawLabel::Alias(name) => match known.find(name) {
            Some(known) => Growth {
                height: known.height,
                size: known.size,
            },
            None => Growth { height: 1, size: 1 },
        },
        RawLabel::Not(inner) => one_more(growth_of(inner, known)),
        RawLabel::And(parts) => one_more(both(
            growth_of(&parts.first, known),
            both(
                growth_of(&parts.second, known),
                all_growth(&parts.others, known),
            ),
        )),
        RawLabel::Or(parts) => one_more(both(
            growth_of(&parts.first, known),
            both(
                growth_of(&parts.second, known),
                all_growth(&parts.others, known),
            ),
        )),
    }
}

// The height of the tallest, and the size of all together.
#[cycle(growth)]
fn all_growth<'a>(labels: &'a [RawLabel], known: &Places<'a, Known>) -> Growth
    ensures height { result.height ≡ capped_heights (heights_in known.now) (raw_trees (map raw_tree labels.now)) }
    ensures size { result.size ≡ capped_sizes (sizes_in known.now) (raw_trees (map raw_tree labels.now)) }
{
    let mut all = Growth { height: 0, size: 0 };
    'labels: for label in labels {
        all = both(all, growth_of(label, known));
    }
    all
}

/// What a conjunction of literals grows to: it has no alias.
fn cube_growth(names: u32, values: u32) -> Growth
    ensures height { (known : List ℕ → ℕ) → result.height ≡ capped_height known (raw_all (all_literals names values)) }
    ensures size { (known : List ℕ → ℕ) → result.size ≡ capped_size known (raw_all (all_literals names values)) }
{
    let shape = cube_shape(names, values);
    Growth {
        height: shape.height,
        size: shape.size,
    }
}

/// The height of the taller, and the size of both together.
fn both(one: Growth, other: Growth) -> Growth
    ensures height { result.height ≡ max one.height other.height }
    ensures size { result.size ≡ cap (one.size + other.size) }
{
    Growth {
        height: one.height.max(other.height),
        size: one.size.saturating_add(other.size),
    }
}

/// One sign more around it.
fn one_more(inner: Growth) -> Growth
    ensures height { result.height ≡ cap (inner.height + 1) }
    ensures size { result.size ≡ cap (inner.size + 1) }
{
    Growth {
        height: inner.height.saturating_add(1),
        size: inner.size.saturating_add(1),
    }
}

/// The alias that the label is.
#[tactic(auto, using(hoa_parser::proofs::grammar::RawTrees::raw_tree_rules))]
fn alias_in(label: &RawLabel) -> Option<&Name>
    ensures { option_map (λ t. t.now) result ≡ alias_name (raw_tree label.now) }
{
    match label {
        RawLabel::Alias(name) => Some(name),
        RawLabel::True => None,
        RawLabel::False => None,
        RawLabel::Prop(_) => None,
        RawLabel::Negated(_) => None,
        RawLabel::Cube { .. } => None,
        RawLabel::Not(_) => None,
        RawLabel::And(_) => None,
        RawLabel::Or(_) => None,
    }
}

/// What is known of an alias that is defined as this, at this place, by what is known of those before it.
fn known_of<'a>(place: usize, label: &'a RawLabel, known: &Places<'a, Known>) -> Known
    requires { leaves_pass (λ i. true) (λ name. is_some (place_in known.now name)) (raw_tree label.now) ≡ true }
    ensures { (ms : List Meaning) (defs : List AliasDef) (def : AliasDef) → slice_get defs place ≡ Some def → def.label.now ≡ label.now → AreAliasesKnown ms defs known.now
        → aliases_among (meaning_names ms) (raw_tree label.now) ≡ true → IsKnownAs ms defs (expanded ms (raw_tree label.now)) result }
{
    if let Some(name) = alias_in(label) {
        match known.find(name) {
            Some(other) => return other,
            None => unreachable!(),
        }
    }
    let growth = growth_of(label, known);
    Known {
        place,
        height: growth.height,
        size: growth.size,
    }
}

/// What is known of each alias.
pub(crate) fn known_aliases<'a>(
    alloc: Global,
    defs: &[AliasDef<'a>],
) -> Result<Places<'a, Known>, Memory>
    requires { are_defined (map alias_def defs.now) ≡ true }
    ensures { IfOk result (AreAliasesKnown (meanings_by defs.now) defs.now) }
{
    let mut known = Places::new(alloc);
    let mut place = 0;
    'defs: for def in defs {
        let new = known_of(place, def.label, &known);
        known.add(def.name.as_bytes(), new)?;
        place += 1;
    }
    Ok(known)
}
