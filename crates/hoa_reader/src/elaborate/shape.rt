//! What one visit of a label tells.

ghost use Rattle.std.specs.Prelude.{◌≡◌, ◌+◌, ◌&&◌, [], true, max, map};
ghost use Rattle.std.specs.Option.{option_map};
ghost use Rattle.hoa_parser.specs.Raw.{raw_tree, raw_trees};
ghost use Rattle.hoa_reader.specs.Validity.{aliases_among, all_leaves_pass};
ghost use Rattle.hoa_reader.specs.inner.Places.{is_listed};
ghost use Rattle.hoa_reader.specs.inner.Growing.{cap, capped_height, capped_heights, capped_size, capped_sizes};
ghost use Rattle.hoa_reader.specs.inner.Sums.{all_props_after, one_sign, option_height, option_plain, option_props, option_size, props_after};

use crate::elaborate::cube::cube_shape;
use hoa_parser::RawLabel;

/// What one visit of a label tells of it as it is written.
#[derive(Clone, Copy)]
pub(crate) struct Shape {
    /// The least number that is above every proposition.
    pub(crate) props: u64,
    /// Whether no alias stands in it.
    pub(crate) plain: bool,
    /// How tall it is, at most `u64::MAX`, where an alias counts as one sign.
    pub(crate) height: u64,
    /// How large it is, counted so too.
    pub(crate) size: u64,
}

/// What a visit of the label tells.
#[cycle(shape)]
#[tactic(auto, using(hoa_parser::proofs::grammar::RawTrees::raw_tree_rules))]
fn shape_of(label: &RawLabel) -> Shape
    ensures props { result.props ≡ props_after (raw_tree label.now) }
    ensures plain { result.plain ≡ aliases_among [] (raw_tree label.now) }
    ensures height { result.height ≡ capped_height one_sign (raw_tree label.now) }
    ensures size { result.size ≡ capped_size one_sign (raw_tree label.now) }
{
    match label {
        RawLabel::True => one_sign(0, true),
        RawLabel::False => one_sign(0, true),
        RawLabel::Prop(place) => one_sign(u64::from(*place) + 1, true),
        RawLabel::Negated(place) => one_more(one_sign(u64::from(*place) + 1, true)),
        RawLabel::Cube { names, values } => cube_shape(*names, *values),
        RawLabel::Alias(_) => one_sign(0, false),
        RawLabel::Not(inner) => one_more(shape_of(inner)),
        RawLabel::And(parts) => one_more(both(
            shape_of(&parts.first),
            both(shape_of(&parts.second), shape_of_all(&parts.others)),
        )),
        RawLabel::Or(parts) => one_more(both(
            shape_of(&parts.first),
            both(shape_of(&parts.second), shape_of_all(&parts.others)),
        )),
    }
}

// The same of all of these together, with the height of the tallest.
#[cycle(shape)]
fn shape_of_all(labels: &[RawLabel]) -> Shape
    ensures props { result.props ≡ all_props_after (raw_trees (map raw_tree labels.now)) }
    ensures plain { result.plain ≡ all_leaves_pass (λ i. true) (is_listed []) (raw_trees (map raw_tree labels.now)) }
    ensures height { result.height ≡ capped_heights one_sign (raw_trees (map raw_tree labels.now)) }
    ensures size { result.size ≡ capped_sizes one_sign (raw_trees (map raw_tree labels.now)) }
{
    let mut all = none();
    'labels: for label in labels {
        all = both(all, shape_of(label));
    }
    all
}

/// What a label of one sign tells.
#[inline]
pub(crate) fn one_sign(props: u64, plain: bool) -> Shape
    ensures props { result.props ≡ props }
    ensures plain { result.plain ≡ plain }
    ensures height { result.height ≡ 1 }
    ensures size { result.size ≡ 1 }
{
    Shape {
        props,
        plain,
        height: 1,
        size: 1,
    }
}

/// What no label at all tells.
#[inline]
pub(crate) fn none() -> Shape
    ensures props { result.props ≡ 0 }
    ensures plain { result.plain ≡ true }
    ensures height { result.height ≡ 0 }
    ensures size { result.size ≡ 0 }
{
    Shape {
        props: 0,
        plain: true,
        height: 0,
        size: 0,
    }
}

/// What two labels tell together, with the height of the taller and the size of both.
#[inline]
pub(crate) fn both(one: Shape, other: Shape) -> Shape
    ensures props { result.props ≡ max one.props other.props }
    ensures plain { result.plain ≡ (one.plain && other.plain) }
    ensures height { result.height ≡ max one.height other.height }
    ensures size { result.size ≡ cap (one.size + other.size) }
{
    Shape {
        props: one.props.max(other.props),
        plain: one.plain && other.plain,
        height: one.height.max(other.height),
        size: one.size.saturating_add(other.size),
    }
}

/// One sign more around it.
#[inline]
pub(crate) fn one_more(inner: Shape) -> Shape
    ensures props { result.props ≡ inner.props }
    ensures plain { result.plain ≡ inner.plain }
    ensures height { result.height ≡ cap (inner.height + 1) }
    ensures size { result.size ≡ cap (inner.size + 1) }
{
    Shape {
        props: inner.props,
        plain: inner.plain,
        height: inner.height.saturating_add(1),
        size: inner.size.saturating_add(1),
    }
}

/// What the label tells, if there is one.
#[inline]
pub(crate) fn shape_in(label: &Option<RawLabel>) -> Shape
    ensures props { result.props ≡ option_props (option_map raw_tree label.now) }
    ensures plain { result.plain ≡ option_plain (option_map raw_tree label.now) }
    ensures height { result.height ≡ option_height (option_map raw_tree label.now) }
    ensures size { result.size ≡ option_size (option_map raw_tree label.now) }
{
    match label {
        Some(label) => shape_of(label),
        None => none(),
    }
}
