//! Conjunctions of literals whose propositions rise, as two masks.

ghost use Rattle.std.specs.Prelude.{◌≡◌, ◌<◌, ◌≤◌, ◌^◌, ◌∷◌, ◌++◌, [], MatchOption};
ghost use Rattle.hoa_parser.specs.Raw.{all_literals, raw_literal, raw_tree};

use crate::RawLabel;

/// The literals so far: the propositions whose bits are set in `names`, each negated where its bit isn't set in `values`.
#[derive(Clone, Copy)]
pub(super) struct Cube {
    pub(super) names: u32,
    pub(super) values: u32,
}

/// No literal yet.
#[inline(always)]
pub(super) fn no_literal() -> Cube
    ensures within { result.values ≤ result.names }
    ensures literals { all_literals result.names result.values ≡ [] }
{
    Cube {
        names: 0,
        values: 0,
    }
}

/// One literal more. `None` where its proposition doesn't come after the others, or has no bit.
#[inline(always)]
pub(super) fn with_literal(cube: Cube, place: u32, holds: bool) -> Option<Cube>
    requires { cube.values ≤ cube.names }
    ensures within { MatchOption result (Unit {0}) (λ new. new.values ≤ new.names) }
    ensures literals { MatchOption result (Unit {0}) (λ new. all_literals new.names new.values ≡ all_literals cube.names cube.values ++ raw_literal place holds ∷ []) }
{
    if place >= 32 {
        return None;
    }
    if cube.names >> place != 0 {
        return None;
    }
    Some(marked(cube, place, holds))
}

/// The proposition of a literal, and whether it is to hold.
#[tactic(auto, using(crate::proofs::grammar::RawTrees::raw_tree_rules))]
#[inline(always)]
pub(super) fn literal_of(label: &RawLabel) -> Option<(u32, bool)>
    ensures { MatchOption result (Unit {0}) (λ found. raw_tree label.now ≡ raw_literal found.0 found.1) }
{
    match label {
        RawLabel::Prop(place) => Some((*place, true)),
        RawLabel::Negated(place) => Some((*place, false)),
        _ => None,
    }
}

/// The cube with this literal, whose proposition comes after the others.
#[inline(always)]
fn marked(cube: Cube, place: u32, holds: bool) -> Cube
    requires few { place < 32 }
    requires after { cube.names < 2 ^ place }
    requires within { cube.values ≤ cube.names }
    ensures within { result.values ≤ result.names }
    ensures literals { all_literals result.names result.values ≡ all_literals cube.names cube.values ++ raw_literal place holds ∷ [] }
{
    let bit = 1_u32 << place;
    let names = cube.names + bit;
    if holds {
        return Cube {
            names,
            values: cube.values + bit,
        };
    }
    Cube {
        names,
        values: cube.values,
    }
}
