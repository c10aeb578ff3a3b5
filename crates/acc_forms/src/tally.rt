//! The size of a condition's disjunctive normal form, computed without making it.

ghost use Rattle.std.specs.Prelude.{◌≡◌, ◌++◌, ◌-◌, ◌^◌, List, [], min, max};
ghost use Rattle.std.specs.Int.{div_ceil};
ghost use Rattle.aut_base.specs.Formula.{formula_tree, formula_list};
ghost use Rattle.acc_forms.specs.Terms.{terms, count};
ghost use Rattle.acc_forms.specs.inner.Tally.{part_terms, tally_of};

use crate::join::Join;
use aut_base::{Formula, Formulas};

/// As many literals count as much as one term.
const LITERALS_OF_ONE: u128 = 1_024;

// Why so: 'Both numbers of `terms_count` end at the same last value' in docs/DECISIONS.md.
/// The size of a condition's disjunctive normal form: the number of its terms, or the number of their literals divided by 1,024 and
/// rounded up, whichever is more. An answer of `u64::MAX` is for all numbers from there on. No term is made.
pub fn terms_count(formula: &Formula) -> u64
    ensures { result ≡ min (count (terms (formula_tree formula.now))) (2 ^ 64 - 1) }
{
    tally_of_formula(formula).count()
}

/// The number of terms, and of the literals of all of them. The last value of the type is for all numbers from there on.
#[derive(Clone, Copy)]
pub(crate) struct Tally {
    pub(crate) terms: u128,
    pub(crate) literals: u128,
}

impl Tally {
    ghost use Rattle.acc_forms.specs.declared.literal.Literal.{Literal};
    ghost use Rattle.acc_forms.specs.Terms.{pairs};
    ghost use Rattle.acc_forms.specs.inner.Tally.{joined_terms, part_terms, tally_of};

    /// The size by both numbers, as `terms_count` answers it.
    fn count(self) -> u64
        ensures { result ≡ min (max self.terms (div_ceil self.literals 1024)) (2 ^ 64 - 1) }
    {
        let count = self.terms.max(self.literals.div_ceil(LITERALS_OF_ONE));
        count.min(u128::from(u64::MAX)) as u64
    }

    /// The tally of the terms of an empty conjunction, or disjunction.
    fn of_none(join: Join) -> Tally
        ensures { result ≡ tally_of (part_terms join []) }
    {
        match join {
            Join::All => Tally {
                terms: 1,
                literals: 0,
            },
            Join::Any => Tally {
                terms: 0,
                literals: 0,
            },
        }
    }

    /// The tally of the terms of two conditions joined by this connective, from those of each.
    fn joined(self, join: Join, other: Tally) -> Tally
        ensures { (xs ys : List (List Literal)) → self ≡ tally_of xs → other ≡ tally_of ys → result ≡ tally_of (joined_terms join xs ys) }
    {
        match join {
            Join::All => self.times(other),
            Join::Any => self.plus(other),
        }
    }

    /// The tally of both lists of terms together.
    fn plus(self, other: Tally) -> Tally
        ensures { (xs ys : List (List Literal)) → self ≡ tally_of xs → other ≡ tally_of ys → result ≡ tally_of (xs ++ ys) }
    {
        Tally {
            terms: self.terms.saturating_add(other.terms),
            literals: self.literals.saturating_add(other.literals),
        }
    }

    /// The tally of all pairs of a term of the one and a term of the other, joined.
    fn times(self, other: Tally) -> Tally
        ensures { (xs ys : List (List Literal)) → self ≡ tally_of xs → other ≡ tally_of ys → result ≡ tally_of (pairs xs ys) }
    {
        let first = self.literals.saturating_mul(other.terms);
        let second = other.literals.saturating_mul(self.terms);
        Tally {
            terms: self.terms.saturating_mul(other.terms),
            literals: first.saturating_add(second),
        }
    }
}

/// The tally of the terms of a condition.
#[cycle(tally)]
fn tally_of_formula(formula: &Formula) -> Tally
    ensures { result ≡ tally_of (terms (formula_tree formula.now)) }
{
    match formula {
        Formula::True => Tally::of_none(Join::All),
        Formula::False => Tally::of_none(Join::Any),
        Formula::Inf { .. } | Formula::Fin { .. } => Tally {
            terms: 1,
            literals: 1,
        },
        Formula::And(parts) => tally_of_parts(Join::All, parts),
        Formula::Or(parts) => tally_of_parts(Join::Any, parts),
    }
}

/// The tally of the terms of these parts, joined by this connective.
#[cycle(tally)]
#[tactic(auto, using(crate::proofs::Parts::part_sizes))]
pub(crate) fn tally_of_parts(join: Join, parts: &Formulas) -> Tally
    ensures { result ≡ tally_of (part_terms join (formula_list parts.now)) }
{
    let mut all = Tally::of_none(join);
    'parts: for place in 0..parts.len() {
        all = all.joined(join, tally_of_formula(parts.at(place)));
    }
    all
}
