//! A condition with a truth value substituted for a `Fin`.

ghost use Rattle.std.specs.Prelude.{◌≡◌, ℕ, map, IfOk};
ghost use Rattle.aut_base.specs.Formula.{FormulaTree, formula_tree, formula_list};
ghost use Rattle.lasso_emptiness.specs.inner.Judged.{is_same_side};
ghost use Rattle.lasso_emptiness.specs.inner.Taken.{substituted};

use crate::side::SetLiteral;
use aut_base::{Formula, Formulas, Memory};
use std::alloc::Global;

/// The condition with true, or false, substituted for each `Fin` of this set literal.
#[cycle(take)]
#[tactic(auto, using(aut_base::proofs::trees::FormulaTrees::formula_trees))]
pub(crate) fn take(
    alloc: Global,
    condition: &Formula,
    side: SetLiteral,
    value: bool,
) -> Result<Formula, Memory>
    ensures { IfOk result (λ new. formula_tree new ≡ substituted side.set side.neg value (formula_tree condition.now)) }
{
    match condition {
        Formula::True => Ok(Formula::True),
        Formula::False => Ok(Formula::False),
        Formula::Inf { set, neg } => Ok(Formula::Inf {
            set: *set,
            neg: *neg,
        }),
        Formula::Fin { set, neg } => Ok(take_fin(*set, *neg, side, value)),
        Formula::And(parts) => Ok(Formula::And(take_parts(alloc, parts, side, value)?)),
        Formula::Or(parts) => Ok(Formula::Or(take_parts(alloc, parts, side, value)?)),
    }
}

/// A `Fin` atom after the substitution.
#[tactic(auto, using(aut_base::proofs::trees::FormulaTrees::formula_trees))]
fn take_fin(set: u32, neg: bool, side: SetLiteral, value: bool) -> Formula
    ensures { formula_tree result ≡ substituted side.set side.neg value (FormulaTree.Fin set neg) }
{
    if side.set != set || side.neg != neg {
        return Formula::Fin { set, neg };
    }
    if value { Formula::True } else { Formula::False }
}

/// The parts after the substitution.
#[cycle(take)]
#[tactic(auto, using(acc_forms::proofs::Parts::part_sizes))]
fn take_parts(
    alloc: Global,
    parts: &Formulas,
    side: SetLiteral,
    value: bool,
) -> Result<Formulas, Memory>
    ensures { IfOk result (λ new. formula_list new ≡ map (substituted side.set side.neg value) (formula_list parts.now)) }
{
    let first = take(alloc, parts.at(0), side, value)?;
    let second = take(alloc, parts.at(1), side, value)?;
    let mut new = Formulas::pair(alloc, first, second)?;
    'parts: for place in 2..parts.len() {
        let part = take(alloc, parts.at(place), side, value)?;
        new.push(part)?;
    }
    Ok(new)
}
