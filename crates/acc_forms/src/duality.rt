//! The dual of a condition.

ghost use Rattle.std.specs.Prelude.{◌≡◌, ℕ, List, map, not, IfOk};
ghost use Rattle.aut_base.specs.Formula.{formula_tree, formula_list, met};
ghost use Rattle.acc_forms.specs.Dual.{dual};

use aut_base::{Formula, Formulas, Memory};
use std::alloc::Global;

/// The condition with `t` and `f`, And and Or, Inf and Fin exchanged.
pub fn dual(alloc: Global, formula: &Formula) -> Result<Formula, Memory>
    ensures tree { IfOk result (λ new. formula_tree new ≡ dual (formula_tree formula.now)) }
    ensures meaning { IfOk result (λ new. (cycle : List (List ℕ)) → met cycle (formula_tree new) ≡ not (met cycle (formula_tree formula.now))) }
{
    exchanged(alloc, formula)
}

#[cycle(dual)]
#[tactic(auto, using(aut_base::proofs::trees::FormulaTrees::formula_trees))]
fn exchanged(alloc: Global, formula: &Formula) -> Result<Formula, Memory>
    ensures { IfOk result (λ new. formula_tree new ≡ dual (formula_tree formula.now)) }
{
    match formula {
        Formula::True => Ok(Formula::False),
        Formula::False => Ok(Formula::True),
        Formula::Inf { set, neg } => Ok(Formula::Fin {
            set: *set,
            neg: *neg,
        }),
        Formula::Fin { set, neg } => Ok(Formula::Inf {
            set: *set,
            neg: *neg,
        }),
        Formula::And(parts) => Ok(Formula::Or(exchanged_parts(alloc, parts)?)),
        Formula::Or(parts) => Ok(Formula::And(exchanged_parts(alloc, parts)?)),
    }
}

#[cycle(dual)]
#[tactic(auto, using(crate::proofs::Parts::part_sizes))]
fn exchanged_parts(alloc: Global, parts: &Formulas) -> Result<Formulas, Memory>
    ensures { IfOk result (λ new. formula_list new ≡ map dual (formula_list parts.now)) }
{
    let first = exchanged(alloc, parts.at(0))?;
    let second = exchanged(alloc, parts.at(1))?;
    let mut duals = Formulas::pair(alloc, first, second)?;
    'parts: for place in 2..parts.len() {
        let part = exchanged(alloc, parts.at(place))?;
        duals.push(part)?;
    }
    Ok(duals)
}
