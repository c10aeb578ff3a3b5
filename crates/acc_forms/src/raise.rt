//! Conditions with the numbers of their sets raised.

ghost use Rattle.std.specs.Prelude.{◌≡◌, ℕ, ◌-◌, ◌^◌, List, map, IfOk};
ghost use Rattle.aut_base.specs.Formula.{formula_tree, formula_list, met, trees, SetsBelow, EachSetsBelow};
ghost use Rattle.acc_forms.specs.Shift.{shift, raised, lowered};

use aut_base::{Formula, Formulas, Memory};
use std::alloc::Global;

/// The condition with the number of every set raised by this.
pub fn shift(alloc: Global, formula: &Formula, by: u32) -> Result<Formula, Memory>
    requires { SetsBelow (2 ^ 32 - by) (formula_tree formula.now) }
    ensures tree { IfOk result (λ new. formula_tree new ≡ shift by (formula_tree formula.now)) }
    ensures meaning { IfOk result (λ new. (cycle : List (List ℕ)) → met cycle (formula_tree new) ≡ met (lowered by cycle) (formula_tree formula.now)) }
    ensures on_raised { IfOk result (λ new. (cycle : List (List ℕ)) → met (raised by cycle) (formula_tree new) ≡ met cycle (formula_tree formula.now)) }
{
    shifted(alloc, formula, by)
}

#[cycle(shift)]
#[tactic(auto, using(aut_base::proofs::trees::FormulaTrees::formula_trees))]
fn shifted(alloc: Global, formula: &Formula, by: u32) -> Result<Formula, Memory>
    requires { SetsBelow (2 ^ 32 - by) (formula_tree formula.now) }
    ensures { IfOk result (λ new. formula_tree new ≡ shift by (formula_tree formula.now)) }
{
    match formula {
        Formula::True => Ok(Formula::True),
        Formula::False => Ok(Formula::False),
        Formula::Inf { set, neg } => Ok(Formula::Inf {
            set: *set + by,
            neg: *neg,
        }),
        Formula::Fin { set, neg } => Ok(Formula::Fin {
            set: *set + by,
            neg: *neg,
        }),
        Formula::And(parts) => Ok(Formula::And(shifted_parts(alloc, parts, by)?)),
        Formula::Or(parts) => Ok(Formula::Or(shifted_parts(alloc, parts, by)?)),
    }
}

#[cycle(shift)]
fn shifted_parts(alloc: Global, parts: &Formulas, by: u32) -> Result<Formulas, Memory>
    requires { EachSetsBelow (2 ^ 32 - by) (trees (formula_list parts.now)) }
    ensures { IfOk result (λ new. formula_list new ≡ map (shift by) (formula_list parts.now)) }
{
    let first = shifted(alloc, parts.at(0), by)?;
    let second = shifted(alloc, parts.at(1), by)?;
    let mut shifts = Formulas::pair(alloc, first, second)?;
    'parts: for place in 2..parts.len() {
        let part = shifted(alloc, parts.at(place), by)?;
        shifts.push(part)?;
    }
    Ok(shifts)
}
