//! The condition of parity automata.

ghost use Rattle.std.specs.Prelude.{◌≡◌, ℕ, ◌+◌, ◌≤◌, ◌↔◌, if◌then◌else◌, List, IfOk, IsTrue};
ghost use Rattle.aut_base.specs.Formula.{formula_tree, met, And, Or, none};
ghost use Rattle.acc_forms.specs.Parity.{is_odd, parity_atom, parity_min_odd, MinIsOdd};

use aut_base::{Formula, Formulas, Memory};
use std::alloc::Global;

/// The condition `parity min odd n`: the least of the n sets that is visited infinitely often is odd, or none is and n is odd.
pub fn parity_min_odd(alloc: Global, n: u32) -> Result<Formula, Memory>
    requires some { 1 ≤ n }
    requires most { n ≤ 1000 }
    ensures tree { IfOk result (λ new. formula_tree new ≡ parity_min_odd n) }
    ensures meaning { IfOk result (λ new. (cycle : List (List ℕ)) → IsTrue (met cycle (formula_tree new)) ↔ MinIsOdd n cycle) }
{
    let mut formula = atom(n - 1);
    'sets: for set in (0..n - 1).rev() {
        formula = decided_first(alloc, set, formula)?;
    }
    Ok(formula)
}

/// The atom of a set: Inf of an odd one, Fin of an even one.
#[tactic(auto, using(aut_base::proofs::trees::FormulaTrees::formula_trees))]
fn atom(set: u32) -> Formula
    ensures { formula_tree result ≡ parity_atom set }
{
    if set % 2 == 1 {
        Formula::Inf { set, neg: false }
    } else {
        Formula::Fin { set, neg: false }
    }
}

/// The condition whose truth is decided by this set where it is visited, and by the rest where it isn't.
#[tactic(auto, using(aut_base::proofs::trees::FormulaTrees::formula_trees))]
fn decided_first(alloc: Global, set: u32, rest: Formula) -> Result<Formula, Memory>
    ensures { IfOk result (λ new. formula_tree new ≡ (if is_odd set then Or (parity_atom set) (formula_tree rest) none else And (parity_atom set) (formula_tree rest) none)) }
{
    let parts = Formulas::pair(alloc, atom(set), rest)?;
    if set % 2 == 1 {
        Ok(Formula::Or(parts))
    } else {
        Ok(Formula::And(parts))
    }
}
