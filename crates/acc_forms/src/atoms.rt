//! Questions that the atoms of a condition decide.

ghost use Rattle.std.specs.Prelude.{◌≡◌, ℕ, ◌<◌, List, [], ◌∷◌, ◌++◌, length, All, IsTrue, false};
ghost use Rattle.std.specs.List.{list_any};
ghost use Rattle.aut_base.specs.Formula.{formula_tree, formula_list, met};
ghost use Rattle.acc_forms.specs.Atoms.{has_fin};
ghost use Rattle.acc_forms.specs.inner.Join.{parts_pass};

use crate::join::Join;
use aut_base::{Formula, Formulas};

// Why so: 'What `has_fin` means is said of longer cycles' in docs/DECISIONS.md.
/// Whether some `Fin` occurs in the condition.
pub fn has_fin(formula: &Formula) -> bool
    ensures tree { result ≡ has_fin (formula_tree formula.now) }
    ensures meaning { result ≡ false → ((cycle edges : List (List ℕ)) → IsTrue (met cycle (formula_tree formula.now)) → IsTrue (met (cycle ++ edges) (formula_tree formula.now))) }
{
    fin_stands_in(formula)
}

/// Whether the condition holds on a cycle whose edges are in no acceptance set.
pub fn empty_meets(formula: &Formula) -> bool
    ensures tree { result ≡ met ([] ∷ []) (formula_tree formula.now) }
    ensures meaning { (cycle : List (List ℕ)) → 0 < length cycle → All (λ marks. marks ≡ []) cycle → result ≡ met cycle (formula_tree formula.now) }
{
    holds_without_sets(formula)
}

#[cycle(fin)]
#[tactic(auto, using(aut_base::proofs::trees::FormulaTrees::formula_trees))]
fn fin_stands_in(formula: &Formula) -> bool
    ensures { result ≡ has_fin (formula_tree formula.now) }
{
    match formula {
        Formula::True | Formula::False | Formula::Inf { .. } => false,
        Formula::Fin { .. } => true,
        Formula::And(parts) => fin_stands_in_some(parts),
        Formula::Or(parts) => fin_stands_in_some(parts),
    }
}

#[cycle(fin)]
#[tactic(auto, using(crate::proofs::Parts::part_sizes))]
fn fin_stands_in_some(parts: &Formulas) -> bool
    ensures { result ≡ list_any has_fin (formula_list parts.now) }
{
    'parts: for place in 0..parts.len() {
        if fin_stands_in(parts.at(place)) {
            return true;
        }
    }
    false
}

#[cycle(without_sets)]
#[tactic(auto, using(aut_base::proofs::trees::FormulaTrees::formula_trees))]
fn holds_without_sets(formula: &Formula) -> bool
    ensures { result ≡ met ([] ∷ []) (formula_tree formula.now) }
{
    match formula {
        Formula::True => true,
        Formula::False => false,
        Formula::Inf { neg, .. } => *neg,
        Formula::Fin { neg, .. } => !*neg,
        Formula::And(parts) => parts_hold_without_sets(Join::All, parts),
        Formula::Or(parts) => parts_hold_without_sets(Join::Any, parts),
    }
}

#[cycle(without_sets)]
#[tactic(auto, using(crate::proofs::Parts::part_sizes))]
fn parts_hold_without_sets(join: Join, parts: &Formulas) -> bool
    ensures { result ≡ parts_pass join (met ([] ∷ [])) (formula_list parts.now) }
{
    let all = join.is_all();
    'parts: for place in 0..parts.len() {
        if holds_without_sets(parts.at(place)) != all {
            return !all;
        }
    }
    all
}
