//! Generalised Büchi conditions: `t`, an Inf, or an And of Infs alone.

ghost use Rattle.std.specs.Prelude.{◌≡◌, [], ◌∷◌, ◌++◌, IfOk, OnOk, flat_map};
ghost use Rattle.std.specs.List.{list_all};
ghost use Rattle.acc_forms.specs.Joined.{conjuncts};
ghost use Rattle.acc_forms.specs.declared.literal.Literal.TheVariants.{Inf};
ghost use Rattle.aut_base.specs.Formula.{formula_list, formula_tree};
ghost use Rattle.degeneralise.specs.Buchi.{inf_literals, is_generalised_buchi};
ghost use Rattle.degeneralise.specs.inner.Parts.{is_inf_atom};

use acc_forms::{Literal, Literals};
use aut_base::{Formula, Formulas, Memory};
use std::alloc::Global;

/// Whether the condition is generalised Büchi. Takes no memory.
pub(crate) fn is_generalised_buchi(formula: &Formula) -> bool
    ensures { result ≡ is_generalised_buchi (formula_tree formula.now) }
{
    match formula {
        Formula::True | Formula::Inf { .. } => true,
        Formula::And(parts) => are_infs(parts),
        Formula::False | Formula::Fin { .. } | Formula::Or(_) => false,
    }
}

/// Whether each part is an Inf.
fn are_infs(parts: &Formulas) -> bool
    ensures { result ≡ list_all is_inf_atom (formula_list parts.now) }
{
    'parts: for place in 0..parts.len() {
        if !is_inf(parts.at(place)) {
            return false;
        }
    }
    true
}

#[tactic(auto, using(aut_base::proofs::trees::FormulaTrees::formula_trees))]
fn is_inf(formula: &Formula) -> bool
    ensures { result ≡ is_inf_atom (formula_tree formula.now) }
{
    match formula {
        Formula::Inf { .. } => true,
        Formula::True | Formula::False | Formula::Fin { .. } | Formula::And(_) | Formula::Or(_) =>
            false,
    }
}

/// The literals of the Infs among the conjuncts.
pub(crate) fn inf_literals(alloc: Global, formula: &Formula) -> Result<Literals, Memory>
    ensures { IfOk result (λ found. found ≡ flat_map inf_literals (conjuncts (formula_tree formula.now))) }
{
    match formula {
        Formula::Inf { set, neg } => one_literal(alloc, *set, *neg),
        Formula::And(parts) => literals_of(alloc, parts),
        Formula::True | Formula::False | Formula::Fin { .. } | Formula::Or(_) => {
            Ok(Literals::new(alloc))
        }
    }
}

fn one_literal(alloc: Global, set: u32, neg: bool) -> Result<Literals, Memory>
    ensures { IfOk result (λ found. found ≡ Inf set neg ∷ []) }
{
    let mut found = Literals::new(alloc);
    found.push(Literal::Inf { set, neg })?;
    Ok(found)
}

fn literals_of(alloc: Global, parts: &Formulas) -> Result<Literals, Memory>
    ensures { IfOk result (λ found. found ≡ flat_map inf_literals (formula_list parts.now)) }
{
    let mut found = Literals::new(alloc);
    'parts: for place in 0..parts.len() {
        push_inf(&mut found, parts.at(place))?;
    }
    Ok(found)
}

/// Adds the literal of the condition where it is an Inf.
#[tactic(auto, using(aut_base::proofs::trees::FormulaTrees::formula_trees))]
fn push_inf(found: &mut Literals, formula: &Formula) -> Result<(), Memory>
    ensures { OnOk result (found.new ≡ found.old ++ inf_literals (formula_tree formula.now)) }
{
    match formula {
        Formula::Inf { set, neg } => found.push(Literal::Inf {
            set: *set,
            neg: *neg,
        }),
        Formula::True | Formula::False | Formula::Fin { .. } | Formula::And(_) | Formula::Or(_) =>
            Ok(()),
    }
}
