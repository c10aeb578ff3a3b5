//! The terms of a condition (its disjunctive normal form), and the condition of given terms.

ghost use Rattle.std.specs.Prelude.{◌≡◌, ℕ, ◌<◌, ◌++◌, List, [], ◌∷◌, map, IfOk, OnOk};
ghost use Rattle.std.specs.List.{flat_map};
ghost use Rattle.aut_base.specs.Formula.{formula_tree, formula_list, met};
ghost use Rattle.acc_forms.specs.Terms.{terms, choices, pairs, count, some_term_met, of_term, of_terms};

use crate::fault::FormFault;
use crate::join::{Join, join_to};
use crate::literal::{Literal, Literals, Terms};
use crate::tally::{tally_of_parts, terms_count};
use aut_base::{Formula, Formulas, MOST_TERMS, Memory};
use std::alloc::Global;

// Why so: '`disjuncts` looks for a part without terms first' in docs/DECISIONS.md.
/// The terms of a condition's disjunctive normal form, none merged or dropped. Refused as `Terms` where `terms_count` is more than
/// `MOST_TERMS`.
pub fn disjuncts(alloc: Global, formula: &Formula) -> Result<Terms, FormFault>
    ensures list { IfOk result (λ found. found ≡ terms (formula_tree formula.now)) }
    ensures passed { MOST_TERMS < count (terms (formula_tree formula.now)) → result ≡ Err FormFault.Terms }
    ensures only_passed { result ≡ Err FormFault.Terms → MOST_TERMS < count (terms (formula_tree formula.now)) }
    ensures meaning { IfOk result (λ found. (cycle : List (List ℕ)) → met cycle (formula_tree formula.now) ≡ some_term_met cycle found) }
    ensures again { IfOk result (λ found. (cycle : List (List ℕ)) → met cycle (of_terms found) ≡ met cycle (formula_tree formula.now)) }
{
    if terms_count(formula) > MOST_TERMS {
        return Err(FormFault::Terms);
    }
    let found = terms_of(alloc, formula)?;
    Ok(found)
}

/// The disjunction of these terms.
pub fn of_terms(alloc: Global, terms: &Terms) -> Result<Formula, Memory>
    ensures tree { IfOk result (λ new. formula_tree new ≡ of_terms terms.now) }
    ensures meaning { IfOk result (λ new. (cycle : List (List ℕ)) → met cycle (formula_tree new) ≡ some_term_met cycle terms.now) }
{
    let mut some = Formula::False;
    'terms: for term in terms.as_slice() {
        let all = of_term(alloc, term)?;
        some = join_to(alloc, Join::Any, some, &all)?;
    }
    Ok(some)
}

/// The conjunction of a term's literals.
fn of_term(alloc: Global, term: &Literals) -> Result<Formula, Memory>
    ensures { IfOk result (λ new. formula_tree new ≡ of_term term.now) }
{
    let mut all = Formula::True;
    'literals: for literal in term.as_slice() {
        all = join_to(alloc, Join::All, all, &literal.formula())?;
    }
    Ok(all)
}

/// The terms, however many.
#[cycle(terms)]
fn terms_of(alloc: Global, formula: &Formula) -> Result<Terms, Memory>
    ensures { IfOk result (λ found. found ≡ terms (formula_tree formula.now)) }
{
    match formula {
        Formula::True => one_term(alloc, Literals::new(alloc)),
        Formula::False => Ok(Terms::new(alloc)),
        Formula::Inf { set, neg } => one_literal(
            alloc,
            Literal::Inf {
                set: *set,
                neg: *neg,
            },
        ),
        Formula::Fin { set, neg } => one_literal(
            alloc,
            Literal::Fin {
                set: *set,
                neg: *neg,
            },
        ),
        Formula::And(parts) => terms_of_all(alloc, parts),
        Formula::Or(parts) => terms_of_some(alloc, parts),
    }
}

/// The terms of the conjunction of these parts. Where a part has no terms, neither has the conjunction, and those of the other parts
/// are not made: they may be too many.
#[cycle(terms)]
#[tactic(auto, using(crate::proofs::Parts::part_sizes))]
fn terms_of_all(alloc: Global, parts: &Formulas) -> Result<Terms, Memory>
    ensures { IfOk result (λ found. found ≡ choices (map terms (formula_list parts.now))) }
{
    if tally_of_parts(Join::All, parts).terms == 0 {
        return Ok(Terms::new(alloc));
    }
    let mut found = one_term(alloc, Literals::new(alloc))?;
    'parts: for place in 0..parts.len() {
        let those = terms_of(alloc, parts.at(place))?;
        found = pairs(alloc, &found, &those)?;
    }
    Ok(found)
}

/// The terms of the disjunction of these parts.
#[cycle(terms)]
#[tactic(auto, using(crate::proofs::Parts::part_sizes))]
fn terms_of_some(alloc: Global, parts: &Formulas) -> Result<Terms, Memory>
    ensures { IfOk result (λ found. found ≡ flat_map terms (formula_list parts.now)) }
{
    let mut found = Terms::new(alloc);
    'parts: for place in 0..parts.len() {
        let those = terms_of(alloc, parts.at(place))?;
        append(&mut found, those)?;
    }
    Ok(found)
}

/// The list of this term alone.
fn one_term(alloc: Global, term: Literals) -> Result<Terms, Memory>
    ensures { IfOk result (λ found. found ≡ term ∷ []) }
{
    let mut found = Terms::new(alloc);
    found.push(term)?;
    Ok(found)
}

/// The list of the term of this literal alone.
fn one_literal(alloc: Global, literal: Literal) -> Result<Terms, Memory>
    ensures { IfOk result (λ found. found ≡ (literal ∷ []) ∷ []) }
{
    let mut term = Literals::new(alloc);
    term.push(literal)?;
    one_term(alloc, term)
}

/// Adds these terms at the end.
fn append(found: &mut Terms, those: Terms) -> Result<(), Memory>
    ensures { OnOk result (found.new ≡ found.old ++ those) }
{
    'terms: for term in those.into_vec() {
        found.push(term)?;
    }
    Ok(())
}

/// Each term of the first list joined with each of the second.
fn pairs(alloc: Global, firsts: &Terms, seconds: &Terms) -> Result<Terms, Memory>
    ensures { IfOk result (λ found. found ≡ pairs firsts.now seconds.now) }
{
    let mut found = Terms::new(alloc);
    'firsts: for first in firsts.as_slice() {
        push_joined(alloc, &mut found, first, seconds)?;
    }
    Ok(found)
}

/// Adds this term joined with each of the others.
fn push_joined(
    alloc: Global,
    found: &mut Terms,
    first: &Literals,
    seconds: &Terms,
) -> Result<(), Memory>
    ensures { OnOk result (found.new ≡ found.old ++ map (λ second. first.now ++ second) seconds.now) }
{
    'seconds: for second in seconds.as_slice() {
        let both = literals_of_both(alloc, first, second)?;
        found.push(both)?;
    }
    Ok(())
}

/// The literals of both terms.
fn literals_of_both(alloc: Global, first: &Literals, second: &Literals) -> Result<Literals, Memory>
    ensures { IfOk result (λ both. both ≡ first.now ++ second.now) }
{
    let mut both = Literals::new(alloc);
    push_all(&mut both, first)?;
    push_all(&mut both, second)?;
    Ok(both)
}

/// Adds these literals.
fn push_all(all: &mut Literals, literals: &Literals) -> Result<(), Memory>
    ensures { OnOk result (all.new ≡ all.old ++ literals.now) }
{
    'literals: for literal in literals.as_slice() {
        all.push(*literal)?;
    }
    Ok(())
}
