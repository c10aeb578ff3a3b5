//! Conjunction and disjunction of two conditions.

ghost use Rattle.std.specs.Prelude.{◌≡◌, ℕ, ◌<◌, ◌≤◌, ◌&&◌, ◌||◌, ◌++◌, List, drop, length, IfOk, OnOk, IfSome, IfNone, ◌∷◌, [], false};
ghost use Rattle.aut_base.specs.Formula.{formula_tree, formula_list, met, trees};
ghost use Rattle.acc_forms.specs.Joined.{conj, disj};
ghost use Rattle.acc_forms.specs.inner.Join.{joined_by, outweighs, is_all, is_neutral, parts_under, node};

use aut_base::{Formula, Formulas, Memory};
use std::alloc::Global;

/// The conjunction of the two conditions, whose parts are copied.
pub fn conj(alloc: Global, f: &Formula, g: &Formula) -> Result<Formula, Memory>
    ensures tree { IfOk result (λ new. formula_tree new ≡ conj (formula_tree f.now) (formula_tree g.now)) }
    ensures meaning { IfOk result (λ new. (cycle : List (List ℕ)) → met cycle (formula_tree new) ≡ (met cycle (formula_tree f.now) && met cycle (formula_tree g.now))) }
{
    let first = f.copy(alloc)?;
    join_to(alloc, Join::All, first, g)
}

/// The disjunction of the two conditions, whose parts are copied.
pub fn disj(alloc: Global, f: &Formula, g: &Formula) -> Result<Formula, Memory>
    ensures tree { IfOk result (λ new. formula_tree new ≡ disj (formula_tree f.now) (formula_tree g.now)) }
    ensures meaning { IfOk result (λ new. (cycle : List (List ℕ)) → met cycle (formula_tree new) ≡ (met cycle (formula_tree f.now) || met cycle (formula_tree g.now))) }
{
    let first = f.copy(alloc)?;
    join_to(alloc, Join::Any, first, g)
}

/// The connective by which conditions are joined.
#[derive(Clone, Copy)]
pub(crate) enum Join {
    /// And.
    All,
    /// Or.
    Any,
}

impl Join {
    /// Whether it is And.
    pub(crate) fn is_all(self) -> bool
        ensures { result ≡ is_all self }
    {
        matches!(self, Join::All)
    }

    /// Whether the condition absorbs any other that it is joined with: `f` under And, `t` under Or.
    fn outweighs(self, formula: &Formula) -> bool
        ensures { result ≡ outweighs self (formula_tree formula.now) }
    {
        match self {
            Join::All => matches!(formula, Formula::False),
            Join::Any => matches!(formula, Formula::True),
        }
    }

    /// Whether the condition is neutral: `t` under And, `f` under Or.
    fn is_neutral(self, formula: &Formula) -> bool
        ensures { result ≡ is_neutral self (formula_tree formula.now) }
    {
        match self {
            Join::All => matches!(formula, Formula::True),
            Join::Any => matches!(formula, Formula::False),
        }
    }

    /// The parts of a condition that is itself a join by this connective, and None of any other.
    #[tactic(auto, using(aut_base::proofs::trees::FormulaTrees::formula_trees))]
    fn parts(self, formula: &Formula) -> Option<&Formulas>
        ensures found { IfSome result (λ parts. parts_under self (formula_tree formula.now) ≡ formula_list parts.now) }
        ensures other { IfNone result (is_neutral self (formula_tree formula.now) ≡ false → parts_under self (formula_tree formula.now) ≡ formula_tree formula.now ∷ []) }
    {
        match (self, formula) {
            (Join::All, Formula::And(parts)) => Some(parts),
            (Join::Any, Formula::Or(parts)) => Some(parts),
            _ => None,
        }
    }

    /// The join of these parts by this connective.
    #[tactic(auto, using(aut_base::proofs::trees::FormulaTrees::formula_trees))]
    fn node(self, parts: Formulas) -> Formula
        ensures { formula_tree result ≡ node self (formula_list parts) }
    {
        match self {
            Join::All => Formula::And(parts),
            Join::Any => Formula::Or(parts),
        }
    }
}

/// The join of two conditions, of which the second is copied.
pub(crate) fn join_to(alloc: Global, join: Join, f: Formula, g: &Formula) -> Result<Formula, Memory>
    ensures { IfOk result (λ new. formula_tree new ≡ joined_by join (formula_tree f) (formula_tree g.now)) }
{
    if join.outweighs(&f) || join.is_neutral(g) {
        return Ok(f);
    }
    if join.outweighs(g) || join.is_neutral(&f) {
        return g.copy(alloc);
    }
    let parts = joined_parts(alloc, join, f, g)?;
    Ok(join.node(parts))
}

/// The parts of two conditions, of which the second's are copied.
fn joined_parts(alloc: Global, join: Join, f: Formula, g: &Formula) -> Result<Formulas, Memory>
    requires first { is_neutral join (formula_tree f) ≡ false }
    requires second { is_neutral join (formula_tree g.now) ≡ false }
    ensures { IfOk result (λ new. formula_list new ≡ parts_under join (formula_tree f) ++ parts_under join (formula_tree g.now)) }
{
    match (join, f) {
        (Join::All, Formula::And(parts)) => with_more(alloc, join, parts, g),
        (Join::Any, Formula::Or(parts)) => with_more(alloc, join, parts, g),
        (_, part) => pair_with_more(alloc, join, part, g),
    }
}

/// These parts, and after them copies of those of a condition.
fn with_more(alloc: Global, join: Join, parts: Formulas, g: &Formula) -> Result<Formulas, Memory>
    requires { is_neutral join (formula_tree g.now) ≡ false }
    ensures { IfOk result (λ new. formula_list new ≡ formula_list parts ++ parts_under join (formula_tree g.now)) }
{
    let mut all = parts;
    match join.parts(g) {
        Some(more) => push_from(alloc, &mut all, more, 0)?,
        None => {
            let part = g.copy(alloc)?;
            all.push(part)?;
        }
    }
    Ok(all)
}

/// This part, and after it copies of those of a condition.
fn pair_with_more(alloc: Global, join: Join, part: Formula, g: &Formula) -> Result<Formulas, Memory>
    requires { is_neutral join (formula_tree g.now) ≡ false }
    ensures { IfOk result (λ new. formula_list new ≡ formula_tree part ∷ parts_under join (formula_tree g.now)) }
{
    match join.parts(g) {
        Some(more) => {
            let second = more.at(0).copy(alloc)?;
            let mut all = Formulas::pair(alloc, part, second)?;
            push_from(alloc, &mut all, more, 1)?;
            Ok(all)
        }
        None => {
            let second = g.copy(alloc)?;
            Formulas::pair(alloc, part, second)
        }
    }
}

/// Adds copies of the parts from an index on.
fn push_from(
    alloc: Global,
    parts: &mut Formulas,
    more: &Formulas,
    start: usize,
) -> Result<(), Memory>
    requires { start ≤ length (formula_list more.now) }
    ensures { OnOk result (formula_list parts.new ≡ formula_list parts.old ++ drop start (formula_list more.now)) }
{
    'parts: for place in start..more.len() {
        let part = more.at(place).copy(alloc)?;
        parts.push(part)?;
    }
    Ok(())
}
