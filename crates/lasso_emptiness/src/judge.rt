//! The acceptance condition decided on the edges of a component, as far as all of them together decide it.

ghost use Rattle.std.specs.Prelude.{◌≡◌, ◌<◌, ℕ, true, false, List, All, Contains, length, map};
ghost use Rattle.std.specs.List.{list_all, list_any};
ghost use Rattle.aut_base.specs.Formula.{FormulaTree, formula_tree, formula_list, met};
ghost use Rattle.lasso_emptiness.specs.declared.verdict.Verdict.{Verdict};
ghost use Rattle.lasso_emptiness.specs.declared.live.EdgeRef.{EdgeRef};
ghost use Rattle.lasso_emptiness.specs.inner.Edges.{marks_of};
ghost use Rattle.lasso_emptiness.specs.inner.Judged.{IsJudged, AreAllJudged, IsOneJudged};

use crate::live::EdgeRef;
use crate::side::SetLiteral;
use crate::verdict::Verdict;
use aut_base::{Formula, Formulas};
use aut_core::Link;

// Why so: 'The search for an accepted word judges a component as a whole' in docs/DECISIONS.md.
/// Whether the edges together meet the condition, or no cycle of some of them does, or neither is known because of a `Fin` that some
/// edge violates. A `Fin` that no edge violates is met by each cycle of them.
#[cycle(judge)]
pub(crate) fn judge(links: &[Link], edges: &[EdgeRef], condition: &Formula) -> Verdict
    requires { All (λ e. e.link < length links.now) edges.now }
    ensures { IsJudged (map (marks_of links.now) edges.now) (formula_tree condition.now) result }
{
    match condition {
        Formula::True => Verdict::Met,
        Formula::False => Verdict::Never,
        Formula::Inf { set, neg } => judge_inf(
            links,
            edges,
            SetLiteral {
                set: *set,
                neg: *neg,
            },
        ),
        Formula::Fin { set, neg } => judge_fin(
            links,
            edges,
            SetLiteral {
                set: *set,
                neg: *neg,
            },
        ),
        Formula::And(parts) => judge_all(links, edges, parts),
        Formula::Or(parts) => judge_some(links, edges, parts),
    }
}

/// The verdict on an `Inf` atom.
fn judge_inf(links: &[Link], edges: &[EdgeRef], side: SetLiteral) -> Verdict
    requires { All (λ e. e.link < length links.now) edges.now }
    ensures { IsJudged (map (marks_of links.now) edges.now) (FormulaTree.Inf side.set side.neg) result }
{
    match side.one_of(links, edges) {
        Some(_) => Verdict::Met,
        None => Verdict::Never,
    }
}

/// The verdict on a `Fin` atom.
fn judge_fin(links: &[Link], edges: &[EdgeRef], side: SetLiteral) -> Verdict
    requires { All (λ e. e.link < length links.now) edges.now }
    ensures { IsJudged (map (marks_of links.now) edges.now) (FormulaTree.Fin side.set side.neg) result }
{
    match side.one_of(links, edges) {
        Some(_) => Verdict::Open(side),
        None => Verdict::Met,
    }
}

/// The verdict on a conjunction of these parts.
#[cycle(judge)]
#[tactic(auto, using(acc_forms::proofs::Parts::part_sizes))]
fn judge_all(links: &[Link], edges: &[EdgeRef], parts: &Formulas) -> Verdict
    requires { All (λ e. e.link < length links.now) edges.now }
    ensures { AreAllJudged (map (marks_of links.now) edges.now) (formula_list parts.now) result }
{
    let mut undecided = None;
    'parts: for place in 0..parts.len() {
        match judge(links, edges, parts.at(place)) {
            Verdict::Met => continue,
            Verdict::Never => return Verdict::Never,
            Verdict::Open(side) => undecided = Some(side),
        }
    }
    match undecided {
        Some(side) => Verdict::Open(side),
        None => Verdict::Met,
    }
}

/// The verdict on a disjunction of these parts.
#[cycle(judge)]
#[tactic(auto, using(acc_forms::proofs::Parts::part_sizes))]
fn judge_some(links: &[Link], edges: &[EdgeRef], parts: &Formulas) -> Verdict
    requires { All (λ e. e.link < length links.now) edges.now }
    ensures { IsOneJudged (map (marks_of links.now) edges.now) (formula_list parts.now) result }
{
    let mut undecided = None;
    'parts: for place in 0..parts.len() {
        match judge(links, edges, parts.at(place)) {
            Verdict::Met => return Verdict::Met,
            Verdict::Never => continue,
            Verdict::Open(side) => undecided = Some(side),
        }
    }
    match undecided {
        Some(side) => Verdict::Open(side),
        None => Verdict::Never,
    }
}
