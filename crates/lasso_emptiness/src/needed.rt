//! A choice of edges of an accepting component, such that closed paths through all of them meet the condition.

ghost use Rattle.std.specs.Prelude.{◌≡◌, ◌<◌, ℕ, true, List, All, Contains, IfOk, OnOk, length, map};
ghost use Rattle.std.specs.List.{list_all, list_any};
ghost use Rattle.aut_base.specs.Formula.{FormulaTree, formula_tree, formula_list, met};
ghost use Rattle.lasso_emptiness.specs.declared.live.EdgeRef.{EdgeRef};
ghost use Rattle.lasso_emptiness.specs.inner.Edges.{marks_of, met_along};
ghost use Rattle.lasso_emptiness.specs.inner.Needed.{AddsOnce, AreNeeded, IsPartOf, Serves, ServesAll};

use crate::judge::judge;
use crate::live::{EdgeRef, LiveEdges};
use crate::side::SetLiteral;
use crate::verdict::Verdict;
use aut_base::{Formula, Formulas, Memory};
use aut_core::Link;
use std::alloc::Global;

/// At least one edge of a component, chosen such that each cycle of the component's edges that has all chosen ones meets the
/// condition.
pub(crate) fn needed_edges(
    alloc: Global,
    links: &[Link],
    edges: &[EdgeRef],
    condition: &Formula,
) -> Result<LiveEdges, Memory>
    requires within { All (λ e. e.link < length links.now) edges.now }
    requires some { 0 < length edges.now }
    requires met { met_along links.now edges.now (formula_tree condition.now) ≡ true }
    ensures { IfOk result (AreNeeded links.now edges.now (formula_tree condition.now)) }
{
    let mut needed = LiveEdges::new(alloc);
    add_needed(links, edges, condition, &mut needed)?;
    if !needed.is_empty() {
        return Ok(needed);
    }
    needed.push(edges[0])?;
    Ok(needed)
}

/// Adds edges such that each cycle of the component's edges that has all chosen ones meets the condition. For an `Inf` an edge is
/// added only where no chosen one meets it.
#[cycle(needed)]
fn add_needed(
    links: &[Link],
    edges: &[EdgeRef],
    condition: &Formula,
    needed: &mut LiveEdges,
) -> Result<(), Memory>
    requires within { All (λ e. e.link < length links.now) edges.now }
    requires met { met_along links.now edges.now (formula_tree condition.now) ≡ true }
    requires inside { All (Contains edges.now) needed.old }
    ensures { OnOk result (Serves links.now edges.now (formula_tree condition.now) needed.old needed.new) }
{
    match condition {
        Formula::True => Ok(()),
        Formula::False => Ok(()),
        Formula::Fin { .. } => Ok(()),
        Formula::Inf { set, neg } => add_on_side(
            links,
            edges,
            SetLiteral {
                set: *set,
                neg: *neg,
            },
            needed,
        ),
        Formula::And(parts) => add_for_all(links, edges, parts, needed),
        Formula::Or(parts) => add_needed(links, edges, met_part(links, edges, parts), needed),
    }
}

/// Adds an edge that satisfies the set literal, where no chosen one does.
fn add_on_side(
    links: &[Link],
    edges: &[EdgeRef],
    side: SetLiteral,
    needed: &mut LiveEdges,
) -> Result<(), Memory>
    requires within { All (λ e. e.link < length links.now) edges.now }
    requires met { met_along links.now edges.now (FormulaTree.Inf side.set side.neg) ≡ true }
    requires inside { All (Contains edges.now) needed.old }
    ensures serves { OnOk result (Serves links.now edges.now (FormulaTree.Inf side.set side.neg) needed.old needed.new) }
    ensures once { OnOk result (AddsOnce links.now side.set side.neg needed.old needed.new) }
{
    if side.one_of(links, needed.as_slice()).is_some() {
        return Ok(());
    }
    match side.one_of(links, edges) {
        Some(edge) => needed.push(edge),
        None => Ok(()),
    }
}

/// Adds edges for each of the parts.
#[cycle(needed)]
fn add_for_all(
    links: &[Link],
    edges: &[EdgeRef],
    parts: &Formulas,
    needed: &mut LiveEdges,
) -> Result<(), Memory>
    requires within { All (λ e. e.link < length links.now) edges.now }
    requires met { list_all (met (map (marks_of links.now) edges.now)) (formula_list parts.now) ≡ true }
    requires inside { All (Contains edges.now) needed.old }
    ensures { OnOk result (ServesAll links.now edges.now (formula_list parts.now) needed.old needed.new) }
{
    'parts: for place in 0..parts.len() {
        add_needed(links, edges, parts.at(place), needed)?;
    }
    Ok(())
}

/// The first part that all edges together meet.
fn met_part<'a>(links: &[Link], edges: &[EdgeRef], parts: &'a Formulas) -> &'a Formula
    requires within { All (λ e. e.link < length links.now) edges.now }
    requires met { list_any (met (map (marks_of links.now) edges.now)) (formula_list parts.now) ≡ true }
    ensures met { met_along links.now edges.now (formula_tree result.now) ≡ true }
    ensures part { IsPartOf (formula_list parts.now) (formula_tree result.now) }
{
    'parts: for place in 0..parts.len() {
        let part = parts.at(place);
        if let Verdict::Met = judge(links, edges, part) {
            return part;
        }
    }
    unreachable!()
}
