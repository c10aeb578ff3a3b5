//! The search for an accepting component.

ghost use Rattle.std.specs.Prelude.{◌<◌, ℕ, List, All, Contains, IfOk, length};
ghost use Rattle.aut_base.specs.Formula.{FormulaTree, formula_tree};
ghost use Rattle.lasso_emptiness.specs.declared.live.EdgeRef.{EdgeRef};
ghost use Rattle.lasso_emptiness.specs.inner.AcceptingComponents.{Finds, FindsInAny};
ghost use Rattle.lasso_emptiness.specs.inner.Edges.{IsEdgeInRange};
ghost use Rattle.lasso_emptiness.specs.inner.Groups.{IsStronglyConnected};
ghost use Rattle.lasso_emptiness.specs.inner.Splits.{IsSurveyed};

use crate::groups::{Groups, component_groups};
use crate::judge::judge;
use crate::live::{EdgeRef, LiveEdges};
use crate::side::SetLiteral;
use crate::split::divide;
use crate::taken::take;
use crate::verdict::Verdict;
use aut_base::{Formula, Memory};
use aut_core::Link;
use std::alloc::Global;

/// The verdict on a condition for several components.
#[derive(Drop)]
pub(crate) enum ComponentsVerdict {
    /// The edges of this component together meet it.
    Met(LiveEdges),
    /// No cycle within one of the components meets it.
    Never,
    /// For these components it is open because of a `Fin` that some edge violates, for one of them of the `Fin` of this set literal. No
    /// cycle within another one meets it.
    Open(SetLiteral, Groups),
}

/// The edges of an accepting component among these edges, or None where no closed path along them meets the condition.
#[cycle(search)]
pub(crate) fn search(
    alloc: Global,
    links: &[Link],
    states: u32,
    edges: &[EdgeRef],
    condition: &Formula,
) -> Result<Option<LiveEdges>, Memory>
    requires { All (IsEdgeInRange (length links.now) states) edges.now }
    ensures { IfOk result (Finds links.now (Contains edges.now) (formula_tree condition.now)) }
{
    let groups = component_groups(alloc, states, edges)?;
    search_in(alloc, links, states, groups, condition)
}

/// Such edges within one of the components, or None where no closed path meets the condition. Where that is open because of a `Fin`,
/// first the edges that don't violate it are searched, divided into components anew, with the `Fin` taken as true; and then the
/// components that have an edge that does, with the `Fin` taken as false.
#[cycle(search)]
fn search_in(
    alloc: Global,
    links: &[Link],
    states: u32,
    groups: Groups,
    condition: &Formula,
) -> Result<Option<LiveEdges>, Memory>
    requires within { All (All (IsEdgeInRange (length links.now) states)) groups.items }
    requires joined { All IsStronglyConnected groups.items }
    ensures { IfOk result (FindsInAny links.now groups.items (formula_tree condition.now)) }
{
    match judge_groups(alloc, links, groups, condition)? {
        ComponentsVerdict::Met(group) => Ok(Some(group)),
        ComponentsVerdict::Never => Ok(None),
        ComponentsVerdict::Open(side, left) => {
            let parts = divide(alloc, links, left, side)?;
            let holds = take(alloc, condition, side, true)?;
            if let Some(group) = search(alloc, links, states, parts.off.as_slice(), &holds)? {
                return Ok(Some(group));
            }
            let fails = take(alloc, condition, side, false)?;
            search_in(alloc, links, states, parts.crossed, &fails)
        }
    }
}

/// Judges the components one after the other, until one meets the condition.
fn judge_groups(
    alloc: Global,
    links: &[Link],
    mut groups: Groups,
    condition: &Formula,
) -> Result<ComponentsVerdict, Memory>
    requires { All (All (λ e. e.link < length links.now)) groups.items }
    ensures { IfOk result (IsSurveyed links.now groups.items (formula_tree condition.now)) }
{
    let mut undecided = None;
    let mut left = Groups::new(alloc);
    'groups: while let Some(group) = groups.pop() {
        if group.is_empty() {
            continue;
        }
        match judge(links, group.as_slice(), condition) {
            Verdict::Met => return Ok(ComponentsVerdict::Met(group)),
            Verdict::Never => continue,
            Verdict::Open(side) => {
                undecided = Some(side);
                left.push(group)?;
            }
        }
    }
    match undecided {
        Some(side) => Ok(ComponentsVerdict::Open(side, left)),
        None => Ok(ComponentsVerdict::Never),
    }
}
