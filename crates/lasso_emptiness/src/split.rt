//! Components divided by a `Fin`: the edges that don't violate it, and the components with an edge that does.

ghost use Rattle.std.specs.Prelude.{◌≡◌, ◌<◌, ℕ, List, All, IfOk, OnOk, length};
ghost use Rattle.lasso_emptiness.specs.declared.live.EdgeRef.{EdgeRef};
ghost use Rattle.lasso_emptiness.specs.inner.Splits.{AddsOff, AreGroupsSplit};

use crate::groups::Groups;
use crate::live::{EdgeRef, LiveEdges};
use crate::side::SetLiteral;
use aut_base::Memory;
use aut_core::Link;
use std::alloc::Global;

/// Groups divided by a set literal.
#[derive(Drop)]
pub(crate) struct Split {
    /// The edges that don't satisfy it.
    pub(crate) off: LiveEdges,
    /// The groups that have an edge that does.
    pub(crate) crossed: Groups,
}

/// Divides the groups by this set literal.
pub(crate) fn divide(
    alloc: Global,
    links: &[Link],
    mut groups: Groups,
    side: SetLiteral,
) -> Result<Split, Memory>
    requires { All (All (λ e. e.link < length links.now)) groups.items }
    ensures { IfOk result (λ parts. AreGroupsSplit links.now side.set side.neg groups.items parts.off parts.crossed.items) }
{
    let mut off = LiveEdges::new(alloc);
    let mut crossed = Groups::new(alloc);
    'groups: while let Some(group) = groups.pop() {
        add_off_side(links, group.as_slice(), side, &mut off)?;
        if side.one_of(links, group.as_slice()).is_none() {
            continue;
        }
        crossed.push(group)?;
    }
    Ok(Split { off, crossed })
}

/// Adds the edges that don't satisfy this set literal.
fn add_off_side(
    links: &[Link],
    edges: &[EdgeRef],
    side: SetLiteral,
    off: &mut LiveEdges,
) -> Result<(), Memory>
    requires { All (λ e. e.link < length links.now) edges.now }
    ensures { OnOk result (AddsOff links.now side.set side.neg edges.now off.old off.new) }
{
    'edges: for edge in edges {
        if side.has_edge(links, *edge) {
            continue;
        }
        off.push(*edge)?;
    }
    Ok(())
}
