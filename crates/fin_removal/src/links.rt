//! The edges of the copies.

ghost use Rattle.std.specs.Prelude.{◌≡◌, ◌+◌, ◌<◌, ◌^◌, ◌++◌, ◌∷◌, [], All, IfOk, OnOk, flat_map, map};
ghost use Rattle.aut_core.specs.SymbolicAutomata.{IsLinkOf, edge_of};
ghost use Rattle.label_guards.specs.Store.{Has};
ghost use Rattle.fin_removal.specs.Copies.{copy_edges, main_edges, marks_in};
ghost use Rattle.fin_removal.specs.Meeting.{literal_places};
ghost use Rattle.fin_removal.specs.inner.Links.{AddsLinks, IsCopyInRange};

use crate::meeting::{meets_all, meets_at};
use crate::term_copy::{TermCopies, TermCopy};
use aut_base::{Marks, Memory};
use aut_core::{Automaton, Link, Links};
use std::alloc::Global;

/// The edges of the main copy, and then those of each other copy.
pub(crate) fn copied_links(
    alloc: Global,
    a: &Automaton,
    copies: &TermCopies,
) -> Result<Links, Memory>
    requires { All (IsCopyInRange a.now.states) copies.now }
    ensures has { IfOk result (All (λ l. Has a.now.store l.guard)) }
    ensures edges { IfOk result (λ links. map (edge_of a.now.store) links
        ≡ flat_map (main_edges a.now.states copies.now) (map (edge_of a.now.store) a.now.links) ++ flat_map (copy_edges a.now.states (map (edge_of a.now.store) a.now.links)) copies.now) }
{
    let mut links = Links::new(alloc);
    push_main_copy(alloc, &mut links, a, copies)?;
    push_copies(alloc, &mut links, a, copies)?;
    Ok(links)
}

/// Adds the edges of the main copy.
fn push_main_copy(
    alloc: Global,
    links: &mut Links,
    a: &Automaton,
    copies: &TermCopies,
) -> Result<(), Memory>
    requires { All (IsCopyInRange a.now.states) copies.now }
    ensures { OnOk result (AddsLinks a.now.store links.old links.new (flat_map (main_edges a.now.states copies.now) (map (edge_of a.now.store) a.now.links))) }
{
    a.well_formedness();
    'links: for link in a.links() {
        push_main(alloc, links, a, copies, link)?;
    }
    Ok(())
}

/// Adds the edges of the main copy that one edge of the automaton becomes: the edge itself, and one into each other copy.
fn push_main(
    alloc: Global,
    links: &mut Links,
    a: &Automaton,
    copies: &TermCopies,
    link: &Link,
) -> Result<(), Memory>
    requires copies { All (IsCopyInRange a.now.states) copies.now }
    requires link { IsLinkOf a.now link.now }
    ensures { OnOk result (AddsLinks a.now.store links.old links.new (main_edges a.now.states copies.now (edge_of a.now.store link.now))) }
{
    push_unmarked(alloc, links, link, link.to)?;
    'copies: for copy in copies.as_slice() {
        push_unmarked(alloc, links, link, copy.number * a.states() + link.to)?;
    }
    Ok(())
}

/// Adds the link without its marks, leading to the state `to`.
fn push_unmarked(alloc: Global, links: &mut Links, link: &Link, to: u32) -> Result<(), Memory>
    ensures { OnOk result (links.new ≡ links.old ++ record link.now { to = to; marks = [] } ∷ []) }
{
    links.push(Link {
        from: link.from,
        guard: link.guard,
        to,
        marks: Marks::new(alloc),
    })
}

/// Adds the edges of each copy but the main one.
fn push_copies(
    alloc: Global,
    links: &mut Links,
    a: &Automaton,
    copies: &TermCopies,
) -> Result<(), Memory>
    requires { All (IsCopyInRange a.now.states) copies.now }
    ensures { OnOk result (AddsLinks a.now.store links.old links.new (flat_map (copy_edges a.now.states (map (edge_of a.now.store) a.now.links)) copies.now)) }
{
    'copies: for copy in copies.as_slice() {
        push_copy(alloc, links, a, copy)?;
    }
    Ok(())
}

/// Adds the edges of one copy: those that meet all Fin literals of its term.
fn push_copy(alloc: Global, links: &mut Links, a: &Automaton, copy: &TermCopy) -> Result<(), Memory>
    requires { IsCopyInRange a.now.states copy.now }
    ensures { OnOk result (AddsLinks a.now.store links.old links.new (copy_edges a.now.states (map (edge_of a.now.store) a.now.links) copy.now)) }
{
    a.well_formedness();
    let offset = copy.number * a.states();
    'links: for link in a.links() {
        if !meets_all(&copy.fins, &link.marks) {
            continue;
        }
        links.push(Link {
            from: offset + link.from,
            guard: link.guard,
            to: offset + link.to,
            marks: marks_in(alloc, copy, &link.marks)?,
        })?;
    }
    Ok(())
}

/// The marks that an edge with these marks has in the copy.
fn marks_in(alloc: Global, copy: &TermCopy, marks: &Marks) -> Result<Marks, Memory>
    requires { copy.now.first + literal_places copy.now.infs < 2 ^ 32 }
    ensures { IfOk result (λ found. found ≡ marks_in copy.now marks.now) }
{
    let mut found = Marks::new(alloc);
    'places: for place in 0..copy.sets() {
        if !meets_at(&copy.infs, place as usize, marks) {
            continue;
        }
        found.push(copy.first + place)?;
    }
    Ok(found)
}
