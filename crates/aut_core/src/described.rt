//! The automaton that a description describes.

ghost use Rattle.std.specs.Prelude.{◌≡◌, ◌≤◌, All, IfOk, length, map};
ghost use Rattle.aut_base.specs.declared.limit.TheConstants.{MOST_NAMES};
ghost use Rattle.aut_base.specs.Automaton.{IsWellFormed, automaton, labelled_edge};
ghost use Rattle.aut_base.specs.CanonicalLabel.{canonical, canonical_label};
ghost use Rattle.aut_base.specs.Label.{AllBelow};
ghost use Rattle.aut_core.specs.SymbolicAutomata.{automaton_of, edge_of};
ghost use Rattle.aut_core.specs.OtherNames.{AcceptTheSame};
ghost use Rattle.label_guards.specs.Store.{Has};

use crate::automaton::Automaton;
use crate::copies::{copy_marks, copy_names, copy_numbers};
use crate::link::{Link, Links};
use aut_base::{Description, Edge, Memory};
use label_guards::Guards;
use std::alloc::Global;

impl Automaton {
    /// The automaton that is described, with each label in its canonical form. It accepts the same words. The description has to be well
    /// formed, which `Description::is_well_formed` decides.
    pub fn from_description(alloc: Global, d: &Description) -> Result<Automaton, Memory>
        requires few { length d.now.names ≤ MOST_NAMES }
        requires well_formed { IsWellFormed (automaton d.now) }
        ensures canonical { IfOk result (λ made. automaton_of made ≡ canonical (automaton d.now)) }
        ensures accepts { IfOk result (λ made. AcceptTheSame (automaton_of made) (automaton d.now)) }
    {
        let names = copy_names(&d.names)?;
        let starts = copy_numbers(&d.starts)?;
        let formula = d.formula.copy(alloc)?;
        let mut guards = Guards::new(alloc, d.names.len() as u32)?;
        let links = guarded(alloc, &mut guards, d.edges.as_slice())?;
        Automaton::from_parts(
            alloc, names, guards, d.states, starts, links, d.sets, formula,
        )
    }
}

/// The edges with guards in place of their labels.
fn guarded(alloc: Global, guards: &mut Guards, edges: &[Edge]) -> Result<Links, Memory>
    requires { All (λ e. AllBelow guards.old.names (labelled_edge e).label) edges.now }
    ensures names { guards.new.names ≡ guards.old.names }
    ensures has { IfOk result (All (λ l. Has guards.new l.guard)) }
    ensures edges { IfOk result (λ links. map (edge_of guards.new) links ≡ map (λ e. record (labelled_edge e) { label = canonical_label guards.old.names (labelled_edge e).label }) edges.now) }
{
    let mut links = Links::from_vec(Vec::with_capacity(alloc, edges.len())?);
    'edges: for edge in edges {
        links.push(Link {
            from: edge.from,
            guard: guards.of_label(&edge.label)?,
            to: edge.to,
            marks: copy_marks(&edge.marks)?,
        })?;
    }
    Ok(links)
}
