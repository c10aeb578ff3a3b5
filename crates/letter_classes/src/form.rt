//! Automata made of explored states and edges, with classes of letters as labels.

ghost use Rattle.std.specs.Prelude.{◌≡◌, ◌<◌, ◌^◌, ℕ, List, All, IfOk, length, map};
ghost use Rattle.aut_base.specs.Formula.{formula_tree};
ghost use Rattle.aut_core.specs.SymbolicAutomata.{AreSymbolicParts};
ghost use Rattle.letter_classes.specs.ClassForms.{form_of, link_of};

use aut_base::{Formula, Marks, Memory, Numbers};
use aut_core::{Automaton, Link, Links, copy_names};
use exploration::{Edge, Explored};
use label_guards::{Guard, Guards};
use std::alloc::Global;

/// How the marks of an edge come from the output of its step.
pub trait Marking {
    type Output: Copy;

    // the outputs for which there are marks
    ghost fits: { Self → Self.Output → Type 0 };

    ghost marked: { Self → Self.Output → List ℕ };

    /// The marks of an edge with this output.
    fn marks(&self, alloc: Global, output: Self::Output) -> Result<Marks, Memory>
        requires { fits self.now output }
        ensures { IfOk result (λ marks. marks ≡ marked self.now output) };
}

/// The automaton over the names of `b` whose states are the indices of the explored states, with start 0, and whose
/// edges are the explored ones, labelled by their classes.
pub fn class_form<T, M: Marking>(
    alloc: Global,
    b: &Automaton,
    guards: Guards,
    found: &Explored<T, Guard, M::Output>,
    marking: &M,
    sets: u32,
    formula: Formula,
) -> Result<Automaton, Memory>
    requires few { length found.now.states.items < 2 ^ 32 }
    requires notes { All (λ e. M.fits marking.now e.output) found.now.edges.items }
    requires parts { AreSymbolicParts (form_of b.now guards (length found.now.states.items) (map (link_of (M.marked marking.now)) found.now.edges.items) sets (formula_tree formula)) }
    ensures { IfOk result (λ made. made ≡ form_of b.now guards (length found.now.states.items) (map (link_of (M.marked marking.now)) found.now.edges.items) sets (formula_tree formula)) }
{
    let names = copy_names(b.names())?;
    let links = links_of(alloc, found.edges.as_slice(), marking)?;
    let mut starts = Numbers::new(alloc);
    starts.push(0)?;
    Automaton::from_parts(
        alloc,
        names,
        guards,
        found.states.len() as u32,
        starts,
        links,
        sets,
        formula,
    )
}

/// The links of the explored edges, each with its marks.
fn links_of<M: Marking>(
    alloc: Global,
    edges: &[Edge<Guard, M::Output>],
    marking: &M,
) -> Result<Links, Memory>
    requires { All (λ e. M.fits marking.now e.output) edges.now }
    ensures { IfOk result (λ links. links ≡ map (link_of (M.marked marking.now)) edges.now) }
{
    let mut links = Links::from_vec(Vec::with_capacity(alloc, edges.len())?);
    'edges: for edge in edges {
        links.push(Link {
            from: edge.from,
            guard: edge.class,
            to: edge.to,
            marks: marking.marks(alloc, edge.output)?,
        })?;
    }
    Ok(links)
}
