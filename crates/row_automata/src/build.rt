//! Automata made of their parts.

use aut_base::{
    Description, Edge, Edges, Formula, Label, Labels, MOST_NAMES, Marks, Memory, Names, Numbers,
    Text,
};
use aut_core::Automaton;
use row_files::{Fault, read_condition};
use std::alloc::Global;

/// An edge over one name or two. The letters that it reads and the sets that it is in are bits.
#[derive(Clone, Copy)]
pub struct Plain {
    pub from: u32,
    pub letters: u32,
    pub to: u32,
    pub sets: u32,
}

/// A description without names, starts and edges.
pub(crate) fn bare(alloc: Global, states: u32, sets: u32, formula: Formula) -> Description {
    Description {
        names: Names::new(alloc),
        starts: Numbers::new(alloc),
        states,
        edges: Edges::new(alloc),
        sets,
        formula,
    }
}

/// The automaton of a description. Fails where that isn't well formed.
pub(crate) fn described(alloc: Global, d: &Description) -> Result<Automaton, Fault> {
    if !d.is_well_formed() || d.names.len() > MOST_NAMES as usize {
        return Err(Fault::Failed);
    }
    Ok(Automaton::from_description(alloc, d)?)
}

/// The automaton over `a` of these edges that starts in this many first states. It has two sets, and a condition that is written
/// as in rows.
pub fn standing(
    alloc: Global,
    states: u32,
    firsts: u32,
    edges: &[Plain],
    condition: &str,
) -> Result<Automaton, Fault> {
    let mut d = bare(alloc, states, 2, read_condition(alloc, condition)?);
    add_parts(alloc, &mut d, firsts, edges)?;
    described(alloc, &d)
}

fn add_parts(
    alloc: Global,
    d: &mut Description,
    firsts: u32,
    edges: &[Plain],
) -> Result<(), Memory> {
    add_names(alloc, &mut d.names, b"a")?;
    for start in 0..firsts {
        d.starts.push(start)?;
    }
    for edge in edges {
        add_edge(alloc, &mut d.edges, 1, *edge)?;
    }
    Ok(())
}

/// Names of one byte each.
pub fn named(alloc: Global, bytes: &[u8]) -> Result<Names, Memory> {
    let mut names = Names::new(alloc);
    add_names(alloc, &mut names, bytes)?;
    Ok(names)
}

/// Adds names of one byte each.
pub(crate) fn add_names(alloc: Global, names: &mut Names, bytes: &[u8]) -> Result<(), Memory> {
    for byte in bytes {
        let name = Text::from_bytes(alloc, &[*byte])?;
        if !names.has(&name) {
            names.push(name)?;
        }
    }
    Ok(())
}

/// Adds an edge over so many names, one or two.
pub(crate) fn add_edge(
    alloc: Global,
    edges: &mut Edges,
    names: usize,
    edge: Plain,
) -> Result<(), Memory> {
    let marks = marks(alloc, edge.sets)?;
    edges.push(Edge {
        from: edge.from,
        label: label(alloc, names, edge.letters)?,
        to: edge.to,
        marks,
    })
}

/// The label that is true at the letters whose bits are set.
fn label(alloc: Global, names: usize, letters: u32) -> Result<Label, Memory> {
    let mut cubes = Labels::pair(alloc, Label::False, Label::False);
    for letter in 0..4u32 {
        if letters >> letter & 1 == 1 {
            cubes.push(cube(alloc, names, letter)?)?;
        }
    }
    Ok(Label::Or(Box::new(alloc, cubes)?))
}

/// The label that is true at one letter: the first name holds where its number is odd, the second where it is 2 or 3.
fn cube(alloc: Global, names: usize, letter: u32) -> Result<Label, Memory> {
    let first = literal(0, letter % 2 == 1);
    if names < 2 {
        return Ok(first);
    }
    let parts = Labels::pair(alloc, first, literal(1, letter >= 2));
    Ok(Label::And(Box::new(alloc, parts)?))
}

fn literal(prop: u32, holds: bool) -> Label {
    if holds {
        return Label::Prop(prop);
    }
    Label::Negated(prop)
}

/// The marks of a bit mask: the sets whose bits are set.
pub fn marks(alloc: Global, bits: u32) -> Result<Marks, Memory> {
    let mut marks = Marks::new(alloc);
    for set in 0..32u32 {
        if bits >> set & 1 == 1 && marks.are_below(set) {
            marks.push(set)?;
        }
    }
    Ok(marks)
}
