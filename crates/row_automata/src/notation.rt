//! The notation of automata in rows.

use crate::build::{add_names, bare, described, marks};
use aut_base::{Description, Edge, Edges, Label, Labels, Memory, Numbers};
use aut_core::Automaton;
use row_files::{Fault, kind_and_rest, number, read_condition};
use std::alloc::Global;

/// The automaton of a line: `STATES/STARTS/NAMES/SETS/CONDITION EDGE EDGE ..`. Each start is a digit, each name a byte.
pub fn read(alloc: Global, line: &str) -> Result<Automaton, Fault> {
    let (head, edges) = kind_and_rest(line);
    let (states, sets) = (number(part(head, 0))?, number(part(head, 3))?);
    let mut d = bare(alloc, states, sets, read_condition(alloc, part(head, 4))?);
    add_parts(alloc, &mut d, head, edges)?;
    described(alloc, &d)
}

/// Adds the names, starts and edges.
fn add_parts(alloc: Global, d: &mut Description, head: &str, edges: &str) -> Result<(), Memory> {
    add_names(alloc, &mut d.names, part(head, 2).as_bytes())?;
    add_starts(&mut d.starts, part(head, 1))?;
    for word in edges.split(' ') {
        if !word.is_empty() {
            add_edge(alloc, &mut d.edges, word)?;
        }
    }
    Ok(())
}

/// The part of this index between slashes, or the empty text where there are fewer.
fn part(head: &str, place: usize) -> &str {
    head.split('/').nth(place).unwrap_or("")
}

fn add_starts(starts: &mut Numbers, written: &str) -> Result<(), Memory> {
    for byte in written.as_bytes() {
        starts.push(u32::from(byte.saturating_sub(b'0')))?;
    }
    Ok(())
}

/// Adds an edge: `FROM[LABEL]TO`, and a `+SET` for each set.
fn add_edge(alloc: Global, edges: &mut Edges, word: &str) -> Result<(), Memory> {
    let (from, rest) = word.split_once('[').unwrap_or((word, ""));
    let (written, end) = rest.split_once(']').unwrap_or((rest, ""));
    let (to, sets) = end.split_once('+').unwrap_or((end, ""));
    let marks = marks(alloc, bits_of(sets))?;
    edges.push(Edge {
        from: known(from),
        label: label(alloc, written)?,
        to: known(to),
        marks,
    })
}

/// A number, or where none is written the greatest one: no state and no name has it, and the automaton isn't well formed.
fn known(written: &str) -> u32 {
    number(written).unwrap_or(u32::MAX)
}

/// The bits of numbers of sets separated by `+`, or none. Where no number is written, it is that of set 31, which isn't there either.
fn bits_of(sets: &str) -> u32 {
    let mut bits = 0;
    if sets.is_empty() {
        return bits;
    }
    for set in sets.split('+') {
        bits |= 1u32 << known(set).min(31);
    }
    bits
}

/// A label: cubes separated by `|`.
fn label(alloc: Global, written: &str) -> Result<Label, Memory> {
    let mut cubes = Labels::pair(alloc, Label::False, Label::False);
    for cube in written.split('|') {
        add_cube(alloc, &mut cubes, cube)?;
    }
    Ok(Label::Or(Box::new(alloc, cubes)?))
}

/// Adds literals separated by `&`.
fn add_cube(alloc: Global, cubes: &mut Labels, written: &str) -> Result<(), Memory> {
    let mut literals = Labels::pair(alloc, Label::True, Label::True);
    for word in written.split('&') {
        literals.push(literal(alloc, word)?)?;
    }
    cubes.push(Label::And(Box::new(alloc, literals)?))
}

/// A literal, or its negation after another `!`.
fn literal(alloc: Global, written: &str) -> Result<Label, Memory> {
    match written.strip_prefix('!') {
        Some(rest) => Ok(Label::Not(Box::new(alloc, atom(rest))?)),
        None => Ok(atom(written)),
    }
}

/// `t`, `f`, or the number of a name, which may be after a `!`.
fn atom(written: &str) -> Label {
    match (written, written.strip_prefix('!')) {
        ("t", _) => Label::True,
        ("f", _) => Label::False,
        (_, Some(name)) => Label::Negated(known(name)),
        _ => Label::Prop(known(written)),
    }
}
