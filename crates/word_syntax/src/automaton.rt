//! The automaton of a pattern.

ghost use Rattle.std.specs.Prelude.{◌≡◌, ◌+◌, ◌<◌, ◌≤◌, ◌^◌, ◌↔◌, ◌++◌, IfOk, OnOk, IsErrOf, length, map};
ghost use Rattle.aut_base.specs.Automaton.{Automaton as AutomatonTree, automaton, labelled_edge};
ghost use Rattle.aut_base.specs.CanonicalLabel.{canonical};
ghost use Rattle.aut_base.specs.Label.{label_tree};
ghost use Rattle.aut_base.specs.declared.limit.TheConstants.{MOST_NAMES};
ghost use Rattle.aut_core.specs.SymbolicAutomata.{automaton_of};
ghost use Rattle.word_syntax.specs.Matching.{AcceptTogether, AcceptsPattern, edges_along, next_state, word_automaton};
ghost use Rattle.word_syntax.specs.Writing.{word_pattern};

use crate::Pattern;
use aut_base::{Description, Edge, Edges, Formula, Label, MOST_NAMES, Marks, Memory, Numbers};
use aut_core::{Automaton, NameFault, copy_names};
use std::alloc::Global;

/// An automaton of the pattern: it and any other automaton accept a common lasso word exactly where the other one accepts a word
/// that matches the pattern.
pub fn pattern_automaton(alloc: Global, pattern: &Pattern) -> Result<Automaton, NameFault>
    ensures accepts { IfOk result (λ made. (b : AutomatonTree) → AcceptTogether (automaton_of made) b ↔ AcceptsPattern (word_pattern pattern.now) b) }
    ensures shape { IfOk result (λ made. automaton_of made ≡ canonical (word_automaton (word_pattern pattern.now))) }
    ensures within { OnOk result (length pattern.now.names ≤ MOST_NAMES) }
    ensures names { IsErrOf result NameFault.Names → MOST_NAMES < length pattern.now.names }
{
    if pattern.names.len() > MOST_NAMES as usize {
        return Err(NameFault::Names);
    }
    let _names = pattern.names.as_slice();
    let description = pattern_description(alloc, pattern)?;
    Ok(Automaton::from_description(alloc, &description)?)
}

// The automaton with the pattern's formulas as labels, not yet in canonical form.
fn pattern_description(alloc: Global, pattern: &Pattern) -> Result<Description, Memory>
    ensures { IfOk result (λ d. automaton d ≡ word_automaton (word_pattern pattern.now)) }
{
    let back = pattern.stem.len() as u32;
    let total = back + pattern.cycle.len() as u32;
    let mut edges = Edges::new(alloc);
    push_edges(alloc, &mut edges, pattern.stem.as_slice(), back, total)?;
    push_edges(alloc, &mut edges, pattern.cycle.as_slice(), back, total)?;
    let mut starts = Numbers::new(alloc);
    starts.push(0)?;
    Ok(Description {
        names: copy_names(&pattern.names)?,
        starts,
        states: total,
        edges,
        sets: 0,
        formula: Formula::True,
    })
}

// An edge for each label, from one state to the next. That of the last state leads back to the first of the cycle.
fn push_edges(
    alloc: Global,
    edges: &mut Edges,
    labels: &[Label],
    back: u32,
    total: u32,
) -> Result<(), Memory>
    requires { length edges.old + length labels.now ≤ total }
    ensures { OnOk result (map labelled_edge edges.new ≡ map labelled_edge edges.old ++ edges_along back total (length edges.old) (map label_tree labels.now)) }
{
    'labels: for label in labels {
        let from = edges.len() as u32;
        edges.push(Edge {
            from,
            label: label.copy(alloc)?,
            to: next_state(back, total, from),
            marks: Marks::new(alloc),
        })?;
    }
    Ok(())
}

// The successor of a state.
fn next_state(back: u32, total: u32, place: u32) -> u32
    requires { place < total }
    ensures { result ≡ next_state back total place }
{
    if place + 1 == total { back } else { place + 1 }
}
