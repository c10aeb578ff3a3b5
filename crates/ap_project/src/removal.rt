//! An automaton with a name hidden.

ghost use Rattle.std.specs.Prelude.{◌≡◌, ◌<◌, ◌≤◌, [], All, Contains, IfOk, OnOk, length, map, slice_get, Some};
ghost use Rattle.ap_project.specs.Hiding.{AcceptsHidden, hidden, names_without};
ghost use Rattle.ap_project.specs.inner.HiddenGuards.{AreHidden, ArePlacesOfNames, hidden_link, name_at};
ghost use Rattle.aut_base.specs.declared.limit.TheConstants.{MOST_NAMES};
ghost use Rattle.aut_core.specs.Links.{StandFor};
ghost use Rattle.aut_core.specs.SymbolicAutomata.{automaton_of, edge_of};
ghost use Rattle.label_guards.specs.Store.{Has, Keeps};

use crate::guards::{Hiding, hidden_guard};
use crate::hide::Hide;
use crate::table::Done;
use aut_base::{Memory, Names, Numbers, Text};
use aut_core::{Automaton, Link, Links, copy_marks, copy_numbers};
use label_guards::Guards;
use std::alloc::Global;

// Why so: 'An automaton without the name stays as it is' in docs/DECISIONS.md.
/// The automaton with the proposition of one name hidden. It is over the other names, and has the same states, starts, sets,
/// condition and edges, all in order. Each label becomes its truth with the name absent, with the name present, or, under
/// `Any`, the disjunction of both (existential quantification); an edge whose label becomes `f` stays. Of an automaton that
/// doesn't have the name it is a copy. The only refusal is want of memory.
pub fn remove_ap(alloc: Global, a: &Automaton, name: &Text, how: Hide) -> Result<Automaton, Memory>
    ensures shape { IfOk result (λ made. automaton_of made ≡ hidden how name.now (automaton_of a.now)) }
    ensures accepts { IfOk result (λ made. AcceptsHidden how name.now (automaton_of a.now) (automaton_of made)) }
    ensures names { IfOk result (λ made. made.names ≡ names_without name.now a.now.names) }
    ensures states { IfOk result (λ made. made.states ≡ a.now.states) }
    ensures sets { IfOk result (λ made. made.sets ≡ a.now.sets) }
{
    a.well_formedness();
    without_name(alloc, a, name, how)
}

/// As `remove_ap`, with the exact automaton as its only promise.
fn without_name(alloc: Global, a: &Automaton, name: &Text, how: Hide) -> Result<Automaton, Memory>
    ensures { IfOk result (λ made. automaton_of made ≡ hidden how name.now (automaton_of a.now)) }
{
    a.well_formedness();
    match a.names().position(name) {
        Some(prop) => without_prop(alloc, a, name, prop, how),
        None => a.copy(alloc),
    }
}

/// Hides the name, which is that of the proposition `prop` of the automaton.
fn without_prop(
    alloc: Global,
    a: &Automaton,
    name: &Text,
    prop: u32,
    how: Hide,
) -> Result<Automaton, Memory>
    requires { slice_get a.now.names prop ≡ Some name.now }
    ensures { IfOk result (λ made. automaton_of made ≡ hidden how name.now (automaton_of a.now)) }
{
    a.well_formedness();
    let names = other_names(alloc, a.names(), name)?;
    let to = places_among(alloc, a.names(), &names)?;
    let hiding = Hiding { prop, how, to };
    let mut guards = Guards::new(alloc, names.len() as u32)?;
    let links = hidden_links(alloc, a, &hiding, &mut guards)?;
    let starts = copy_numbers(a.starts())?;
    let formula = a.formula().copy(alloc)?;
    Automaton::from_parts(
        alloc,
        names,
        guards,
        a.states(),
        starts,
        links,
        a.sets(),
        formula,
    )
}

/// The names but for this one, in order.
fn other_names(alloc: Global, names: &Names, name: &Text) -> Result<Names, Memory>
    ensures others { IfOk result (λ others. others ≡ names_without name.now names.now) }
    ensures fewer { IfOk result (λ others. length others ≤ length names.now) }
{
    let mut others = Names::new(alloc);
    'names: for other in names.as_slice() {
        if name == other {
            continue;
        }
        others.push(other.copy(alloc)?)?;
    }
    Ok(others)
}

/// The index of each name in `others`, and 0 for a name that isn't in it.
fn places_among(alloc: Global, names: &Names, others: &Names) -> Result<Numbers, Memory>
    requires { length others.now ≤ MOST_NAMES }
    ensures { IfOk result (ArePlacesOfNames names.now others.now) }
{
    let mut to = Numbers::new(alloc);
    'names: for name in names.as_slice() {
        to.push(place_among(others, name))?;
    }
    Ok(to)
}

/// The index of a name in the list, or 0 if it isn't in it.
fn place_among(others: &Names, name: &Text) -> u32
    requires { length others.now ≤ MOST_NAMES }
    ensures within { 0 < length others.now → result < length others.now }
    ensures place { Contains others.now name.now → slice_get others.now result ≡ Some name.now }
{
    others.position(name).unwrap_or(0)
}

/// The edges with the proposition hidden in their labels; their guards are of the store `guards`, over the other names.
fn hidden_links(
    alloc: Global,
    a: &Automaton,
    hiding: &Hiding,
    guards: &mut Guards,
) -> Result<Links, Memory>
    requires prop { hiding.now.prop < length a.now.names }
    requires names { guards.old.names ≡ length (names_without (name_at a.now.names hiding.now.prop) a.now.names) }
    requires places { ArePlacesOfNames a.now.names (names_without (name_at a.now.names hiding.now.prop) a.now.names) hiding.now.to }
    ensures names { OnOk result (guards.new.names ≡ guards.old.names) }
    ensures has { IfOk result (All (λ l. Has guards.new l.guard)) }
    ensures edges { IfOk result (λ links. map (edge_of guards.new) links ≡ map (hidden_link hiding.now.how hiding.now.prop a.now) a.now.links) }
{
    let mut given = a.guards().copy(alloc)?;
    let mut done = Done::new(alloc);
    let mut links = Links::from_vec(Vec::with_capacity(alloc, a.links().len())?);
    add_hidden(alloc, a, hiding, &mut given, guards, &mut done, &mut links)?;
    Ok(links)
}

/// Adds the edges with the proposition hidden in their labels to `links`, which is empty. `given` is the store of the automaton or
/// one that it has grown into, and `done` is the table of its guards that were hidden already.
fn add_hidden(
    alloc: Global,
    a: &Automaton,
    hiding: &Hiding,
    given: &mut Guards,
    guards: &mut Guards,
    done: &mut Done,
    links: &mut Links,
) -> Result<(), Memory>
    requires prop { hiding.now.prop < length a.now.names }
    requires names { guards.old.names ≡ length (names_without (name_at a.now.names hiding.now.prop) a.now.names) }
    requires places { ArePlacesOfNames a.now.names (names_without (name_at a.now.names hiding.now.prop) a.now.names) hiding.now.to }
    requires given { Keeps a.now.store given.old }
    requires done { AreHidden given.old guards.old hiding.now.how hiding.now.prop hiding.now.to done.old.entries }
    requires empty { links.old ≡ [] }
    ensures names { OnOk result (guards.new.names ≡ guards.old.names) }
    ensures links { OnOk result (StandFor guards.new links.new (map (hidden_link hiding.now.how hiding.now.prop a.now) a.now.links)) }
{
    a.well_formedness();
    'links: for link in a.links() {
        let guard = hidden_guard(alloc, hiding, given, guards, done, link.guard)?;
        links.push(Link {
            from: link.from,
            guard,
            to: link.to,
            marks: copy_marks(&link.marks)?,
        })?;
    }
    Ok(())
}
