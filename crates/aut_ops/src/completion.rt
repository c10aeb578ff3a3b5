//! Completion of automata.

ghost use Rattle.std.specs.Prelude.{◌≡◌, ◌+◌, ◌<◌, ◌^◌, ◌==◌, ◌∷◌, ◌++◌, [], All, IfOk, OnOk, flat_map, if◌then◌else◌, length, map, unwrap_or};
ghost use Rattle.std.specs.List.{range_with_len};
ghost use Rattle.aut_base.specs.Formula.{formula_tree};
ghost use Rattle.aut_core.specs.SymbolicAutomata.{automaton_of, edge_of};
ghost use Rattle.aut_core.specs.Deterministic.{IsComplete, IsDeterministic};
ghost use Rattle.aut_core.specs.OtherNames.{AcceptTheSame};
ghost use Rattle.aut_ops.specs.Completion.{completed, gap_edges, missing_label, with_sink};
ghost use Rattle.aut_ops.specs.inner.Parts.{filled_edges, sink_marks};
ghost use Rattle.aut_core.specs.Links.{StandFor};
ghost use Rattle.label_guards.specs.Store.{Has, Keeps, label_in};

use crate::copies::push_links;
use acc_forms::{conj, empty_meets};
use aut_base::{Formula, Marks, Memory, Numbers};
use aut_core::{Automaton, Link, Links, copy_names, copy_numbers};
use label_guards::{Guard, Guards};
use std::alloc::Global;

/// The completion of the automaton, which accepts the same words. A complete automaton stays as it is. Any other gets a sink
/// as its last state, to which each state has an edge, after its others, for the letters that satisfy none of their labels. Where a
/// cycle of edges in no acceptance set would be accepting, the sink's loop is in a fresh set, and the condition requires `Fin` of it.
/// Where there is no start, the sink is one.
pub fn complete(alloc: Global, a: &Automaton) -> Result<Automaton, Memory>
    requires states { (completed (automaton_of a.now)).states < 2 ^ 32 }
    requires sets { (completed (automaton_of a.now)).sets < 2 ^ 32 }
    ensures shape { IfOk result (λ made. automaton_of made ≡ completed (automaton_of a.now)) }
    ensures accepts { IfOk result (λ made. AcceptTheSame (automaton_of made) (automaton_of a.now)) }
    ensures complete { IfOk result (λ made. IsComplete (automaton_of made)) }
    ensures deterministic { IsDeterministic (automaton_of a.now) → IfOk result (λ made. IsDeterministic (automaton_of made)) }
{
    a.well_formedness();
    if a.is_complete() {
        return a.copy(alloc);
    }
    complete_with_sink(alloc, a)
}

/// The completion, or None where the automaton is complete, so that it isn't copied.
pub(crate) fn made_complete(alloc: Global, a: &Automaton) -> Result<Option<Automaton>, Memory>
    requires states { (completed (automaton_of a.now)).states < 2 ^ 32 }
    requires sets { (completed (automaton_of a.now)).sets < 2 ^ 32 }
    ensures shape { IfOk result (λ made. automaton_of (unwrap_or made a.now) ≡ completed (automaton_of a.now)) }
    ensures accepts { IfOk result (λ made. AcceptTheSame (automaton_of (unwrap_or made a.now)) (automaton_of a.now)) }
    ensures complete { IfOk result (λ made. IsComplete (automaton_of (unwrap_or made a.now))) }
{
    a.well_formedness();
    if a.is_complete() {
        return Ok(None);
    }
    Ok(Some(complete(alloc, a)?))
}

/// The automaton with a sink.
fn complete_with_sink(alloc: Global, a: &Automaton) -> Result<Automaton, Memory>
    requires states { (with_sink (automaton_of a.now)).states < 2 ^ 32 }
    requires sets { (with_sink (automaton_of a.now)).sets < 2 ^ 32 }
    ensures { IfOk result (λ made. automaton_of made ≡ with_sink (automaton_of a.now)) }
{
    a.well_formedness();
    let sink = a.states();
    let names = copy_names(a.names())?;
    let starts = starts_or(alloc, a.starts(), sink)?;
    let Trap {
        marks,
        sets,
        formula,
    } = trap_of(alloc, a)?;
    let mut guards = a.guards().copy(alloc)?;
    let mut links = filled_links(alloc, &mut guards, a)?;
    links.push(Link {
        from: sink,
        guard: guards.always(),
        to: sink,
        marks,
    })?;
    Automaton::from_parts(alloc, names, guards, sink + 1, starts, links, sets, formula)
}

/// The acceptance that keeps runs in the sink from being accepting.
#[derive(Drop)]
struct Trap {
    marks: Marks,
    sets: u32,
    formula: Formula,
}

/// The marks of the sink's loop, and the number of sets and the condition of the completion.
fn trap_of(alloc: Global, a: &Automaton) -> Result<Trap, Memory>
    requires { (with_sink (automaton_of a.now)).sets < 2 ^ 32 }
    ensures marks { IfOk result (λ trap. trap.marks ≡ sink_marks (automaton_of a.now)) }
    ensures sets { IfOk result (λ trap. trap.sets ≡ (with_sink (automaton_of a.now)).sets) }
    ensures formula { IfOk result (λ trap. formula_tree trap.formula ≡ (with_sink (automaton_of a.now)).formula) }
{
    let set = a.sets();
    let mut marks = Marks::new(alloc);
    if !empty_meets(a.formula()) {
        return Ok(Trap {
            marks,
            sets: set,
            formula: a.formula().copy(alloc)?,
        });
    }
    marks.push(set)?;
    let formula = conj(alloc, a.formula(), &Formula::Fin { set, neg: false })?;
    Ok(Trap {
        marks,
        sets: set + 1,
        formula,
    })
}

/// The starts, or this state alone where there is none.
fn starts_or(alloc: Global, starts: &Numbers, state: u32) -> Result<Numbers, Memory>
    ensures { IfOk result (λ new. new ≡ (if length starts.now == 0 then state ∷ [] else starts.now)) }
{
    if !starts.is_empty() {
        return copy_numbers(starts);
    }
    let mut single = Numbers::new(alloc);
    single.push(state)?;
    Ok(single)
}

/// The links of each state, followed by its link to the sink.
fn filled_links(alloc: Global, guards: &mut Guards, a: &Automaton) -> Result<Links, Memory>
    requires { guards.old ≡ a.now.store }
    ensures names { guards.new.names ≡ guards.old.names }
    ensures links { IfOk result (λ links. StandFor guards.new links (flat_map (filled_edges (automaton_of a.now)) (range_with_len 0 a.now.states))) }
{
    a.well_formedness();
    let mut links = Links::new(alloc);
    'states: for state in 0..a.states() {
        fill_state(
            alloc,
            guards,
            &mut links,
            a.links_of(state),
            state,
            a.states(),
        )?;
    }
    Ok(links)
}

/// Adds the links of one state, and after them a link to the sink for the letters that satisfy none of their guards, if there are any.
fn fill_state(
    alloc: Global,
    guards: &mut Guards,
    links: &mut Links,
    row: &[Link],
    state: u32,
    sink: u32,
) -> Result<(), Memory>
    requires links { All (λ l. Has guards.old l.guard) links.old }
    requires row { All (λ l. Has guards.old l.guard) row.now }
    ensures keeps { Keeps guards.old guards.new }
    ensures filled { OnOk result (StandFor guards.new links.new
        (map (edge_of guards.old) links.old ++ (map (edge_of guards.old) row.now ++ gap_edges guards.old.names state sink (map (edge_of guards.old) row.now)))) }
{
    let gap = gap_of(guards, row)?;
    push_links(links, row)?;
    if guards.is_false(gap) {
        return Ok(());
    }
    links.push(Link {
        from: state,
        guard: gap,
        to: sink,
        marks: Marks::new(alloc),
    })
}

/// The guard of the letters that satisfy none of the links' guards.
fn gap_of(guards: &mut Guards, row: &[Link]) -> Result<Guard, Memory>
    requires { All (λ l. Has guards.old l.guard) row.now }
    ensures keeps { Keeps guards.old guards.new }
    ensures has { IfOk result (Has guards.new) }
    ensures label { IfOk result (λ gap. label_in guards.new gap ≡ missing_label guards.old.names (map (edge_of guards.old) row.now)) }
{
    let mut met = guards.never();
    'row: for link in row {
        met = guards.or(met, link.guard)?;
    }
    guards.not(met)
}
