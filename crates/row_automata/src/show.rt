//! Printing of automata.

use aut_base::{Memory, Text};
use aut_core::{Automaton, Link};
use label_guards::{Guard, Guards};
use row_files::{Answer, Count, Fault, show_condition};
use std::alloc::Global;

/// Adds the automaton in the notation of rows, except that its labels have spaces.
pub fn add_automaton(alloc: Global, answer: &mut Answer, a: &Automaton) -> Result<(), Memory> {
    add_head(answer, a);
    for link in a.links() {
        let label = label(alloc, a.guards(), link.guard)?;
        add_link(answer, link, &label);
    }
    Ok(())
}

/// Adds what is before the edges.
fn add_head(answer: &mut Answer, a: &Automaton) {
    answer.add_number(u64::from(a.states()));
    answer.add(b"/");
    add_starts_and_names(answer, a);
    answer.add(b"/");
    answer.add_number(u64::from(a.sets()));
    answer.add(b"/");
    show_condition(answer, a.formula());
}

fn add_starts_and_names(answer: &mut Answer, a: &Automaton) {
    for start in a.starts().as_slice() {
        answer.add_number(u64::from(*start));
    }
    answer.add(b"/");
    for name in a.names().as_slice() {
        answer.add(name.as_bytes());
    }
}

fn add_link(answer: &mut Answer, link: &Link, label: &Text) {
    answer.add_count(b"", link.from);
    answer.add(b"[");
    answer.add(label.as_bytes());
    answer.add(b"]");
    answer.add_number(u64::from(link.to));
    for place in 0..link.marks.len() {
        answer.add(b"+");
        answer.add_number(u64::from(*link.marks.at(place)));
    }
}

/// The label of a guard.
fn label(alloc: Global, guards: &Guards, guard: Guard) -> Result<Text, Memory> {
    if !guards.has(guard) {
        return Ok(Text::new(alloc));
    }
    guards.cubes(alloc, guard)
}

/// Counts an answer of this call. Where it isn't right, prints the call with the automata that it is of, as a row.
pub fn count_call(
    rt: &HostRuntime,
    count: &mut Count,
    is_right: bool,
    call: &str,
    automata: &[&Automaton],
) -> Result<(), Fault> {
    if is_right {
        return count.take(rt, None);
    }
    count.take(rt, Some(told(rt.alloc(), call, automata)?))
}

fn told(alloc: Global, call: &str, automata: &[&Automaton]) -> Result<String, Fault> {
    let mut told = Answer::new(alloc);
    add_call(alloc, &mut told, call, automata)?;
    Ok(String::from_utf8_lossy(alloc, told.end()?.as_bytes())?)
}

fn add_call(
    alloc: Global,
    told: &mut Answer,
    call: &str,
    automata: &[&Automaton],
) -> Result<(), Memory> {
    told.add(b"? ");
    told.add(call.as_bytes());
    for a in automata {
        told.add(b"\n< ");
        add_automaton(alloc, told, a)?;
    }
    Ok(())
}

/// Adds two numbers with a space between them.
pub fn add_pair(answer: &mut Answer, first: u64, second: u64) {
    answer.add_number(first);
    answer.add(b" ");
    answer.add_number(second);
}
