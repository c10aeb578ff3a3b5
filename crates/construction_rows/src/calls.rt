//! The calls of rows, by their names.

use crate::made::{Double, Made, Single, hidden, make, make_of_two};
use crate::shapes::ring;
use ap_project::Hide;
use aut_base::Memory;
use aut_ops::{ReachedSize, reached_size};
use row_automata::{add_automaton, add_pair, read};
use row_files::{Answer, Answers, Fault, kind_and_rest, number};
use std::alloc::Global;

/// Answers each call with the automaton that is made, in the notation of rows, or with why none is.
#[derive(Drop)]
pub(crate) struct Constructions;

impl Answers for Constructions {
    fn add_answer(
        &self,
        rt: &HostRuntime,
        answer: &mut Answer,
        call: &str,
        lines: &str,
    ) -> Result<(), Fault> {
        let alloc = rt.alloc();
        let first = line(lines, 0);
        if let Some(call) = single_call(call) {
            return add_single(alloc, answer, call, first);
        }
        if let Some(call) = double_call(call) {
            return add_double(alloc, answer, call, first, line(lines, 1));
        }
        add_other(alloc, answer, call, first)
    }
}

/// The line of this index of a row's input; empty where there are fewer.
pub(crate) fn line(lines: &str, place: usize) -> &str {
    lines.split('\n').nth(place).unwrap_or("")
}

/// Adds what the construction makes of the automaton of a line.
fn add_single(alloc: Global, answer: &mut Answer, call: Single, line: &str) -> Result<(), Fault> {
    let a = read(alloc, line)?;
    Ok(add_made(alloc, answer, make(alloc, call, &a))?)
}

/// Adds what the construction makes of the automata of two lines.
fn add_double(
    alloc: Global,
    answer: &mut Answer,
    call: Double,
    first: &str,
    second: &str,
) -> Result<(), Fault> {
    let a = read(alloc, first)?;
    let b = read(alloc, second)?;
    Ok(add_made(alloc, answer, make_of_two(alloc, call, &a, &b))?)
}

fn single_call(name: &str) -> Option<Single> {
    match name {
        "complete" => Some(Single::Complete),
        "trim" => Some(Single::Trim),
        "prune" => Some(Single::Prune),
        "remove_fin" => Some(Single::WithoutFin),
        "copies" => Some(Single::Copies),
        "to_buchi" => Some(Single::Buchi),
        "monitor" => Some(Single::Monitor),
        "parity" => Some(Single::Parity),
        _ => None,
    }
}

fn double_call(name: &str) -> Option<Double> {
    match name {
        "sum" => Some(Double::Sum),
        "product" => Some(Double::Product),
        "product_or" => Some(Double::ProductOr),
        _ => None,
    }
}

/// The calls whose input isn't one automaton, or whose answer isn't an automaton.
fn add_other(alloc: Global, answer: &mut Answer, call: &str, line: &str) -> Result<(), Fault> {
    let (call, rest) = kind_and_rest(call);
    match hiding_call(call) {
        Some(how) => add_hidden(alloc, answer, rest, how, line),
        None => add_size_by(alloc, answer, call, rest, line),
    }
}

fn hiding_call(name: &str) -> Option<Hide> {
    match name {
        "any" => Some(Hide::Any),
        "absent" => Some(Hide::Absent),
        "present" => Some(Hide::Present),
        _ => None,
    }
}

/// The calls that answer with sizes.
fn add_size_by(
    alloc: Global,
    answer: &mut Answer,
    call: &str,
    rest: &str,
    line: &str,
) -> Result<(), Fault> {
    match call {
        "reached_size" => add_reached(alloc, answer, line),
        "to_buchi_of_ring" => add_size_of_ring(alloc, answer, line),
        "size" => add_size_of(alloc, answer, rest, line),
        _ => Err(Fault::UnknownKind),
    }
}

/// Adds the automaton of a line with a name hidden.
fn add_hidden(
    alloc: Global,
    answer: &mut Answer,
    name: &str,
    how: Hide,
    line: &str,
) -> Result<(), Fault> {
    let a = read(alloc, line)?;
    Ok(add_automaton(alloc, answer, &hidden(alloc, &a, name.as_bytes(), how)?)?)
}

/// Adds the size of the Büchi form of a ring of so many states.
fn add_size_of_ring(alloc: Global, answer: &mut Answer, states: &str) -> Result<(), Fault> {
    let a = ring(alloc, number(states)?, 1, true, "I0,I1,&")?;
    add_size(answer, make(alloc, Single::Buchi, &a));
    Ok(())
}

/// Adds the size of what a construction makes of the automaton of a line.
fn add_size_of(alloc: Global, answer: &mut Answer, name: &str, line: &str) -> Result<(), Fault> {
    let Some(call) = single_call(name) else {
        return Err(Fault::UnknownKind);
    };
    let a = read(alloc, line)?;
    add_size(answer, make(alloc, call, &a));
    Ok(())
}

fn add_made(alloc: Global, answer: &mut Answer, made: Made) -> Result<(), Memory> {
    match made {
        Ok(a) => add_automaton(alloc, answer, &a),
        Err(why) => {
            answer.add(why.as_bytes());
            Ok(())
        }
    }
}

/// Adds the numbers of states and sets, without the automaton.
fn add_size(answer: &mut Answer, made: Made) {
    match made {
        Ok(a) => add_pair(answer, u64::from(a.states()), u64::from(a.sets())),
        Err(why) => answer.add(why.as_bytes()),
    }
}

/// Adds how many states are reached, and how many edges leave them.
fn add_reached(alloc: Global, answer: &mut Answer, line: &str) -> Result<(), Fault> {
    let a = read(alloc, line)?;
    let ReachedSize { states, edges } = reached_size(alloc, &a)?;
    add_pair(answer, u64::from(states), edges as u64);
    Ok(())
}
