//! Random automata: ambiguity by its definition, with a search through all pairs of short paths.

use crate::decisions::ask_about::verdict;
use crate::decisions::emptiness::three_edges;
use aut_base::Formula;
use aut_core::{Automaton, Link};
use row_automata::{Choices, count_call, meets};
use row_files::{Count, Fault};

/// The most edges of a run, its cycle counted once.
const LENGTH: usize = 5;

/// The number of lists of so many edges, or of fewer.
const PATHS: usize = 1024;

/// An edge, with a bit for each letter that it reads (where `a` fails and where it holds) and for each of its sets.
#[derive(Clone, Copy)]
struct Way {
    from: u32,
    to: u32,
    letters: u32,
    sets: u32,
}

/// The three edges of an automaton, before none.
type Ways = [Option<Way>; 4];

/// A path, with no edge after its end.
type Path = [Option<Way>; LENGTH];

/// Random automata of two states with three edges; the condition changes from one to the next.
pub(crate) fn compared(rt: &HostRuntime, count: &mut Count) -> Result<(), Fault> {
    let mut choices = Choices::chance();
    for number in 0..300u32 {
        let a = three_edges(rt.alloc(), &mut choices, number.wrapping_mul(7))?;
        let is_right = verdict(rt.alloc(), &a) == wanted(&a);
        count_call(rt, count, is_right, "is_unambiguous", &[&a])?;
    }
    Ok(())
}

/// The right verdict.
fn wanted(a: &Automaton) -> &'static str {
    if has_two_runs(a) {
        return "ambiguous";
    }
    "unambiguous"
}

/// Whether two different accepting runs read one short word. Two runs over one word return to their states together after
/// enough rounds, so paths of one length with cycles of one length suffice.
fn has_two_runs(a: &Automaton) -> bool {
    let ways = ways(a);
    let mut are_runs = [false; PATHS];
    for number in 0..PATHS {
        let run = path(&ways, number);
        if is_run(a, &run) {
            if has_alike(a.formula(), &ways, &are_runs, &run) {
                return true;
            }
            are_runs[number] = true;
        }
    }
    false
}

/// Whether one of the paths with these numbers reads the word of this one, and both are accepted.
fn has_alike(formula: &Formula, ways: &Ways, are_runs: &[bool], run: &Path) -> bool {
    for (number, is_run) in are_runs.iter().enumerate() {
        if *is_run {
            let other = path(ways, number);
            if read_alike(run, &other) && both_accept(formula, run, &other) {
                return true;
            }
        }
    }
    false
}

fn ways(a: &Automaton) -> Ways {
    let mut ways = [None; 4];
    let mut links = a.links().iter();
    for way in ways.iter_mut() {
        *way = match links.next() {
            Some(link) => Some(read_link(a, link)),
            None => None,
        };
    }
    ways
}

fn read_link(a: &Automaton, link: &Link) -> Way {
    Way {
        from: link.from,
        to: link.to,
        letters: letters(a, link),
        sets: u32::from(link.marks.has(0)) + 2 * u32::from(link.marks.has(1)),
    }
}

/// The letters that an edge reads, by the numbers of valuations of the only name.
fn letters(a: &Automaton, link: &Link) -> u32 {
    if !a.guards().has(link.guard) {
        return 0;
    }
    let off = u32::from(a.guards().holds_at(link.guard, 0));
    let on = u32::from(a.guards().holds_at(link.guard, 1));
    off | on << 1
}

/// The path of the digits of a number in base four: a digit is the index of an edge, and 3 ends the path.
fn path(ways: &Ways, number: usize) -> Path {
    let mut rest = number;
    let mut path = [None; LENGTH];
    for way in path.iter_mut() {
        *way = ways[rest % 4];
        rest /= 4;
    }
    path
}

/// Whether the path begins at a start, each edge begins where the one before it ends, and no edge comes after its end.
fn is_run(a: &Automaton, path: &Path) -> bool {
    let mut state = None;
    let mut is_over = false;
    for way in path.iter() {
        match way {
            None => is_over = true,
            Some(way) => {
                let begins = match state {
                    None => a.starts().as_slice().contains(&way.from),
                    Some(state) => way.from == state,
                };
                if is_over || !begins || way.letters == 0 {
                    return false;
                }
                state = Some(way.to);
            }
        }
    }
    state.is_some()
}

/// Whether the paths have the same length and at each position some letter is read by both edges.
fn read_alike(path: &Path, other: &Path) -> bool {
    for place in 0..LENGTH {
        let is_alike = match (path[place], other[place]) {
            (None, None) => true,
            (Some(first), Some(second)) => first.letters & second.letters != 0,
            _ => false,
        };
        if !is_alike {
            return false;
        }
    }
    true
}

/// Whether from some position on both are cycles that meet the condition.
fn both_accept(formula: &Formula, path: &Path, other: &Path) -> bool {
    for place in 0..LENGTH {
        if accepts_from(formula, path, place) && accepts_from(formula, other, place) {
            return true;
        }
    }
    false
}

/// Whether the path is a cycle that meets the condition from this position on: it ends where its edge there begins.
fn accepts_from(formula: &Formula, path: &Path, place: usize) -> bool {
    let mut begin = None;
    let mut end = None;
    let mut some = 0;
    let mut each = u32::MAX;
    for number in place..LENGTH {
        if let Some(way) = path[number] {
            begin = begin.or(Some(way.from));
            end = Some(way.to);
            some |= way.sets;
            each &= way.sets;
        }
    }
    begin.is_some() && begin == end && meets(formula, some, each)
}
