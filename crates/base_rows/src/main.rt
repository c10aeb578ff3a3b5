//! Calls the base crates on each row of the files of rows, and on all small conditions, graphs and truth functions. Prints
//! each row whose answer is another than the one that is stated or computed.
#![tactic(auto)]

mod automata;
mod exploring;
mod forms;
mod graphs;
mod guards;
mod labels;
mod streams;
mod values;
mod words;

use aut_base::Memory;
use forms::Call;
use graphs::arcs::Source;
use row_files::{Answer, Answers, Count, Fault, Stop, ask};
use std::alloc::Global;

/// The files of rows, in the folder where the program runs.
const FILES: [&str; 7] = [
    "values.rows",
    "streams.rows",
    "forms.rows",
    "graphs.rows",
    "explorations.rows",
    "guards.rows",
    "automata.rows",
];

fn main(rt: HostRuntime) -> Result<(), Stop> {
    let mut count = Count::new();
    ask(&rt, &FILES, Base, &mut count)?;
    forms::compare::count_all(&rt, &mut count)?;
    graphs::small::count_all(&rt, &mut count)?;
    guards::sample::count_all(&rt, &mut count)?;
    count.end(&rt)
}

/// The calls, by their names in rows.
#[derive(Clone, Copy)]
struct Base;

impl Answers for Base {
    fn add_answer(
        &self,
        rt: &HostRuntime,
        answer: &mut Answer,
        call: &str,
        lines: &str,
    ) -> Result<(), Fault> {
        add_answer(rt.alloc(), answer, call, lines.trim_end())
    }
}

/// Adds what a call answers of a line.
fn add_answer(alloc: Global, answer: &mut Answer, call: &str, line: &str) -> Result<(), Fault> {
    match call {
        "met_by" => values::add_met_by(alloc, answer, line),
        "dual" => forms::add_made(alloc, answer, Call::Dual, line),
        "shift" => forms::add_made(alloc, answer, Call::Shift, line),
        "of_terms" => forms::add_made(alloc, answer, Call::Spread, line),
        "conj" => forms::add_made(alloc, answer, Call::Conj, line),
        "disj" => forms::add_made(alloc, answer, Call::Disj, line),
        "has_fin" | "empty_meets" | "terms_count" | "disjuncts" => {
            forms::add_told(alloc, answer, call, line)
        }
        "is_deterministic, is_complete" => automata::add_verdict(alloc, answer, line),
        "over" => automata::add_over(alloc, answer, line),
        _ => Ok(add_answer_of_lower(alloc, answer, call, line)?),
    }
}

/// The calls whose rows have no condition.
fn add_answer_of_lower(
    alloc: Global,
    answer: &mut Answer,
    call: &str,
    line: &str,
) -> Result<(), Memory> {
    match call {
        "holds" => values::add_holds(alloc, answer, line),
        "truth" => values::add_label_truth(alloc, answer, line),
        "names" | "position" | "has" => values::add_of_names(alloc, answer, call, line),
        "source" => streams::add_source(alloc, answer, line),
        "sure source" => streams::add_sure_source(alloc, answer, line),
        "sink" => streams::add_sink(alloc, answer, line),
        "sure sink" => streams::add_sure_sink(answer, line),
        "parity_min_odd" => forms::add_parity(alloc, answer, line),
        _ => add_answer_of_upper(alloc, answer, call, line),
    }
}

fn add_answer_of_upper(
    alloc: Global,
    answer: &mut Answer,
    call: &str,
    line: &str,
) -> Result<(), Memory> {
    match call {
        "reach" | "components" | "path" | "path length" => graphs::add_walk(
            alloc, answer, call, line,
        ),
        "line" => graphs::add_large(alloc, answer, Source::Line, line),
        "ring" => graphs::add_large(alloc, answer, Source::Ring, line),
        "comb" => graphs::add_large(alloc, answer, Source::Comb, line),
        "explore doubling" => exploring::add_doubled(alloc, answer, line),
        "explore rising" => exploring::add_risen(alloc, answer, line),
        "cubes" => guards::add_canonical(alloc, answer, line),
        "classes" => guards::add_divided(alloc, answer, line),
        "join_names" => automata::add_joined(alloc, answer, line),
        _ => {
            answer.add(b"no such call");
            Ok(())
        }
    }
}
