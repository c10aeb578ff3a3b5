//! Calls the lexer, the parser, the reader and `word_syntax` on each row of the files of rows, and prints the rows whose
//! answers are others than those that are stated.
#![tactic(auto)]

mod automata;
mod call;
mod descriptions;
mod lassos;
mod patterns;
mod reading;
mod row;
mod runs;
mod script;
mod sources;
mod tokens;
mod word_calls;

use row::TextRow;
use row_files::{Count, Stop, run};

/// The files of rows, in the folder where the program runs.
const FILES: [&str; 11] = [
    "tokens.rows",
    "items.rows",
    "labels.rows",
    "states.rows",
    "ends.rows",
    "refused.rows",
    "nested.rows",
    "described.rows",
    "patterns.rows",
    "names.rows",
    "lassos.rows",
];

fn main(rt: HostRuntime) -> Result<(), Stop> {
    let mut count = Count::new();
    run_rows(&rt, &mut count)?;
    count.end(&rt)
}

fn run_rows(rt: &HostRuntime, count: &mut Count) -> Result<(), Stop> {
    let mut row = TextRow::new(rt.alloc());
    run(rt, &FILES, &mut row, count)
}
