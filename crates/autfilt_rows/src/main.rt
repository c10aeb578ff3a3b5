//! Runs the command on each row of the files of rows, and reads plans. Prints the rows whose outcome is another than the stated one.
#![tactic(auto)]

mod failing;
mod named;
mod plans;
mod ran;
mod row;
mod runs;
mod stated;
mod sure;
mod system;
mod words;

use row::CommandRow;
use row_files::{Count, Stop, run};

/// The files of rows, in the folder where the program runs.
const FILES: [&str; 23] = [
    "examples.rows",
    "printed.rows",
    "ends.rows",
    "aborts.rows",
    "rules.rows",
    "limits.rows",
    "faults.rows",
    "words.rows",
    "streams.rows",
    "counts.rows",
    "figures.rows",
    "emptiness.rows",
    "operands.rows",
    "products.rows",
    "forms.rows",
    "hiding.rows",
    "monitors.rows",
    "determinisation.rows",
    "comparing.rows",
    "refutation.rows",
    "unambiguity.rows",
    "made.rows",
    "large.rows",
];

fn main(rt: HostRuntime) -> Result<(), Stop> {
    let mut count = Count::new();
    run(&rt, &FILES, &mut CommandRow::new(rt.alloc()), &mut count)?;
    plans::count_all(&rt, &mut count)?;
    sure::count_all(&rt, &mut count)?;
    system::count_all(&rt, &mut count)?;
    count.end(&rt)
}
