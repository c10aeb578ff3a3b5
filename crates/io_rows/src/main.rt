//! Runs `RealInputs` and `RealSink` over files on each row of the files of rows, and prints the rows whose outcome is another
//! than the stated one.
//!
//! The file of several blocks is written first. It serves as standard input, too.
#![tactic(auto)]

mod calls;
mod no_memory;
mod openings;
mod pattern;
mod unsteady;

use calls::Calls;
use openings::Openings;
use pattern::{NAME, write_pattern};
use row_files::{Count, Fault, Stop, ask, run};
use std::fs;
use std::fs::File;

/// A file whose name is that of standard input.
const STANDARD_NAME: &str = "-";

fn main(rt: HostRuntime) -> Result<(), Stop> {
    let mut count = Count::new();
    write_files(&rt)?;
    ask(&rt, &["calls.rows"], Calls, &mut count)?;
    run_openings(&rt, &mut count)?;
    remove_files(&rt)?;
    count.end(&rt)
}

/// Writes the files that are opened.
fn write_files(rt: &HostRuntime) -> Result<(), Fault> {
    write_pattern(rt.alloc(), File::create(rt, NAME)?)?;
    fs::write(rt, STANDARD_NAME, "no pattern")?;
    Ok(())
}

/// Runs the rows of openings, one after the other over the same inputs.
fn run_openings(rt: &HostRuntime, count: &mut Count) -> Result<(), Stop> {
    let mut openings = first_openings(rt)?;
    run(rt, &["openings.rows"], &mut openings, count)
}

fn first_openings(rt: &HostRuntime) -> Result<Openings<'_>, Fault> {
    Ok(Openings::new(rt, File::open(rt, NAME)?)?)
}

fn remove_files(rt: &HostRuntime) -> Result<(), Fault> {
    fs::remove_file(rt, NAME)?;
    fs::remove_file(rt, STANDARD_NAME)?;
    Ok(())
}
