//! Running the rows of files, and printing those that differ.

use crate::{Count, Fault, Stop};
use std::alloc::Global;
use std::fs;

/// A kind of row: how its lines are parsed, the call that it makes, and the result that it expects.
pub trait Row {
    /// Takes a line of the row, and answers whether the row is complete with it. The line is neither empty nor a comment.
    fn add(&mut self, rt: &HostRuntime, line: &str) -> Result<bool, Fault>;

    /// Whether the row is complete at an empty line or the end of a file. A row without lines is not. Fails where the row was begun and
    /// a line of another kind has to end it.
    fn is_whole(&self) -> Result<bool, Fault>;

    /// Makes the call, and answers a message to print where the result is not the expected one.
    fn different(&self, rt: &HostRuntime) -> Result<Option<String>, Fault>;

    /// Forgets the lines of a row that was run. A kind of row may keep some for the next row, such as a call's name.
    fn clear(&mut self, alloc: Global);
}

/// Runs the rows of these files, and counts them.
pub fn run<R: Row>(
    rt: &HostRuntime,
    files: &[&'static str],
    row: &mut R,
    count: &mut Count,
) -> Result<(), Stop> {
    for file in files {
        let mut line = 0;
        if let Err(fault) = run_file(rt, file, &mut line, row, count) {
            return Err(Stop { file, line, fault });
        }
    }
    Ok(())
}

/// Runs the rows of a file, and keeps the number of the line that was read last.
fn run_file<R: Row>(
    rt: &HostRuntime,
    file: &str,
    number: &mut u32,
    row: &mut R,
    count: &mut Count,
) -> Result<(), Fault> {
    match fs::read_to_string(rt, file) {
        Ok(text) => run_text(rt, text.as_str(), number, row, count),
        Err(error) => Err(Fault::Io(error)),
    }
}

/// Gives each line to the row. The end of the text ends a row as an empty line does.
fn run_text<R: Row>(
    rt: &HostRuntime,
    text: &str,
    number: &mut u32,
    row: &mut R,
    count: &mut Count,
) -> Result<(), Fault> {
    for line in text.lines() {
        *number = number.saturating_add(1);
        run_line(rt, line, row, count)?;
    }
    run_line(rt, "", row, count)
}

/// Gives a line to the row, and runs it where that ends it.
fn run_line<R: Row>(
    rt: &HostRuntime,
    line: &str,
    row: &mut R,
    count: &mut Count,
) -> Result<(), Fault> {
    if is_ended(rt, line, row)? {
        count.take(rt, row.different(rt)?)?;
        row.clear(rt.alloc());
    }
    Ok(())
}

/// Gives a line to the row, and answers whether that ends it.
fn is_ended<R: Row>(rt: &HostRuntime, line: &str, row: &mut R) -> Result<bool, Fault> {
    if line.is_empty() {
        return row.is_whole();
    }
    if line.starts_with('#') {
        return Ok(false);
    }
    row.add(rt, line)
}
