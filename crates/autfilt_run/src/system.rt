//! The command over the system: its arguments, files, and standard input, output and error.
//!
//! A program calls `run` and ends with the status that it answers.

mod answering;
mod call;

use crate::End;
pub use answering::{answer, exit_code, refuse};
use real_io::{RealInputs, RealSink, SystemFiles};
use std::env;
use std::process::ExitCode;

// Why so: '`main` is one call' in docs/DECISIONS.md.
/// Does what the arguments of the process ask for, and answers the exit status.
pub fn run(rt: HostRuntime) -> ExitCode {
    let mut out = RealSink::new(rt.stdout());
    let mut notes = RealSink::new(rt.stderr());
    match RealInputs::new(rt.alloc(), rt.stdin(), SystemFiles::new(&rt)) {
        Ok(mut inputs) => answer(
            rt.alloc(),
            env::args(&rt),
            &mut inputs,
            &mut out,
            &mut notes,
        ),
        Err(want) => refuse(&mut notes, End::from(want)),
    }
}
