//! Runs over the system, with the standard input, output and error of this program.

use crate::words::add_words;
use aut_base::Words;
use autfilt_run::autfilt;
use real_io::{RealInputs, RealSink, SystemFiles};
use row_files::{Count, Fault};

/// The words of command lines that print nothing, and their statuses: words that are no plan, a filter that drops the only automaton of
/// standard input, and a file that is not there.
const ROWS: [(&str, u8); 3] = [
    ("--is-empty --colour", 2),
    ("--is-empty", 1),
    ("missing.hoa", 2),
];

/// Counts these runs, and those that end with another status.
pub(crate) fn count_all(rt: &HostRuntime, count: &mut Count) -> Result<(), Fault> {
    for (line, wanted) in ROWS.iter() {
        count.add(status(rt, line)? != *wanted);
    }
    Ok(())
}

fn status(rt: &HostRuntime, line: &str) -> Result<u8, Fault> {
    let mut words = Words::new(rt.alloc());
    add_words(rt.alloc(), &mut words, line)?;
    let mut inputs = RealInputs::new(rt.alloc(), rt.stdin(), SystemFiles::new(rt))?;
    let mut out = RealSink::new(rt.stdout());
    let mut notes = RealSink::new(rt.stderr());
    let ended = autfilt(rt.alloc(), &words, &mut inputs, &mut out, &mut notes);
    Ok(ended.status())
}
