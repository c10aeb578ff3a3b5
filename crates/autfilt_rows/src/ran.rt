//! The outcome of a run.

use aut_base::Words;
use aut_io::{Inputs, MemInputs, MemSink};
use autfilt_run::autfilt;
use row_files::Answer;
use std::alloc::Global;

/// The status, what was written and noted, and how many bytes were left of the text that was opened.
#[derive(Clone, Copy)]
pub(crate) struct Ran<'a> {
    pub(crate) status: u8,
    pub(crate) out: &'a [u8],
    pub(crate) notes: &'a [u8],
    pub(crate) left: u32,
}

/// Runs the command over these inputs and sinks, and answers with its status. It is a function of its own so that no other one has
/// to deal with the command's contract.
pub(crate) fn status(
    alloc: Global,
    words: &Words,
    inputs: &mut MemInputs,
    out: &mut MemSink,
    notes: &mut MemSink,
) -> u8 {
    autfilt(alloc, words, inputs, out, notes).status()
}

/// How many bytes are left of the open text. They are read for it, again after reads that fail.
pub(crate) fn bytes_left(inputs: &mut MemInputs) -> u32 {
    let mut left = 0u32;
    for _ in 0..u32::MAX {
        match inputs.next() {
            Ok(Some(_)) => left = left.saturating_add(1),
            Ok(None) => break,
            Err(_) => {}
        }
    }
    left
}

/// Adds the outcome, in the notation of rows.
pub(crate) fn add_ran(shown: &mut Answer, ran: Ran) {
    shown.add_count(b"?", u32::from(ran.status));
    shown.add(b"\n");
    add_lines(shown, b"> ", ran.out);
    add_lines(shown, b"! ", ran.notes);
    shown.add_count(b"left", ran.left);
    shown.add(b"\n");
}

/// Adds the lines of a text, each with this mark before it.
fn add_lines(shown: &mut Answer, mark: &[u8], bytes: &[u8]) {
    let text = std::str::from_utf8(bytes).unwrap_or("(no plain text)");
    for line in text.lines() {
        shown.add(mark);
        shown.add(line.as_bytes());
        shown.add(b"\n");
    }
    if !text.is_empty() && !text.ends_with('\n') {
        shown.add(b"# without the last line feed\n");
    }
}
