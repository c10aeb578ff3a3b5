//! The runs of a row, and the comparison of their answers with the stated one.

use crate::row::TextRow;
use crate::script::{Counts, Each, Script};
use crate::sources::{read_bytes, read_pieces};
use crate::word_calls::answer_on_words;
use row_files::Answer;
use std::alloc::Global;

/// The longest text, in bytes, that is tried in two pieces at every cut.
const LONGEST: usize = 400;

/// Adds the answers of all runs to what is printed, where they are others than the stated one.
pub(crate) fn add_all_different(alloc: Global, row: &TextRow, shown: &mut Answer) {
    if !row.script.call.is_reading() {
        add_on_words(alloc, row, shown);
        return;
    }
    add_runs(alloc, row, shown);
    if is_cut(row) {
        add_cuts(alloc, row, shown);
    }
}

/// The same for the runs of the lexer, the parser or the reader.
fn add_runs(alloc: Global, row: &TextRow, shown: &mut Answer) {
    for run in row.script.first..row.script.end {
        add_run(alloc, row, shown, run);
    }
}

/// Whether the text is tried in two pieces: the row has one run, no call of it fails and the text isn't long.
fn is_cut(row: &TextRow) -> bool {
    match (row.script.each, row.script.failing) {
        (Each::Nothing, None) => row.text.len() <= LONGEST,
        _ => false,
    }
}

/// Adds the answer of a call on words, where it is another than the stated one.
fn add_on_words(alloc: Global, row: &TextRow, shown: &mut Answer) {
    let mut answer = Answer::new(alloc);
    answer_on_words(alloc, &mut answer, row.script.call, &row.text);
    compare(row, shown, (b"run ", 0), &answer, Counts::none());
}

/// The same for the run of this number.
fn add_run(alloc: Global, row: &TextRow, shown: &mut Answer, run: u32) {
    let mut answer = Answer::new(alloc);
    let script = row.script.of_run(run);
    let counts = read_bytes(alloc, &mut answer, script, read_text(row, run));
    compare(row, shown, (b"run ", run as usize), &answer, counts);
}

/// The prefix of the text that the run of this number reads.
fn read_text(row: &TextRow, run: u32) -> &[u8] {
    let bytes = row.text.as_bytes();
    match row.script.each {
        Each::Front => &bytes[..bytes.len().min(run as usize)],
        _ => bytes,
    }
}

/// The same for the text in two pieces, at every cut.
fn add_cuts(alloc: Global, row: &TextRow, shown: &mut Answer) {
    for place in 0..=row.text.len().min(LONGEST) {
        add_cut(alloc, row, shown, place);
    }
}

/// The same for the text in two pieces, cut at this byte.
fn add_cut(alloc: Global, row: &TextRow, shown: &mut Answer, place: usize) {
    let mut answer = Answer::new(alloc);
    let pieces = row.text.as_bytes().split_at(row.text.len().min(place));
    let counts = read_pieces(alloc, &mut answer, row.script, pieces);
    compare(row, shown, (b"cut at ", place), &answer, counts);
}

/// Adds the row with an answer that is another than the stated one, under the word and number of the run.
fn compare(
    row: &TextRow,
    shown: &mut Answer,
    run: (&[u8], usize),
    answer: &Answer,
    counts: Counts,
) {
    if answer.is(row.wanted.as_bytes()) && row.script.allows(counts) {
        return;
    }
    if !shown.is_empty() {
        shown.add(b"\n");
    }
    shown.add(b"# ");
    shown.add(run.0);
    shown.add_number(run.1 as u64);
    shown.add(b"\n");
    shown.add_all(&row.lines);
    shown.add(b"> ");
    shown.add_all(answer);
    shown.add(b"# taken ");
    shown.add_number(counts.taken);
    shown.add(b", left ");
    shown.add_number(counts.left);
}
