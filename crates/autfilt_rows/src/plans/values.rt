//! The fields of a plan by their names and values.

use ap_project::Hide;
use aut_base::Text;
use filter_plan::{Hidden, Output, Piece, Range};
use row_files::Answer;
use word_syntax::Pattern;

/// Adds a name, with `; ` between it and the fields before it.
pub(crate) fn begin(answer: &mut Answer, name: &[u8]) {
    if !answer.is_empty() {
        answer.add(b"; ");
    }
    answer.add(name);
}

/// Adds a text.
pub(crate) fn show_text(answer: &mut Answer, name: &[u8], text: &Text) {
    begin(answer, name);
    answer.add(b" ");
    answer.add(text.as_bytes());
}

/// Adds the file of an operand.
pub(crate) fn show_file(answer: &mut Answer, name: &[u8], file: &Option<Text>) {
    if let Some(file) = file {
        show_text(answer, name, file);
    }
}

/// Adds a number.
pub(crate) fn show_count(answer: &mut Answer, name: &[u8], count: Option<u32>) {
    if let Some(count) = count {
        begin(answer, b"");
        answer.add_count(name, count);
    }
}

/// Adds a range by its two ends.
pub(crate) fn show_range(answer: &mut Answer, name: &[u8], range: Option<Range>) {
    if let Some(range) = range {
        show_count(answer, name, Some(range.low));
        answer.add(b"..");
        if let Some(high) = range.high {
            answer.add_number(u64::from(high));
        }
    }
}

/// Adds a pattern: its names, and the numbers of letters of its stem and its cycle.
pub(crate) fn show_pattern(answer: &mut Answer, name: &[u8], pattern: &Option<Pattern>) {
    if let Some(pattern) = pattern {
        begin(answer, name);
        for proposition in pattern.names.as_slice() {
            answer.add(b" ");
            answer.add(proposition.as_bytes());
        }
        answer.add(b" ");
        answer.add_number(pattern.stem.len() as u64);
        answer.add(b"+");
        answer.add_number(pattern.cycle.len() as u64);
    }
}

/// Adds a proposition to hide.
pub(crate) fn show_hidden(answer: &mut Answer, hidden: &Option<Hidden>) {
    if let Some(hidden) = hidden {
        let how: &[u8] = match hidden.how {
            Hide::Any => b"remove_ap any",
            Hide::Absent => b"remove_ap absent",
            Hide::Present => b"remove_ap present",
        };
        show_text(answer, how, &hidden.name);
    }
}

/// Adds what is printed of each automaton, where that isn't its text.
pub(crate) fn show_output(answer: &mut Answer, output: &Output) {
    match output {
        Output::Hoa => {}
        Output::Stats(pieces) => {
            begin(answer, b"stats ");
            for piece in pieces.as_slice() {
                show_piece(answer, *piece);
            }
        }
        Output::Refute(file) => show_text(answer, b"refute", file),
    }
}

/// Adds a piece of a format, in brackets unless it is a byte.
fn show_piece(answer: &mut Answer, piece: Piece) {
    match piece {
        Piece::Byte(byte) => answer.add(&[byte]),
        Piece::States => answer.add(b"[states]"),
        Piece::Edges => answer.add(b"[edges]"),
        Piece::Sets => answer.add(b"[sets]"),
        Piece::Word => answer.add(b"[word]"),
    }
}
