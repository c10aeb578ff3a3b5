//! Labels, word patterns, words and automata of patterns, in words.

use aut_base::{Label, Labels, Lasso, Letter, Text};
use aut_core::Automaton;
use row_files::Answer;
use word_syntax::{LabelList, Pattern};

/// The greatest depth of a formula that is written.
const DEPTH: u32 = 2_000;

/// Adds the names with commas between them, a space, and the letters: each of the stem with `;` after it, and those of the cycle
/// in braces with `;` between them.
pub(crate) fn show_pattern(answer: &mut Answer, pattern: &Pattern) {
    show_names(answer, pattern.names.as_slice());
    answer.add(b" ");
    for label in pattern.stem.as_slice() {
        show_label(answer, label);
        answer.add(b";");
    }
    answer.add(b"{");
    show_cycle(answer, &pattern.cycle);
    answer.add(b"}");
}

/// Adds names with commas between them.
fn show_names(answer: &mut Answer, names: &[Text]) {
    for (place, name) in names.iter().enumerate() {
        if place > 0 {
            answer.add(b",");
        }
        answer.add(name.as_bytes());
    }
}

/// Adds the letters of a cycle with `;` between them.
fn show_cycle(answer: &mut Answer, labels: &LabelList) {
    for (place, label) in labels.as_slice().iter().enumerate() {
        if place > 0 {
            answer.add(b";");
        }
        show_label(answer, label);
    }
}

/// Adds a label in Polish notation, as `&(0,!1)`, with a number for each proposition.
pub(crate) fn show_label(answer: &mut Answer, label: &Label) {
    add_label(answer, label, DEPTH);
}

#[cycle(shown)]
fn add_label(answer: &mut Answer, label: &Label, depth: u32) {
    if depth == 0 {
        answer.add(b"..");
        return;
    }
    match label {
        Label::True => answer.add(b"t"),
        Label::False => answer.add(b"f"),
        Label::Prop(place) => answer.add_number(u64::from(*place)),
        Label::Negated(place) => {
            answer.add(b"!");
            answer.add_number(u64::from(*place));
        }
        Label::Not(inner) => {
            answer.add(b"!");
            add_label(answer, inner, depth - 1);
        }
        Label::And(parts) => {
            answer.add(b"&(");
            add_labels(answer, parts, depth - 1);
        }
        Label::Or(parts) => {
            answer.add(b"|(");
            add_labels(answer, parts, depth - 1);
        }
    }
}

#[cycle(shown)]
fn add_labels(answer: &mut Answer, parts: &Labels, depth: u32) {
    for place in 0..parts.len() {
        if place > 0 {
            answer.add(b",");
        }
        add_label(answer, parts.at(place), depth);
    }
    answer.add(b")");
}

/// Adds the word in the notation of rows: the first name of each letter, or `-`.
pub(crate) fn show_simple(answer: &mut Answer, word: &Lasso) {
    for letter in word.stem.as_slice() {
        show_letter(answer, letter);
    }
    answer.add(b"|");
    for letter in word.cycle.as_slice() {
        show_letter(answer, letter);
    }
}

fn show_letter(answer: &mut Answer, letter: &Letter) {
    match letter.names().as_slice().first() {
        Some(name) => answer.add(name.as_bytes()),
        None => answer.add(b"-"),
    }
}

/// Adds the number of states, and the two ends of each edge.
pub(crate) fn show_automaton(answer: &mut Answer, automaton: &Automaton) {
    answer.add_number(u64::from(automaton.states()));
    for link in automaton.links() {
        answer.add(b" ");
        answer.add_number(u64::from(link.from));
        answer.add(b">");
        answer.add_number(u64::from(link.to));
    }
}
