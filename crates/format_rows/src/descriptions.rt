//! What `describe` answers, in words: the automaton that is described, or the fault.

use crate::patterns::show_label;
use aut_base::{Description, Edge, Marks};
use hoa_parser::Raw;
use hoa_reader::{ElabFault, describe};
use row_files::{Answer, show_condition};
use std::alloc::Global;

/// Adds the first broken rule or passed limit.
fn show_refusal(alloc: Global, answer: &mut Answer, fault: ElabFault) {
    match fault {
        ElabFault::Invalid(rule) => answer.add_words(format!(in alloc; "invalid {rule:?}")),
        ElabFault::Limit(limit) => answer.add_words(format!(in alloc; "limit {limit:?}")),
        ElabFault::Memory => answer.add(b"memory"),
    }
}

/// Adds the numbers of sets, in braces, where there are any.
fn show_marks(answer: &mut Answer, marks: &Marks) {
    if marks.is_empty() {
        return;
    }
    answer.add(b" {");
    for place in 0..marks.len() {
        answer.add_count(b"", *marks.at(place));
    }
    answer.add(b" }");
}

/// Adds an edge.
fn show_edge(answer: &mut Answer, edge: &Edge) {
    answer.add_count(b";", edge.from);
    answer.add(b" [");
    show_label(answer, &edge.label);
    answer.add(b"]");
    answer.add_count(b"", edge.to);
    show_marks(answer, &edge.marks);
}

/// Adds what is described.
fn show_description(answer: &mut Answer, described: &Description) {
    answer.add(b"names");
    answer.add_texts(described.names.as_slice());
    answer.add(b"; starts");
    answer.add_numbers(described.starts.as_slice());
    answer.add_count(b"; states", described.states);
    answer.add_count(b"; acceptance", described.sets);
    answer.add(b" ");
    show_condition(answer, &described.formula);
    for edge in described.edges.as_slice() {
        show_edge(answer, edge);
    }
}

/// Adds what is described, or that it is valid.
fn show_valid(answer: &mut Answer, described: &Description, is_full: bool) {
    if is_full {
        show_description(answer, described);
    } else {
        answer.add(b"valid");
    }
}

/// Adds what `describe` answers: the automaton itself only where the row asks for it.
pub(crate) fn show_described(alloc: Global, answer: &mut Answer, raw: &Raw, is_full: bool) {
    match describe(alloc, raw) {
        Ok(described) => show_valid(answer, &described, is_full),
        Err(fault) => show_refusal(alloc, answer, fault),
    }
}
