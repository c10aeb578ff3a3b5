//! The calls on words, and their answers in words.

use crate::call::Call;
use crate::lassos::{Parts, add_simple};
use crate::patterns::{show_automaton, show_pattern, show_simple};
use aut_base::{Lasso, Names, Text};
use aut_core::NameFault;
use row_files::Answer;
use std::alloc::Global;
use std::str::from_utf8;
use word_syntax::{
    Pattern, WordFault, is_over, pattern_automaton, print_word, read_name, read_word, reduce,
};

/// Adds the answer of a call on a text, and a line feed.
pub(crate) fn answer_on_words(alloc: Global, answer: &mut Answer, call: Call, text: &Text) {
    match call {
        Call::ReadWord | Call::PatternAutomaton => add_read(alloc, answer, call, text),
        Call::ReadName => add_name(alloc, answer, text),
        Call::Reduce => add_reduced(alloc, answer, text.as_bytes()),
        Call::PrintWord | Call::ReadBack => add_on_word(alloc, answer, call, text.as_bytes()),
        _ => answer.add(b"no call"),
    }
    answer.add(b"\n");
}

/// Adds what is read of a text, or where it goes wrong.
fn add_read(alloc: Global, answer: &mut Answer, call: Call, text: &Text) {
    match read_word(alloc, text) {
        Ok(pattern) => add_pattern(alloc, answer, call, &pattern),
        Err(WordFault::BadWord(offset)) => {
            answer.add(b"bad ");
            answer.add_number(offset);
        }
        Err(WordFault::Memory) => answer.lack_memory(),
    }
}

/// Adds a pattern, or its automaton.
fn add_pattern(alloc: Global, answer: &mut Answer, call: Call, pattern: &Pattern) {
    match call {
        Call::PatternAutomaton => add_automaton(alloc, answer, pattern),
        _ => show_pattern(answer, pattern),
    }
}

fn add_automaton(alloc: Global, answer: &mut Answer, pattern: &Pattern) {
    match pattern_automaton(alloc, pattern) {
        Ok(automaton) => show_automaton(answer, &automaton),
        Err(NameFault::Names) => answer.add(b"names"),
        Err(NameFault::Memory) => answer.lack_memory(),
    }
}

fn add_name(alloc: Global, answer: &mut Answer, text: &Text) {
    match read_name(alloc, text) {
        Ok(Some((name, size))) => {
            answer.add_number(size as u64);
            answer.add(b" ");
            answer.add(name.as_bytes());
        }
        Ok(None) => answer.add(b"none"),
        Err(_) => answer.lack_memory(),
    }
}

/// Adds the reduced word of a text such as `ab|c`.
fn add_reduced(alloc: Global, answer: &mut Answer, text: &[u8]) {
    let mut written = Answer::new(alloc);
    add_simple(&mut written, text);
    match written.end() {
        Ok(written) => add_on_word(alloc, answer, Call::Reduce, written.as_bytes()),
        Err(_) => answer.lack_memory(),
    }
}

/// Adds the answer of a call on the word that a text writes.
fn add_on_word(alloc: Global, answer: &mut Answer, call: Call, text: &[u8]) {
    let mut parts = Parts::new(alloc);
    match parts.read(alloc, from_utf8(text).unwrap_or("")) {
        Ok(()) => add_of_parts(alloc, answer, call, parts),
        Err(_) => answer.lack_memory(),
    }
}

/// Adds the answer of a call on the word of these parts.
fn add_of_parts(alloc: Global, answer: &mut Answer, call: Call, parts: Parts) {
    let Parts { names, stem, cycle } = parts;
    if cycle.is_empty() {
        answer.add(b"no cycle");
        return;
    }
    let word = Lasso { stem, cycle };
    match call {
        Call::Reduce => show_reduced(alloc, answer, &word),
        _ => add_printed(alloc, answer, call, &word, &names),
    }
}

fn show_reduced(alloc: Global, answer: &mut Answer, word: &Lasso) {
    match reduce(alloc, word) {
        Ok(reduced) => show_simple(answer, &reduced),
        Err(_) => answer.lack_memory(),
    }
}

/// Adds the word as it is printed, or as what is printed is read.
fn add_printed(alloc: Global, answer: &mut Answer, call: Call, word: &Lasso, names: &Names) {
    if !is_over(word, names) {
        answer.add(b"other names");
        return;
    }
    match print_word(alloc, word, names) {
        Ok(text) => add_text(alloc, answer, call, &text),
        Err(_) => answer.lack_memory(),
    }
}

/// Adds a text that was printed, or what is read of it.
fn add_text(alloc: Global, answer: &mut Answer, call: Call, text: &Text) {
    match call {
        Call::PrintWord => answer.add(text.as_bytes()),
        _ => add_read(alloc, answer, call, text),
    }
}
