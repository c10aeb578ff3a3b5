//! Acceptance conditions, in the notation of rows.

use crate::{Answer, Fault, number};
use aut_base::{Formula, Formulas, Memory};
use std::alloc::Global;

/// Reads a condition.
pub fn read_condition(alloc: Global, text: &str) -> Result<Formula, Fault> {
    let mut parts = Vec::new(alloc);
    add_words(alloc, &mut parts, text)?;
    parts.pop().ok_or(Fault::Missing)
}

/// Reads the words, which leave one part.
fn add_words(alloc: Global, parts: &mut Vec<Formula>, text: &str) -> Result<(), Fault> {
    for word in text.split(',') {
        add_word(alloc, parts, word)?;
    }
    if parts.len() == 1 {
        return Ok(());
    }
    Err(Fault::Missing)
}

/// Adds the condition of a word, made of the parts that it takes.
fn add_word(alloc: Global, parts: &mut Vec<Formula>, word: &str) -> Result<(), Fault> {
    match word {
        "t" => push(parts, Formula::True),
        "f" => push(parts, Formula::False),
        "&" => join(alloc, parts, 2, true),
        "|" => join(alloc, parts, 2, false),
        "&&" => join(alloc, parts, 3, true),
        "||" => join(alloc, parts, 3, false),
        _ => match word.strip_prefix('&') {
            Some(times) => repeat(alloc, parts, number(times)?),
            None => push(parts, read_atom(word)?),
        },
    }
}

/// Adds a part.
fn push(parts: &mut Vec<Formula>, part: Formula) -> Result<(), Fault> {
    match parts.push(part) {
        Ok(()) => Ok(()),
        Err(_) => Err(Fault::Memory),
    }
}

/// The condition of a word such as `I!0`.
fn read_atom(word: &str) -> Result<Formula, Fault> {
    let neg = word.contains('!');
    let set = number(word.trim_start_matches(['I', 'F', '!'].as_slice()))?;
    match word.as_bytes().first() {
        Some(b'I') => Ok(Formula::Inf { set, neg }),
        Some(b'F') => Ok(Formula::Fin { set, neg }),
        _ => Err(Fault::UnknownKind),
    }
}

/// Joins so many of the last parts, at least two.
fn join(alloc: Global, parts: &mut Vec<Formula>, count: usize, is_and: bool) -> Result<(), Fault> {
    if parts.len() < count {
        return Err(Fault::Missing);
    }
    let joined = taken(alloc, parts, count)?;
    push(
        parts,
        if is_and {
            Formula::And(joined)
        } else {
            Formula::Or(joined)
        },
    )
}

/// Takes so many of the last parts, at least two.
fn taken(alloc: Global, parts: &mut Vec<Formula>, count: usize) -> Result<Formulas, Memory> {
    let first = parts.len().saturating_sub(count);
    let mut taken = Formulas::pair(alloc, take(parts, first), take(parts, first))?;
    for _ in 2..count {
        taken.push(take(parts, first))?;
    }
    Ok(taken)
}

/// Takes the part at this place.
fn take(parts: &mut Vec<Formula>, place: usize) -> Formula {
    if place < parts.len() {
        return parts.remove(place);
    }
    Formula::True
}

/// Joins so many copies of the last part, at least two.
fn repeat(alloc: Global, parts: &mut Vec<Formula>, times: u32) -> Result<(), Fault> {
    let times = times.max(2);
    for _ in 1..times {
        push_copy(alloc, parts)?;
    }
    join(alloc, parts, times as usize, true)
}

/// Adds a copy of the last part.
fn push_copy(alloc: Global, parts: &mut Vec<Formula>) -> Result<(), Fault> {
    let copy = match parts.last() {
        Some(part) => part.copy(alloc)?,
        None => return Err(Fault::Missing),
    };
    push(parts, copy)
}

/// Adds a condition to an answer.
#[cycle(show_condition)]
pub fn show_condition(answer: &mut Answer, condition: &Formula) {
    match condition {
        Formula::True => answer.add(b"t"),
        Formula::False => answer.add(b"f"),
        Formula::Inf { set, neg } => show_atom(answer, b"I", *set, *neg),
        Formula::Fin { set, neg } => show_atom(answer, b"F", *set, *neg),
        Formula::And(parts) => show_parts(answer, parts, b"&"),
        Formula::Or(parts) => show_parts(answer, parts, b"|"),
    }
}

fn show_atom(answer: &mut Answer, word: &[u8], set: u32, neg: bool) {
    answer.add(word);
    if neg {
        answer.add(b"!");
    }
    answer.add_number(u64::from(set));
}

#[cycle(show_condition)]
fn show_parts(answer: &mut Answer, parts: &Formulas, sign: &[u8]) {
    'parts: for place in 0..parts.len() {
        show_condition(answer, parts.at(place));
        answer.add(b",");
    }
    show_signs(answer, parts.len(), sign);
}

/// Adds one sign fewer than there are parts.
fn show_signs(answer: &mut Answer, parts: usize, sign: &[u8]) {
    for _ in 1..parts {
        answer.add(sign);
    }
}
