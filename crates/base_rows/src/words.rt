//! The parts of a row's input, and short answers. A part that is missing is empty, and a word that is no number is 0.

use row_files::{Answer, Count, Fault, kind_and_rest};

/// The part of a line at this index. Parts have `; ` between any two.
pub(crate) fn part(line: &str, place: usize) -> &str {
    line.split("; ").nth(place).unwrap_or("")
}

/// What comes after the first space of a line, such as all parts but the first.
pub(crate) fn rest(line: &str) -> &str {
    kind_and_rest(line).1
}

/// The value of a digit.
pub(crate) fn digit(byte: u8) -> Option<u32> {
    match byte {
        b'0'..=b'9' => Some(u32::from(byte - b'0')),
        _ => None,
    }
}

/// A number in decimal digits.
pub(crate) fn count(word: &str) -> u32 {
    word.parse::<u32>().unwrap_or(0)
}

/// Two numbers with a space between them.
pub(crate) fn two_counts(words: &str) -> (u32, u32) {
    let (first, second) = kind_and_rest(words);
    (count(first), count(second))
}

/// Adds `true` or `false`.
pub(crate) fn add_truth(answer: &mut Answer, is_true: bool) {
    answer.add(if is_true { b"true" } else { b"false" });
}

/// Adds a number, with a space before it where it isn't the first.
pub(crate) fn add_number(answer: &mut Answer, number: u64) {
    if !answer.is_empty() {
        answer.add(b" ");
    }
    answer.add_number(number);
}

/// Counts a case. Where it isn't right, prints what it is and its numbers in base two.
pub(crate) fn take(
    rt: &HostRuntime,
    count: &mut Count,
    is_right: bool,
    what: &str,
    numbers: (u16, u16),
) -> Result<(), Fault> {
    if is_right {
        return count.take(rt, None);
    }
    let (first, second) = numbers;
    let text = format!(in rt.alloc(); "{what} {first:b} {second:b}")?;
    count.take(rt, Some(text))
}
