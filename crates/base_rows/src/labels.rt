//! Labels, in the notation of rows.

use crate::words::count;
use aut_base::{Label, Labels, Memory};
use std::alloc::Global;

/// Reads a label in reverse Polish notation: `t` and `f`, a number for a proposition, `!` negates the last part, `&` and `|`
/// join the last two, `&&` and `||` the last three.
pub(crate) fn label(alloc: Global, text: &str) -> Result<Label, Memory> {
    let mut parts = Vec::new(alloc);
    for word in text.split(' ') {
        add_part(alloc, &mut parts, word)?;
    }
    Ok(last(&mut parts))
}

/// Adds the part of a word, which takes its own parts off.
fn add_part(alloc: Global, parts: &mut Vec<Label>, word: &str) -> Result<(), Memory> {
    let part = written(alloc, parts, word)?;
    parts.push(part)?;
    Ok(())
}

fn written(alloc: Global, parts: &mut Vec<Label>, word: &str) -> Result<Label, Memory> {
    match word {
        "t" => Ok(Label::True),
        "f" => Ok(Label::False),
        "!" => Ok(Label::Not(Box::new(alloc, last(parts))?)),
        "&" => Ok(Label::And(last_two(alloc, parts)?)),
        "|" => Ok(Label::Or(last_two(alloc, parts)?)),
        "&&" => Ok(Label::And(last_three(alloc, parts)?)),
        "||" => Ok(Label::Or(last_three(alloc, parts)?)),
        _ => Ok(Label::Prop(count(word))),
    }
}

fn last_two(alloc: Global, parts: &mut Vec<Label>) -> Result<Box<Labels>, Memory> {
    let second = last(parts);
    let first = last(parts);
    Ok(Box::new(alloc, Labels::pair(alloc, first, second))?)
}

fn last_three(alloc: Global, parts: &mut Vec<Label>) -> Result<Box<Labels>, Memory> {
    let third = last(parts);
    let mut all = last_two(alloc, parts)?;
    all.push(third)?;
    Ok(all)
}

/// Takes the last part; it is `f` where there is none.
fn last(parts: &mut Vec<Label>) -> Label {
    parts.pop().unwrap_or(Label::False)
}
