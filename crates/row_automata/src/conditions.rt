//! An enumeration of the conditions of up to three atoms over two sets, and an evaluator of conditions.

use aut_base::{Formula, Formulas, Memory};
use std::alloc::Global;

/// The number of conditions: of one atom, of two under an And or an Or, of three under one of these, and of an atom and two others
/// under the other one.
pub const CONDITIONS: u32 = 8 + 2 * 64 + 4 * 512;

/// The number of all conditions: also of an atom and two others under the same one, and of two atoms and another one.
pub const ALL_CONDITIONS: u32 = CONDITIONS + 6 * 512;

/// The condition of a number below `ALL_CONDITIONS`.
pub fn condition(alloc: Global, number: u32) -> Result<Formula, Memory> {
    if number < 8 {
        return Ok(atom(number));
    }
    let rest = number - 8;
    if rest < 128 {
        return of_two(alloc, rest / 64, rest / 8, rest);
    }
    of_three(alloc, (rest - 128) / 512, (rest - 128) % 512)
}

/// An atom, by the last digit of a number to the base eight.
fn atom(number: u32) -> Formula {
    let set = number / 4 % 2;
    let neg = number % 2 == 1;
    if number / 2 % 2 == 0 {
        Formula::Inf { set, neg }
    } else {
        Formula::Fin { set, neg }
    }
}

/// Two atoms.
fn of_two(alloc: Global, shape: u32, first: u32, second: u32) -> Result<Formula, Memory> {
    Ok(joined(shape, Formulas::pair(alloc, atom(first), atom(second))?))
}

/// An And for an even number, and else an Or.
fn joined(shape: u32, parts: Formulas) -> Formula {
    if shape % 2 == 0 {
        return Formula::And(parts);
    }
    Formula::Or(parts)
}

/// Three atoms, by the shape: all under one; the first and the join of the others; or the join of the first two and the last.
fn of_three(alloc: Global, shape: u32, atoms: u32) -> Result<Formula, Memory> {
    // What joins two of them is the other one in the shapes 2, 3, 6 and 7.
    let inner = shape % 2 + shape / 2 % 2;
    if shape < 2 {
        return Ok(joined(shape, three(alloc, atoms)?));
    }
    if shape < 6 {
        let others = of_two(alloc, inner, atoms / 8, atoms)?;
        return Ok(joined(shape, Formulas::pair(alloc, atom(atoms / 64), others)?));
    }
    let others = of_two(alloc, inner, atoms / 64, atoms / 8)?;
    Ok(joined(shape, Formulas::pair(alloc, others, atom(atoms))?))
}

fn three(alloc: Global, atoms: u32) -> Result<Formulas, Memory> {
    let mut parts = Formulas::pair(alloc, atom(atoms / 64), atom(atoms / 8))?;
    parts.push(atom(atoms))?;
    Ok(parts)
}

/// Whether a cycle meets the condition, from bits: the sets that some of its edges is in, and those that each is in.
#[cycle(meets)]
pub fn meets(condition: &Formula, some: u32, each: u32) -> bool {
    match condition {
        Formula::True => true,
        Formula::False => false,
        Formula::Inf { set, neg } => is_met(*set, *neg, some, each),
        Formula::Fin { set, neg } => !is_met(*set, *neg, some, each),
        Formula::And(parts) => !has_value(parts, some, each, false),
        Formula::Or(parts) => has_value(parts, some, each, true),
    }
}

/// Whether some part has this truth.
#[cycle(meets)]
fn has_value(parts: &Formulas, some: u32, each: u32, value: bool) -> bool {
    'parts: for place in 0..parts.len() {
        if meets(parts.at(place), some, each) == value {
            return true;
        }
    }
    false
}

/// Whether some edge is in the set, or with `neg` some edge isn't.
fn is_met(set: u32, neg: bool, some: u32, each: u32) -> bool {
    if neg {
        return each >> set.min(31) & 1 == 0;
    }
    some >> set.min(31) & 1 == 1
}
