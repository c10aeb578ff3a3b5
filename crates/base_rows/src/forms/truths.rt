//! An evaluator of conditions that calls nothing of the crates that are tried.

use aut_base::{Formula, Formulas};

/// A set of cycles of two edges, each edge in some of two sets. Bit 4 e + d is the cycle of the edges e and d, and bit k of an edge
/// says whether it is in the set k. A cycle of one edge is as that of this edge twice.
pub(crate) type Cycles = u16;

/// The cycles on which a condition is true. Its two sets are the one of this number and the next.
#[cycle(truths)]
pub(crate) fn truths(formula: &Formula, low: u32) -> Cycles {
    match formula {
        Formula::True => Cycles::MAX,
        Formula::False => 0,
        Formula::Inf { set, neg } => through(*set, *neg, low),
        Formula::Fin { set, neg } => !through(*set, *neg, low),
        Formula::And(parts) => !truths_of_some(parts, low, Cycles::MAX),
        Formula::Or(parts) => truths_of_some(parts, low, 0),
    }
}

/// The cycles on which some part is true; or with all bits in `turned`, on which some part is false.
#[cycle(truths)]
fn truths_of_some(parts: &Formulas, low: u32, turned: Cycles) -> Cycles {
    let mut cycles = 0;
    'parts: for place in 0..parts.len() {
        cycles |= truths(parts.at(place), low) ^ turned;
    }
    cycles
}

/// The cycles with an edge in the set, or with `neg` with an edge outside of it.
fn through(set: u32, neg: bool, low: u32) -> Cycles {
    let place = set.wrapping_sub(low);
    let mut cycles = 0;
    for cycle in 0..16u16 {
        if is_in(cycle % 4, place) != neg || is_in(cycle / 4, place) != neg {
            cycles |= 1u16.wrapping_shl(u32::from(cycle));
        }
    }
    cycles
}

/// Whether an edge is in the set of this place.
fn is_in(edge: u16, place: u32) -> bool {
    place < 2 && edge.wrapping_shr(place) % 2 == 1
}
