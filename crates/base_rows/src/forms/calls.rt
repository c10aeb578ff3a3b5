//! The calls, each made once. They stand apart so that nothing that compares their answers carries their contracts.

use acc_forms::{FormFault, conj, disj, disjuncts, dual, of_terms, shift};
use aut_base::{Formula, Memory};
use std::alloc::Global;

/// By how much sets are raised.
pub(crate) const RAISED: u32 = 3;

/// Sets below this number can be raised: 2^32 - 3.
const ROOM: u32 = 4_294_967_293;

/// The calls that make a condition of one or two.
#[derive(Clone, Copy)]
pub(crate) enum Call {
    Dual,
    /// The sets raised by `RAISED`.
    Shift,
    /// The condition that is rebuilt from its terms.
    Spread,
    Conj,
    Disj,
}

/// What a call makes of the first condition, or of both.
pub(crate) fn made(alloc: Global, call: Call, f: &Formula, g: &Formula) -> Result<Formula, Memory> {
    match call {
        Call::Dual => dual(alloc, f),
        Call::Shift => raised(alloc, f),
        Call::Spread => spread(alloc, f),
        Call::Conj => conj(alloc, f, g),
        Call::Disj => disj(alloc, f, g),
    }
}

/// The condition of the sets raised, or `f` where they can't be.
fn raised(alloc: Global, formula: &Formula) -> Result<Formula, Memory> {
    if !formula.is_below(ROOM) {
        return Ok(Formula::False);
    }
    shift(alloc, formula, RAISED)
}

/// The condition of the terms, or `f` where they are too many.
fn spread(alloc: Global, formula: &Formula) -> Result<Formula, Memory> {
    match disjuncts(alloc, formula) {
        Ok(terms) => of_terms(alloc, &terms),
        Err(FormFault::Terms) => Ok(Formula::False),
        Err(FormFault::Memory) => Err(Memory),
    }
}

/// How many terms are made, or `None` where they are too many.
pub(crate) fn terms_made(alloc: Global, formula: &Formula) -> Result<Option<u64>, Memory> {
    match disjuncts(alloc, formula) {
        Ok(terms) => Ok(Some(terms.len() as u64)),
        Err(FormFault::Terms) => Ok(None),
        Err(FormFault::Memory) => Err(Memory),
    }
}
