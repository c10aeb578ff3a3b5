//! The functions that are tried: all of three propositions, and a sample of those of four.

use crate::guards::functions::Functions;
use crate::guards::tables::Table;
use crate::words::take;
use aut_base::Memory;
use row_files::{Count, Fault};
use std::alloc::Global;

/// How many pairs of functions of four propositions are tried.
const SAMPLE: u32 = 200;

/// Counts the functions of three propositions, all pairs of them and the sample, and those that are not right.
pub(crate) fn count_all(rt: &HostRuntime, count: &mut Count) -> Result<(), Fault> {
    count_three(rt, &mut Functions::new(rt.alloc(), 3, 256)?, count)?;
    count_samples(rt, &mut Functions::new(rt.alloc(), 4, 0)?, count)
}

/// Counts the functions of three propositions, and all pairs of them.
fn count_three(
    rt: &HostRuntime,
    functions: &mut Functions,
    count: &mut Count,
) -> Result<(), Fault> {
    count_functions(rt, functions, count)?;
    for first in 0..256u16 {
        count_pairs(rt, functions, first, count)?;
    }
    Ok(())
}

/// Counts the functions of three propositions.
fn count_functions(
    rt: &HostRuntime,
    functions: &mut Functions,
    count: &mut Count,
) -> Result<(), Fault> {
    for table in 0..256u16 {
        let is_right = functions.is_right(rt.alloc(), table)?
            && functions.is_brought_rightly(rt.alloc(), table)?;
        take(rt, count, is_right, "functions", (table, table))?;
    }
    Ok(())
}

/// Counts the pairs of this function of three propositions with each.
fn count_pairs(
    rt: &HostRuntime,
    functions: &mut Functions,
    first: Table,
    count: &mut Count,
) -> Result<(), Fault> {
    for second in 0..256u16 {
        let is_right = is_pair_right(rt.alloc(), functions, first, second)?;
        take(rt, count, is_right, "functions", (first, second))?;
    }
    Ok(())
}

/// Counts the pairs of a sample of functions of four propositions.
fn count_samples(
    rt: &HostRuntime,
    functions: &mut Functions,
    count: &mut Count,
) -> Result<(), Fault> {
    let mut seed = 1u16;
    for _ in 0..SAMPLE {
        let first = next(seed);
        let second = next(first);
        seed = second;
        let is_right = functions.is_right(rt.alloc(), first)?
            && is_pair_right(rt.alloc(), functions, first, second)?;
        take(rt, count, is_right, "functions", (first, second))?;
    }
    Ok(())
}

/// The next number of a sequence that runs through all of 16 bits.
fn next(seed: u16) -> u16 {
    seed.wrapping_mul(25173).wrapping_add(13849)
}

/// Whether joins and classes of two functions are right.
fn is_pair_right(
    alloc: Global,
    functions: &mut Functions,
    first: Table,
    second: Table,
) -> Result<bool, Memory> {
    if !functions.are_joined_rightly(alloc, first, second)? {
        return Ok(false);
    }
    functions.are_classed_rightly(alloc, first, second)
}
