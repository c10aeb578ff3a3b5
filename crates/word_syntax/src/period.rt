//! The parts of reducing a lasso word: the shortest list of which the cycle is copies, and letters that the stem shares with it.

ghost use Rattle.std.specs.Prelude.{◌≡◌, ◌+◌, ◌<◌, ◌≤◌, length, IfOk};
ghost use Rattle.word_syntax.specs.inner.Periods.{AreLeastPeriods, ArePeriods, IsLeastPeriod, IsRoot, IsShared};

use crate::letters::is_same;
use aut_base::{Letter, Memory};
use std::alloc::Global;

/// The length of the shortest list of which these letters are copies.
pub(crate) fn root_size(alloc: Global, letters: &[Letter]) -> Result<usize, Memory>
    requires { 0 < length letters.now }
    ensures { IfOk result (λ size. IsRoot letters.now size) }
{
    let periods = least_periods(alloc, letters)?;
    let period = periods[letters.len()];
    if letters.len() % period == 0 {
        Ok(period)
    } else {
        Ok(letters.len())
    }
}

// The least period of each prefix of the letters, by its length (Knuth, Morris and Pratt 1977).
fn least_periods(alloc: Global, letters: &[Letter]) -> Result<Vec<usize>, Memory>
    requires { 0 < length letters.now }
    ensures { IfOk result (λ periods. ArePeriods letters.now periods.items) }
{
    let mut periods = Vec::new(alloc);
    periods.push(1)?;
    periods.push(1)?;
    'fronts: for front in 1..letters.len() {
        let period = next_period(letters, &periods, front);
        periods.push(period)?;
    }
    Ok(periods)
}

// The least period of the prefix that is longer by a letter.
fn next_period(letters: &[Letter], periods: &[usize], front: usize) -> usize
    requires some { 0 < front }
    requires within { front < length letters.now }
    requires size { length periods.now ≡ front + 1 }
    requires least { AreLeastPeriods letters.now (front + 1) periods.now }
    ensures { IsLeastPeriod letters.now (front + 1) result }
{
    let mut period = periods[front];
    'candidates: while period <= front && !is_same(&letters[front], &letters[front - period]) {
        period += periods[front - period];
    }
    period
}

/// How many letters of the stem are kept, and the index at which the rotated cycle begins.
#[derive(Clone, Copy)]
pub(crate) struct Shared {
    pub(crate) kept: usize,
    pub(crate) from: usize,
}

/// Drops the last letter of the stem and rotates the cycle by one for as long as that letter is the cycle's last.
pub(crate) fn shared_end(stem: &[Letter], root: &[Letter]) -> Shared
    requires { 0 < length root.now }
    ensures { IsShared stem.now root.now result.kept result.from }
{
    let mut kept = stem.len();
    let mut from = 0;
    'stem: while kept > 0 {
        let before = if from == 0 { root.len() - 1 } else { from - 1 };
        if !is_same(&stem[kept - 1], &root[before]) {
            break;
        }
        kept -= 1;
        from = before;
    }
    Shared { kept, from }
}
