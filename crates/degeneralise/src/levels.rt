//! Levels, and the steps between them.

ghost use Rattle.std.specs.Prelude.{◌≡◌, ◌<◌, IfOk};
ghost use Rattle.degeneralise.specs.Buchi.{level_after, levels, marks_at_level, meets_level};

use crate::watches::Watch;
use aut_base::{Marks, Memory};
use fin_removal::meets_at;
use std::alloc::Global;

/// How many levels a state has that waits for this.
pub(crate) fn levels(watch: &Watch) -> usize
    ensures { result ≡ levels watch.now }
{
    match watch {
        Some(literals) => literals.len().max(1),
        None => 1,
    }
}

/// Whether an edge with these marks meets the literal of the level.
fn meets_level(watch: &Watch, level: usize, marks: &Marks) -> bool
    ensures { result ≡ meets_level watch.now level marks.now }
{
    match watch {
        Some(literals) => meets_at(literals, level, marks),
        None => false,
    }
}

/// The level after an edge with these marks.
pub(crate) fn level_after(watch: &Watch, level: usize, marks: &Marks) -> usize
    requires { level < levels watch.now }
    ensures { result ≡ level_after watch.now level marks.now }
{
    let count = levels(watch);
    if !meets_level(watch, level, marks) {
        level
    } else if level + 1 == count {
        0
    } else {
        level + 1
    }
}

/// The marks of an edge at this level, which had these marks: set 0 where it meets the literal of the last level, else
/// none.
pub(crate) fn marks_at(
    alloc: Global,
    watch: &Watch,
    level: usize,
    marks: &Marks,
) -> Result<Marks, Memory>
    requires { level < levels watch.now }
    ensures { IfOk result (λ found. found ≡ marks_at_level watch.now level marks.now) }
{
    let count = levels(watch);
    let mut found = Marks::new(alloc);
    if meets_level(watch, level, marks) && level + 1 == count {
        found.push(0)?;
    }
    Ok(found)
}
