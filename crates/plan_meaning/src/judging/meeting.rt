//! Whether an automaton accepts some lasso word, one that matches a pattern, or one that another automaton accepts too.

ghost use Rattle.std.specs.Prelude.{◌+◌, ◌<◌, ◌^◌};
ghost use Rattle.aut_core.specs.SymbolicAutomata.{automaton_of};
ghost use Rattle.plan_meaning.specs.Filters as asked;
ghost use Rattle.plan_meaning.specs.Operands.{IsOfReadSize};
ghost use Rattle.plan_meaning.specs.inner.Judging.{ExaminesFilter};
ghost use Rattle.word_syntax.specs.Writing.{word_pattern};

use crate::fault::PlanFault;
use aut_core::Automaton;
use inclusion::accept_together;
use lasso_emptiness::accepts_some;
use std::alloc::Global;
use word_syntax::{Pattern, pattern_automaton};

/// Whether it accepts no word that matches the pattern.
pub(crate) fn rejects_word(
    alloc: Global,
    pattern: &Pattern,
    a: &Automaton,
) -> Result<bool, PlanFault>
    requires size { IsOfReadSize (automaton_of a.now) }
    ensures { ExaminesFilter result (asked.RejectsWord (word_pattern pattern.now)) (automaton_of a.now) }
{
    let accepts = accepts_word(alloc, pattern, a)?;
    Ok(!accepts)
}

/// Whether it accepts a word that matches the pattern.
pub(crate) fn accepts_word(
    alloc: Global,
    pattern: &Pattern,
    a: &Automaton,
) -> Result<bool, PlanFault>
    requires size { IsOfReadSize (automaton_of a.now) }
    ensures { ExaminesFilter result (asked.AcceptsWord (word_pattern pattern.now)) (automaton_of a.now) }
{
    let word = pattern_automaton(alloc, pattern)?;
    meets(alloc, a, &word)
}

/// Whether both accept some word in common, where the other has the size of an automaton that is read.
pub(crate) fn intersects(alloc: Global, a: &Automaton, other: &Automaton) -> Result<bool, PlanFault>
    requires size { IsOfReadSize (automaton_of a.now) }
    requires other_size { IsOfReadSize (automaton_of other.now) }
    ensures { ExaminesFilter result (asked.Intersects (automaton_of other.now)) (automaton_of a.now) }
{
    meets(alloc, a, other)
}

/// Whether both accept some word in common.
fn meets(alloc: Global, a: &Automaton, other: &Automaton) -> Result<bool, PlanFault>
    requires { a.now.sets + other.now.sets < 2 ^ 32 }
    ensures { ExaminesFilter result (asked.Intersects (automaton_of other.now)) (automaton_of a.now) }
{
    a.well_formedness();
    let some = accept_together(alloc, a, other)?;
    Ok(some)
}

/// Whether it accepts no word.
pub(crate) fn accepts_nothing(alloc: Global, a: &Automaton) -> Result<bool, PlanFault>
    ensures { ExaminesFilter result asked.IsEmpty (automaton_of a.now) }
{
    let some = accepts_some(alloc, a)?;
    Ok(!some)
}
