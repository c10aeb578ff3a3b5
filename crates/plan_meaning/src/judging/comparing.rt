//! Whether an automaton is included in another, or accepts the same.

ghost use Rattle.aut_core.specs.SymbolicAutomata.{automaton_of};
ghost use Rattle.plan_meaning.specs.Complements.{KeepsComplement, StaysKept};
ghost use Rattle.plan_meaning.specs.Filters as asked;
ghost use Rattle.plan_meaning.specs.Operands.{IsOfReadSize};
ghost use Rattle.plan_meaning.specs.inner.Judging.{ComparesInclusion, ExaminesFilter};

use crate::complements::keep_complement;
use crate::fault::PlanFault;
use aut_core::Automaton;
use inclusion::accept_together;
use std::alloc::Global;

/// Whether each word that it accepts is accepted by the other, whose complement is kept.
pub(crate) fn is_included(
    alloc: Global,
    a: &Automaton,
    other: &Automaton,
    kept: &mut Option<Automaton>,
) -> Result<bool, PlanFault>
    requires size { IsOfReadSize (automaton_of a.now) }
    requires other_size { IsOfReadSize (automaton_of other.now) }
    requires kept { KeepsComplement (automaton_of other.now) kept.old }
    ensures examines { ExaminesFilter result (asked.IncludedIn (automaton_of other.now)) (automaton_of a.now) }
    ensures kept { KeepsComplement (automaton_of other.now) kept.new }
    ensures stays { StaysKept kept.old kept.new }
{
    a.well_formedness();
    has_no_word_beside(alloc, a, other, kept)
}

/// Whether both accept the same words: whether each is included in the other. The complement of the other is kept, that of
/// the automaton is made anew.
pub(crate) fn is_equivalent(
    alloc: Global,
    a: &Automaton,
    other: &Automaton,
    kept: &mut Option<Automaton>,
) -> Result<bool, PlanFault>
    requires size { IsOfReadSize (automaton_of a.now) }
    requires other_size { IsOfReadSize (automaton_of other.now) }
    requires kept { KeepsComplement (automaton_of other.now) kept.old }
    ensures examines { ExaminesFilter result (asked.EquivalentTo (automaton_of other.now)) (automaton_of a.now) }
    ensures kept { KeepsComplement (automaton_of other.now) kept.new }
    ensures stays { StaysKept kept.old kept.new }
{
    a.well_formedness();
    let is_included = has_no_word_beside(alloc, a, other, kept)?;
    if !is_included {
        return Ok(false);
    }
    let mut own = None;
    has_no_word_beside(alloc, other, a, &mut own)
}

/// Whether the first accepts no word that the second doesn't: none together with the complement of the second, which is made here
/// unless it is kept.
fn has_no_word_beside(
    alloc: Global,
    a: &Automaton,
    b: &Automaton,
    kept: &mut Option<Automaton>,
) -> Result<bool, PlanFault>
    requires size { IsOfReadSize (automaton_of a.now) }
    requires other_size { IsOfReadSize (automaton_of b.now) }
    requires kept { KeepsComplement (automaton_of b.now) kept.old }
    ensures compares { ComparesInclusion result (automaton_of a.now) (automaton_of b.now) }
    ensures kept { KeepsComplement (automaton_of b.now) kept.new }
    ensures stays { StaysKept kept.old kept.new }
{
    keep_complement(alloc, b, kept)?;
    match kept {
        Some(co_b) => {
            let some = accept_together(alloc, a, co_b)?;
            Ok(!some)
        }
        None => unreachable!(),
    }
}
