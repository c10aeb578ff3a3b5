//! Whether an automaton is unambiguous.

ghost use Rattle.aut_core.specs.SymbolicAutomata.{automaton_of};
ghost use Rattle.plan_meaning.specs.Filters as asked;
ghost use Rattle.plan_meaning.specs.Operands.{IsOfReadSize};
ghost use Rattle.plan_meaning.specs.inner.Judging.{ExaminesFilter};

use crate::fault::PlanFault;
use aut_core::Automaton;
use std::alloc::Global;

/// Whether no lasso word has two accepting runs that take different edges.
pub(crate) fn is_unambiguous(alloc: Global, a: &Automaton) -> Result<bool, PlanFault>
    requires size { IsOfReadSize (automaton_of a.now) }
    ensures { ExaminesFilter result asked.IsUnambiguous (automaton_of a.now) }
{
    a.well_formedness();
    Ok(unambiguous::is_unambiguous(alloc, a)?)
}
