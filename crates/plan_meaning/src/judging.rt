//! The verdict on an automaton.

mod comparing;
mod filter;
mod meeting;
mod square;

ghost use Rattle.std.specs.Prelude.{map};
ghost use Rattle.aut_core.specs.SymbolicAutomata.{automaton_of};
ghost use Rattle.plan_meaning.specs.Complements.{AreComplementsKept, StayKept};
ghost use Rattle.plan_meaning.specs.Filters.{Judged, filters};
ghost use Rattle.plan_meaning.specs.Operands.{AreOperands, IsOfReadSize};
ghost use Rattle.plan_meaning.specs.inner.Judging.{JudgesWithin};

use crate::complements::Complements;
use crate::fault::PlanFault;
use crate::operands::Automata;
use aut_core::Automaton;
use filter::{filters, holds};
use filter_plan::Plan;
use std::alloc::Global;

// Why so: 'A filter is examined within limits, whatever comes out' in docs/DECISIONS.md.
/// Whether an automaton is kept: whether all filters of the plan hold, or where it inverts, whether one doesn't. Refused as
/// a limit where a filter passes one and all before it hold. No filter is examined after one that doesn't hold. The
/// complement of an operand is made where the automaton is first compared with it, and kept.
pub fn judge(
    alloc: Global,
    plan: &Plan,
    operands: &Automata,
    complements: &mut Complements,
    a: &Automaton,
) -> Result<bool, PlanFault>
    requires operands { AreOperands plan.now (map automaton_of operands.now) }
    requires size { IsOfReadSize (automaton_of a.now) }
    requires kept { AreComplementsKept plan.now (map automaton_of operands.now) complements.old }
    ensures judged { Judged result plan.now (map automaton_of operands.now) (automaton_of a.now) }
    ensures kept { AreComplementsKept plan.now (map automaton_of operands.now) complements.new }
    ensures stay { StayKept complements.old complements.new }
{
    let holds = hold_all(alloc, plan, operands, complements, a)?;
    if plan.invert { Ok(!holds) } else { Ok(holds) }
}

/// Whether all filters hold that are asked for.
fn hold_all(
    alloc: Global,
    plan: &Plan,
    operands: &Automata,
    complements: &mut Complements,
    a: &Automaton,
) -> Result<bool, PlanFault>
    requires operands { AreOperands plan.now (map automaton_of operands.now) }
    requires size { IsOfReadSize (automaton_of a.now) }
    requires kept { AreComplementsKept plan.now (map automaton_of operands.now) complements.old }
    ensures judges { JudgesWithin result (filters plan.now (map automaton_of operands.now)) (automaton_of a.now) }
    ensures kept { AreComplementsKept plan.now (map automaton_of operands.now) complements.new }
    ensures stay { StayKept complements.old complements.new }
{
    let asked = filters(plan, operands);
    'filters: for filter in &asked {
        if let Some(filter) = filter {
            if !holds(alloc, filter, complements, a)? {
                return Ok(false);
            }
        }
    }
    Ok(true)
}
