//! What a plan makes of an automaton.

ghost use Rattle.std.specs.Prelude.{◌≡◌, ◌<◌, ◌≤◌, ◌^◌, IfOk, length, map};
ghost use Rattle.ap_project.specs.Laws.{SayTheSame};
ghost use Rattle.aut_base.specs.Acceptance.{Accepts};
ghost use Rattle.aut_base.specs.declared.limit.TheConstants.{MOST_NAMES};
ghost use Rattle.aut_core.specs.SymbolicAutomata.{automaton_of};
ghost use Rattle.plan_meaning.specs.Changes.{ChangedTo, changes_of, set_operation};
ghost use Rattle.plan_meaning.specs.Operands.{AreOperands, IsOfReadSize};
ghost use Rattle.filter_plan.specs.declared.plan.Form.{Form};
ghost use Rattle.plan_meaning.specs.Promises.{HasFewSetsUnder, KeepsPromises};
ghost use Rattle.plan_meaning.specs.inner.Stepping.{IsOfLastSize, IsOfSizeFor, StepsChanges, changes_asked};

mod combining;
mod determinising;
mod disjunctive;
mod list;
mod shaping;

use crate::fault::PlanFault;
use crate::operands::Automata;
use aut_core::Automaton;
use filter_plan::Plan;
use list::{Change, changes, make};
use std::alloc::Global;

// Why so: 'What is made is one automaton, said twice' in docs/DECISIONS.md.
/// What a plan makes of an automaton: its product, product-or and sum with the operands of the plan, a proposition hidden,
/// its reached states alone, its complement, its form, and its completion, in this order. Each is made only if its option
/// is given, and an automaton that isn't changed isn't copied. Refused where a count of a change passes its limit, before
/// any later change is begun.
pub fn change(
    alloc: Global,
    plan: &Plan,
    operands: &Automata,
    a: Automaton,
) -> Result<Automaton, PlanFault>
    requires operands { AreOperands plan.now (map automaton_of operands.now) }
    requires size { IsOfReadSize (automaton_of a) }
    ensures changed { ChangedTo result (changes_of plan.now (map automaton_of operands.now)) (automaton_of a) }
    ensures says { IfOk result (λ made. SayTheSame (λ u v. Accepts (automaton_of made) u v) (set_operation plan.now (map automaton_of operands.now) (automaton_of a))) }
    ensures promises { IfOk result (λ made. KeepsPromises plan.now (automaton_of made)) }
    ensures few_sets { IfOk result (λ made. plan.now.form ≡ Form.Parity → HasFewSetsUnder plan.now (map automaton_of operands.now) (automaton_of a) (automaton_of made)) }
    ensures sized { IfOk result (λ made. (made.states < 2 ^ 32) × (made.sets < 2 ^ 32) × (length made.names ≤ MOST_NAMES)) }
{
    let made = make_all(alloc, &changes(plan, operands), a)?;
    made.well_formedness();
    Ok(made)
}

/// Makes the changes that are asked for, one after the other.
fn make_all(alloc: Global, changes: &[Option<Change>], a: Automaton) -> Result<Automaton, PlanFault>
    requires { IsOfSizeFor (changes_asked changes.now) (automaton_of a) }
    ensures steps { StepsChanges (changes_asked changes.now) (automaton_of a) result }
    ensures size { IfOk result (λ made. IsOfLastSize (automaton_of made)) }
{
    let mut made = a;
    'changes: for change in changes {
        if let Some(change) = change {
            made = make(alloc, change, made)?;
        }
    }
    Ok(made)
}
